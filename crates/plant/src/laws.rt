ghost use Rattle.std.specs.Prelude.{◌≡◌, ◌<◌, ℕ, List, Option};
ghost use Rattle.plant.specs.Bytes.{AreBytes, as_bytes};
ghost use Rattle.plant.specs.Disks.{Disk, IsImage, disk, ArePossible};
ghost use Rattle.plant.specs.Events.{Event};
ghost use Rattle.plant.specs.Readings.{IsBefore, IsNth, IsEntry, HasPipe};
ghost use Rattle.plant.specs.Worlds.{World, NodeRow};
ghost use Rattle.plant.specs.declared.step.Side.TheVariants.{A, B};

/// Durable bytes are a possible image. An image may have a number above 255 only where any byte may stand. With bytes in the place of such numbers it
/// is an image of bytes.
pub fn possible_images()
    ensures durable { (trace : List Event) → ArePossible trace (disk A trace).durable (disk B trace).durable }
    ensures bytes { (d : Disk) (image : List ℕ) → AreBytes d.durable → IsImage d image → IsImage d (as_bytes image) × AreBytes (as_bytes image) }
{}

/// A reading of rows or of pipes has one answer, by what stands.
pub fn answers_are_one()
    ensures rows { (w : World) (switch : List ℕ) (nth : ℕ) (a b : Option (ℕ × ℕ)) → IsNth IsBefore (IsEntry w switch) nth a → IsNth IsBefore (IsEntry w switch) nth b → a ≡ b }
    ensures pipes { (row : NodeRow) (nth : ℕ) (a b : Option ℕ) → IsNth ◌<◌ (HasPipe row) nth a → IsNth ◌<◌ (HasPipe row) nth b → a ≡ b }
{}
