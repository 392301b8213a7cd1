// Laws of the definitions.
ghost use Rattle.std.specs.Prelude.{◌↔◌, ℕ, IsTrue, List};
ghost use Rattle.phys_lab.specs.Sides.{AreJoined, joined};
ghost use Rattle.phys_lab.specs.declared.parts.Trunk.{Trunk};

/// Two switches are joined exactly where a list of trunks leads from one to the other.
pub fn joined_by_lists()
    ensures { (trunks : List Trunk) (a b : ℕ) → IsTrue (joined trunks a b) ↔ AreJoined trunks a b }
{}
