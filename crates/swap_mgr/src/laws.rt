// Laws on the swaps that a manager holds.
ghost use Rattle.std.specs.Prelude.{◌≡◌, ◌↔◌, ℕ, List, Option, is_none};
ghost use Rattle.lab_base.specs.Lists.{Has};
ghost use Rattle.plant.specs.Told.{Told};
ghost use Rattle.journal_rec.specs.declared.record.Record.{Record};
ghost use Rattle.journal_disk.specs.declared.journal.Journal.{Journal};
ghost use Rattle.records_model.specs.Labs.{LabState, Move, Texts};
ghost use Rattle.swap_txn.specs.declared.live.Live.{Live};
ghost use Rattle.plant.specs.Seen.{Seen};
ghost use Rattle.swap_turns.specs.Swaps.{Swap};
ghost use Rattle.swap_turns.specs.Legs.{Leg, commits, why_of};
ghost use Rattle.swap_turns.specs.Running.{OpenSwap, IsOpen, AtWork, IsRunning, Working};
ghost use Rattle.swap_mgr.specs.Managing.{Holds, HasOpened, IsAmong, IsManagingFor, IsPlain};
ghost use Rattle.swap_mgr.specs.Open.{HasOpen};

/// A manager has a swap of a name exactly where an open swap has that name. Its swaps end with Commit exactly where no trouble began their undo. It
/// is at work after it opened one.
pub fn opens_of_managers()
    ensures named { (t : Texts) (told : Option Told) (j : Journal) (s : LabState) (opens : List (OpenSwap × Live)) (swaps : List Live) (exp : List ℕ)
        → Working t told j s opens → Holds swaps opens → (HasOpen swaps exp ↔ IsAmong opens exp) }
    ensures commits { (p : Swap) (leg : Leg) → IsPlain leg → commits p leg ≡ is_none (why_of leg) }
    ensures opened { (t : Texts) (opens : List (OpenSwap × Live)) (p : Swap) (s u : LabState) (begin : Record) (move : Move) (was now : Seen)
        (j k : Journal) (new : List Live) → HasOpened t opens p s u begin move was now j k new → IsManagingFor t now.told k u new }
{}

/// Where another command goes on and leaves each open swap as it was, all stay open.
pub fn open_swaps_stay()
    ensures { (t : Texts) (s u : LabState) (opens : List (OpenSwap × Live)) (was now : Seen) (j k : Journal) → Working t was.told j s opens
        → AtWork t now.told k u → ((q : OpenSwap) (x : Live) → Has opens (q, x) → IsOpen s q x → IsRunning t was.told s q
        → IsOpen u q x × IsRunning t now.told u q)
        → Working t now.told k u opens }
{}
