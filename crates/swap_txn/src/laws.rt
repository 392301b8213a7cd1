// Laws on the facts that the states of a swap keep.
ghost use Rattle.std.specs.Prelude.{◌≢◌, ◌++◌, [], ◌∷◌, ℕ, List, length, Bool, Result, IfSome};
ghost use Rattle.lab_base.specs.Lists.{Has};
ghost use Rattle.phys_lab.specs.Labs.{Lab};
ghost use Rattle.phys_lab.specs.Kept.{IsLab};
ghost use Rattle.virt_topo.specs.declared.experiment.Experiment.{Experiment};
ghost use Rattle.plant.specs.Events.{Event, Did};
ghost use Rattle.plant.specs.declared.device.DeviceOp.{DeviceOp};
ghost use Rattle.plant.specs.declared.device.Answer.{Answer};
ghost use Rattle.plant.specs.declared.device.Fault.{Fault};
ghost use Rattle.journal_rec.specs.declared.record.Record.{Record};
ghost use Rattle.journal_disk.specs.declared.journal.Journal.{Journal};
ghost use Rattle.lab_model.specs.Holding.{Holding};
ghost use Rattle.lab_model.specs.Courses.{Plan, whole, IsCommandOf};
ghost use Rattle.swap_txn.specs.declared.live.Live.{Live as AnyState};
ghost use Rattle.swap_txn.specs.declared.turned.Turned.{Turned as Answered};
ghost use Rattle.swap_txn.specs.States.{Plans};
ghost use Rattle.plant.specs.Seen.{Seen};
ghost use Rattle.swap_txn.specs.Turns.{Turns, Begins};
ghost use Rattle.swap_txn.specs.Facts.{IsUnderWay, Knows, IsOf};

/// The facts of an open swap hold, over every trace, where nothing of its course was sent.
/// They are kept by the commands and turns of each other experiment. None of the other's rows and nodes are its own, where the lab holds all that is
/// mapped on it.
pub fn facts_alone()
    ensures starts { (lab : Lab) (e : Experiment) (plan : Plan) (trace : List Event) → IsUnderWay lab e (length trace) plan (whole plan) trace }
    ensures commands { (lab : Lab) (es : List Experiment) → IsLab lab → Holding lab es → (e f : Experiment) → Has es e → Has es f → e ≢ f
        → (start : ℕ) (live : AnyState) (trace : List Event) (op : DeviceOp) (applied : Bool) (answer : Result Answer Fault)
        → IsCommandOf lab f op → Knows lab e start live trace → Knows lab e start live (trace ++ Did op applied answer ∷ []) }
    ensures turns { (lab : Lab) (es : List Experiment) → IsLab lab → Holding lab es → (e f : Experiment) → Has es e → Has es f → e ≢ f
        → (start begin : ℕ) (live other : AnyState) (was now : Seen) (j k : Journal) (turned : Answered AnyState) → Turns other was now j k turned
        → IsOf lab f other
        → IfSome was.told (λ t. Knows lab f begin other t.trace × Knows lab e start live t.trace) → IfSome now.told (λ u. Knows lab e start live u.trace) }
    ensures begins { (lab : Lab) (e : Experiment) (start : ℕ) (live : AnyState) (p : Plans) (r : Record) (was now : Seen) (j k : Journal)
        (turned : Answered Plans)
        → Begins p was now j k turned r → IfSome was.told (λ t. Knows lab e start live t.trace) → IfSome now.told (λ u. Knows lab e start live u.trace) }
{}
