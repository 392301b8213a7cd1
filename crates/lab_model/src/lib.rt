//! The definitions of the model, the laws about them, and the small calls that answer them by number and by name.
#![tactic(auto)]

ghost use Rattle.std.specs.Prelude.{◌≡◌, ◌≢◌, ◌↔◌, ◌++◌, ◌∷◌, [], ◌<◌, ℕ, List, length, take, Bool, true, Option, Some, None, Result, All};
ghost use Rattle.lab_base.specs.Lists.{Has, AllDiffer};
ghost use Rattle.phys_lab.specs.Labs.{Lab};
ghost use Rattle.phys_lab.specs.declared.free.Free.{Free};
ghost use Rattle.phys_lab.specs.Forests.{first_side_of};
ghost use Rattle.phys_lab.specs.Kept.{IsLab};
ghost use Rattle.virt_topo.specs.declared.experiment.Experiment.{Experiment};
ghost use Rattle.virt_topo.specs.declared.mapping.Mapped.{Mapped};
ghost use Rattle.virt_topo.specs.declared.mapping.Mapping.{Mapping};
ghost use Rattle.virt_topo.specs.declared.wiring.Wiring.{Wiring};
ghost use Rattle.virt_topo.specs.declared.violation.Broken.{Broken};
ghost use Rattle.virt_topo.specs.declared.violation.Subject.{Subject};
ghost use Rattle.virt_topo.specs.declared.experiment.Phase.TheVariants.{Moving};
ghost use Rattle.virt_topo.specs.Soundness.{IsSound};
ghost use Rattle.virt_topo.specs.Cables.{cut_use};
ghost use Rattle.plant.specs.Worlds.{World, world_after, world_of};
ghost use Rattle.plant.specs.Events.{Event, Did};
ghost use Rattle.plant.specs.declared.device.DeviceOp.{DeviceOp};
ghost use Rattle.plant.specs.declared.device.Answer.{Answer};
ghost use Rattle.plant.specs.declared.device.Fault.{Fault};
ghost use Rattle.lab_model.specs.Uses.{cables_of, use_of};
ghost use Rattle.lab_model.specs.Feasible.{first_violation, violation, Kept, BreaksFirst};
ghost use Rattle.lab_model.specs.Beside.{IsLeft, violation_beside};
ghost use Rattle.lab_model.specs.Shapes.{IsShaped};
ghost use Rattle.lab_model.specs.Holding.{Holding, Suits};
ghost use Rattle.lab_model.specs.Isolated.{Isolated, IsolatedBeside};
ghost use Rattle.lab_model.specs.Cabled.{Cabled};
ghost use Rattle.lab_model.specs.Parts.{Part, Parts};
ghost use Rattle.lab_model.specs.Courses.{IsCommandOf, IsCut, IsDone, Plan, Trouble, commands, undo};
ghost use Rattle.lab_model.specs.CourseLists.{IsCutList, IsDoneList};
ghost use Rattle.lab_model.specs.Leavings.{Sent, did, ran, Ends, Gone};
ghost use Rattle.lab_model.specs.OnCourse.{OnCourse, EveryMoment};
ghost use Rattle.lab_model.specs.Claims.{Which, claimed, claimed_tags};

mod at;
mod claimed;

pub use at::{iface_at, name_at, node_at, node_name, place_at, plug_at, virt_at};
pub use claimed::{claims, is_placed};

/// Each statement of the whole is that of all its parts together.
pub fn law_of_parts()
    ensures whole { (lab : Lab) (es : List Experiment) (w : World) → IsLab lab → Holding lab es
        → Parts lab es w → Isolated lab es w × Cabled lab es w }
    ensures parts { (lab : Lab) (es : List Experiment) (w : World) → IsLab lab → Holding lab es
        → Isolated lab es w → Cabled lab es w → Parts lab es w }
{}

/// Isolation is a matter of neighbours: no list of points has to be looked at.
pub fn isolation_beside()
    ensures from { (lab : Lab) (es : List Experiment) (w : World) → IsolatedBeside lab es w → Isolated lab es w }
    ensures to { (lab : Lab) (es : List Experiment) (w : World) → Isolated lab es w → IsolatedBeside lab es w }
{}

/// A command of one experiment keeps the part of each other one.
pub fn other_parts()
    ensures { (lab : Lab) (es : List Experiment) (w : World) (e f : Experiment) (op : DeviceOp) (applied : Bool)
        (answer : Result Answer Fault) → IsLab lab → Holding lab es → Has es e → Has es f → e ≢ f → IsCommandOf lab f op
        → Part lab w e → Part lab (world_after w (Did op applied answer)) e }
{}

/// Every moment of a swap-in, of a change, of a swap-out, and of the undo of each, begun in any world that keeps the part.
pub fn every_moment()
    ensures forward { (lab : Lab) (e : Experiment) (old : Option Mapped) (m : Mapped) (w : World) → e.phase ≡ Moving old (Some m) → IsLab lab
        → AllDiffer (claimed_tags e) → ((which : Which) (n : Mapped) → claimed e which ≡ Some n → Suits lab n) → Part lab w e
        → EveryMoment lab e (commands lab old (Some m)) w }
    ensures undone { (lab : Lab) (e : Experiment) (m : Mapped) (new : Option Mapped) (w : World) → e.phase ≡ Moving (Some m) new → IsLab lab
        → AllDiffer (claimed_tags e) → ((which : Which) (n : Mapped) → claimed e which ≡ Some n → Suits lab n) → Part lab w e
        → EveryMoment lab e (undo lab (Some m) new) w }
    ensures out { (lab : Lab) (e : Experiment) (m : Mapped) (w : World) → e.phase ≡ Moving (Some m) None → Part lab w e
        → EveryMoment lab e (commands lab (Some m) None) w }
    ensures in_undone { (lab : Lab) (e : Experiment) (m : Mapped) (w : World) → e.phase ≡ Moving None (Some m) → Part lab w e
        → EveryMoment lab e (undo lab None (Some m)) w }
{}

/// A done course leaves of its experiment exactly the mapping that it keeps, or nothing, from any part.
pub fn done_courses()
    ensures forward { (lab : Lab) (e : Experiment) (old : Option Mapped) (m : Mapped) (w : World) (cs : Sent)
        → e.phase ≡ Moving old (Some m) → ((which : Which) (n : Mapped) → claimed e which ≡ Some n → Suits lab n) → Part lab w e
        → IsDone (commands lab old (Some m)) cs → Ends lab e m (ran w cs) }
    ensures undone { (lab : Lab) (e : Experiment) (m : Mapped) (new : Option Mapped) (w : World) (cs : Sent)
        → e.phase ≡ Moving (Some m) new → ((which : Which) (n : Mapped) → claimed e which ≡ Some n → Suits lab n) → Part lab w e
        → IsDone (undo lab (Some m) new) cs → Ends lab e m (ran w cs) }
    ensures out { (lab : Lab) (e : Experiment) (m : Mapped) (w : World) (cs : Sent) → e.phase ≡ Moving (Some m) None → Suits lab m
        → IsDone (commands lab (Some m) None) cs → Gone lab e (ran w cs) }
    ensures in_undone { (lab : Lab) (e : Experiment) (m : Mapped) (w : World) (cs : Sent) → e.phase ≡ Moving None (Some m) → Suits lab m
        → IsDone (undo lab None (Some m)) cs → Gone lab e (ran w cs) }
{}

/// A check of a mapping finds no violation exactly where all rules are kept. Else it finds the first broken rule, with its first subject that breaks
/// it.
/// A mapping without a violation suits the lab. Beside the other experiments its check equals its check on the rest that they leave.
pub fn checks()
    ensures kept { (lab : Lab) (w : Wiring) (m : Mapping) (f1 f6 : ℕ → Bool) (f8 : Bool) → first_violation lab w m f1 f6 f8 ≡ None
        → (rule : Broken) → Kept lab w m f1 f6 f8 rule }
    ensures none { (lab : Lab) (w : Wiring) (m : Mapping) (f1 f6 : ℕ → Bool) (f8 : Bool) → ((rule : Broken) → Kept lab w m f1 f6 f8 rule)
        → first_violation lab w m f1 f6 f8 ≡ None }
    ensures first { (lab : Lab) (w : Wiring) (m : Mapping) (f1 f6 : ℕ → Bool) (f8 : Bool) (rule : Broken) (subject : Subject)
        → first_violation lab w m f1 f6 f8 ≡ Some (rule, subject) → BreaksFirst lab w m f1 f6 f8 rule subject }
    ensures found { (lab : Lab) (w : Wiring) (m : Mapping) (f1 f6 : ℕ → Bool) (f8 : Bool) (rule : Broken) (subject : Subject)
        → BreaksFirst lab w m f1 f6 f8 rule subject → first_violation lab w m f1 f6 f8 ≡ Some (rule, subject) }
    ensures suits { (lab : Lab) (others : List Experiment) (own : Experiment) (m : Mapped) → violation_beside lab others own m.wiring m.mapping ≡ None
        → IsSound m.wiring → IsShaped lab m.wiring m.mapping → length m.tags ≡ length m.wiring.segments → Suits lab m }
    ensures left { (lab : Lab) (others : List Experiment) (own : Experiment) (free : Free) (w : Wiring) (m : Mapping) → IsLeft lab others own free
        → IsShaped lab w m → violation lab free w m ≡ violation_beside lab others own w m }
{}

/// The use that a mapping makes of a trunk is its use of the cut that the trunk's first side makes.
pub fn uses_of_cuts()
    ensures { (lab : Lab) (w : Wiring) (m : Mapping) (t : ℕ) → All (λ i. i.0 < length lab.ifaces) m.plugs
        → cut_use (first_side_of lab.ifaces lab.trunks t) (cables_of w m) ≡ use_of lab w m t }
{}

/// The state's knowledge of its course is kept by others' commands and by the journal's steps. Its own commands make the course longer, and it
/// suffices for the part and for the end.
pub fn courses_alone()
    ensures starts { (lab : Lab) (e : Experiment) (trace : List Event) → OnCourse lab e [] (length trace) trace }
    ensures others { (lab : Lab) (es : List Experiment) → IsLab lab → Holding lab es → (e f : Experiment) (cs : Sent) (start : ℕ) (trace : List Event)
        (op : DeviceOp) (applied : Bool) (answer : Result Answer Fault) → Has es e → Has es f → e ≢ f → IsCommandOf lab f op
        → OnCourse lab e cs start trace → OnCourse lab e cs start (trace ++ Did op applied answer ∷ []) }
    ensures own { (lab : Lab) (e : Experiment) (cs : Sent) (start : ℕ) (trace : List Event) (op : DeviceOp) (answer : Result Answer Fault)
        → IsCommandOf lab e op → OnCourse lab e cs start trace → OnCourse lab e (cs ++ (op, answer) ∷ []) start (trace ++ Did op true answer ∷ []) }
    ensures part { (lab : Lab) (e : Experiment) (cs : Sent) (start : ℕ) (trace : List Event) (op : DeviceOp) (applied : Bool) (answer : Result Answer Fault)
        → OnCourse lab e cs start trace → Part lab (did (ran (world_of (take start trace)) cs) op applied answer) e
        → Part lab (did (world_of trace) op applied answer) e }
    ensures ends { (lab : Lab) (e : Experiment) (m : Mapped) (which : Which) (cs : Sent) (start : ℕ) (trace : List Event) → claimed e which ≡ Some m
        → OnCourse lab e cs start trace → Ends lab e m (ran (world_of (take start trace)) cs) → Ends lab e m (world_of trace) }
    ensures gone { (lab : Lab) (e : Experiment) (cs : Sent) (start : ℕ) (trace : List Event) → OnCourse lab e cs start trace
        → Gone lab e (ran (world_of (take start trace)) cs) → Gone lab e (world_of trace) }
{}

/// A course is done exactly where it is the plan's commands in order, each acknowledged. Then come for each node its Boot and lawful polls from
/// BOOTING on, at most 64, of which the last alone is ISUP.
/// It is cut exactly where the last command is the trouble, and all before are the beginning of such a course. Trouble is a command that failed, a
/// poll that answers an unlawful state, or the 64th without ISUP.
pub fn courses_are_lists()
    ensures done { (plan : Plan) (cs : Sent) → IsDone plan cs ↔ IsDoneList plan cs }
    ensures cut { (plan : Plan) (cs : Sent) (what : Trouble) → IsCut plan cs what ↔ IsCutList plan cs what }
{}
