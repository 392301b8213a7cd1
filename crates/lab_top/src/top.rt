ghost use Rattle.std.specs.Prelude.{◌≡◌, ◌≢◌, ◌≤◌, ℕ, List, None, IfSome, is_some, true};
ghost use Rattle.lab_base.specs.Counts.{Rose};
ghost use Rattle.plant.specs.Disks.{disk};
ghost use Rattle.plant.specs.declared.step.Side.{Side as AnySide};
ghost use Rattle.plant.specs.declared.step.Side.TheVariants.{A, B};
ghost use Rattle.lab_model.specs.Isolated.{Isolated};
ghost use Rattle.lab_model.specs.Holding.{Holding};
ghost use Rattle.lab_model.specs.Cabled.{Cabled};
ghost use Rattle.records_model.specs.Works.{IsSound};
ghost use Rattle.lab_state.specs.Texts.{the_texts};
ghost use Rattle.lab_core.specs.Moments.{IsNoJournal};
ghost use Rattle.lab_core.specs.Sessions.{terms_of};
ghost use Rattle.lab_top.specs.Headline.{AtEachMoment, StaysSo};
ghost use Rattle.lab_top.specs.Pieces.{Begun};
ghost use Rattle.lab_top.specs.Ran.{Ran, number_of, rule_of};
ghost use Rattle.lab_words.specs.Words.{choices_of};

use crate::session::run_under;
use crate::status::Status;
use journal_rec::MAX_JOURNAL;
use lab_io::{Sink, Source};
use lab_words::{PlaceFault, read_words};
use plant::Tables;
use std::alloc::Global;

/// Obeys the script of the source, and writes a reply to each of its commands before it reads the next. With `--gen N` it obeys the
/// script of that number instead, and writes a summary of the replies at its end.
///
/// `words` are those after the program's name. Their choice of the plant's place is done already: see [`crate::place_of`].
pub fn labctl<S: Source, K: Sink, P: Tables>(
    alloc: Global,
    words: &[String],
    source: &mut S,
    sink: &mut K,
    plant: &mut P,
) -> Status
    ensures run { (made : List Begun) × Ran (terms_of P.takes_drills (rule_of (choices_of words.now))) (choices_of words.now)
        (record { left = S.left source.old; plant = P.seen plant.old; written = K.written sink.old })
        (record { left = S.left source.new; plant = P.seen plant.new; written = K.written sink.new }) result made }
    // where the past is sound at the entry, it is so at the exit. Then at each moment of it, whatever a stop may leave of the disk there, the records stand
    // for a lab in which a frame reaches only ports of its own link or LAN, trunks, nodes and VLAN ids hold what is claimed, and rows and nodes are as the
    // mappings want them
    ensures sound { StaysSo (IsSound the_texts) (P.seen plant.old) (P.seen plant.new) }
    ensures isolated { StaysSo (AtEachMoment Isolated) (P.seen plant.old) (P.seen plant.new) }
    ensures holding { StaysSo (AtEachMoment (λ lab es w. Holding lab es)) (P.seen plant.old) (P.seen plant.new) }
    ensures cabled { StaysSo (AtEachMoment Cabled) (P.seen plant.old) (P.seen plant.new) }
    ensures bad { (side : AnySide) (at : ℕ) → result ≡ Status.JournalBad side at
        → IfSome (P.seen plant.new).told (λ t. IsNoJournal (disk A t.trace).reads (disk B t.trace).reads MAX_JOURNAL side at) }
    ensures never_bad { (side : AnySide) (at : ℕ) → result ≡ Status.JournalBad side at → IfSome (P.seen plant.old).told (λ t. IsSound the_texts t.trace → ⊥) }
    ensures unread { choices_of words.now ≡ None → source.new ≡ source.old }
    ensures unread_where_generated { is_some (number_of (choices_of words.now)) ≡ true → source.new ≡ source.old }
    ensures unwritten { choices_of words.now ≡ None → sink.new ≡ sink.old }
    ensures unsent { choices_of words.now ≡ None → plant.new ≡ plant.old }
    ensures read { result ≡ Status.ReadFault → Rose (S.faults source.old) (S.faults source.new) }
    ensures calm { result ≢ Status.ReadFault → S.faults source.new ≡ S.faults source.old }
    ensures read_later { S.faults source.old ≤ S.faults source.new }
    ensures write { result ≡ Status.WriteFault → Rose (K.faults sink.old) (K.faults sink.new) }
    ensures write_later { K.faults sink.old ≤ K.faults sink.new }
{
    match read_words(alloc, words) {
        Ok(chosen) => run_under(alloc, chosen.rule, chosen.generated, source, sink, plant),
        Err(PlaceFault::Usage) => Status::Usage,
        Err(PlaceFault::Memory) => Status::Memory,
    }
}
