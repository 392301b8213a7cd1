// One plug more or less on a side of a trunk, and the ends that count of its segment.
ghost use Rattle.std.specs.Prelude.{◌≡◌, ◌≢◌, ◌<◌, ◌≤◌, ◌⊎◌, ◌+◌, ◌*◌, ℕ, min, max, length, slice_index_or, All, bit_xor, count_ones, IsTrue, if◌then◌else◌};
ghost use Rattle.std.specs.Int.{bit_at};
ghost use Rattle.trunk_sums.specs.Counts.{lesser};
ghost use Rattle.trunk_sums.specs.Crossed.{ups, downs};
ghost use Rattle.trunk_sums.specs.Gains.{IsGain, gains_of, no_gains, on_first};

use crate::crossing::Crossing;
use crate::sums::{EndRow, Sums};
use phys_lab::MAX_TRUNKS;
use virt_topo::MAX_KBPS;

/// By trunk as a bit, whether one plug more on the first side adds an end to those that count of a segment, or takes one, and whether one
/// less there does.
#[derive(Clone, Copy)]
pub struct Gains {
    pub onto_adds: u64,
    pub onto_takes: u64,
    pub off_adds: u64,
    pub off_takes: u64,
}

/// The ends that count of a segment with so many plugs on one side of a trunk.
#[inline(always)]
pub(crate) fn lesser(ends: u16, on: u16) -> u16
    ensures { result ≡ lesser ends on }
{
    on.min(ends.saturating_sub(on))
}

/// A word with the bit of a trunk set anew.
#[inline(always)]
pub(crate) fn with_bit(word: u64, trunk: u16, set: bool) -> u64
    requires { trunk < MAX_TRUNKS }
    ensures own { bit_at result trunk ≡ (if set then 1 else 0) }
    ensures others { (t : ℕ) → t < MAX_TRUNKS → t ≢ trunk → bit_at result t ≡ bit_at word t }
{
    let bit = 1u64 << trunk;
    if set { word | bit } else { word & !bit }
}

/// The kbps of so many ends as a word has bits.
#[inline(always)]
pub(crate) fn kbps_of(word: u64, kbps: u32) -> u64
    requires { kbps ≤ MAX_KBPS }
    ensures is { result ≡ count_ones word * kbps }
    ensures small { result ≤ MAX_TRUNKS * MAX_KBPS }
{
    u64::from(word.count_ones()) * u64::from(kbps)
}

/// Whether a segment is a link.
#[inline(always)]
fn is_link(row: EndRow) -> bool
    ensures { IsTrue result → row.ends ≡ 2 }
{
    row.ends == 2
}

impl Gains {
    /// No plug does anything.
    pub(crate) fn none() -> Gains {
        Gains {
            onto_adds: 0,
            onto_takes: 0,
            off_adds: 0,
            off_takes: 0,
        }
    }

    /// The trunks on which a plug adds an end, where it goes from some first sides to others.
    #[inline(always)]
    pub(crate) fn adds(&self, from: u64, to: u64) -> u64
        ensures { (t : ℕ) → bit_at result t ≡ max (min (min (bit_at to t) (bit_at (bit_xor from to) t)) (bit_at self.now.onto_adds t))
            (min (min (bit_at from t) (bit_at (bit_xor from to) t)) (bit_at self.now.off_adds t)) }
    {
        let apart = from ^ to;
        to & apart & self.onto_adds | from & apart & self.off_adds
    }

    /// The trunks on which a plug takes an end, where it goes from some first sides to others.
    #[inline(always)]
    pub(crate) fn takes(&self, from: u64, to: u64) -> u64
        ensures { (t : ℕ) → bit_at result t ≡ max (min (min (bit_at to t) (bit_at (bit_xor from to) t)) (bit_at self.now.onto_takes t))
            (min (min (bit_at from t) (bit_at (bit_xor from to) t)) (bit_at self.now.off_takes t)) }
    {
        let apart = from ^ to;
        to & apart & self.onto_takes | from & apart & self.off_takes
    }

    /// The change that a plug more or less of a link makes, once one of its two plugs went from some first sides to others. By trunk one of three words has
    /// a bit: that of the trunks with none of the plugs on the first side, of those with one, or of those with both.
    #[inline(always)]
    pub(crate) fn of_link(&self, from: u64, to: u64) -> Gains
        ensures { (k on t : ℕ) → IsGain 2 k t self.now → k ≤ 2 → on ≤ 2 → bit_at from t ≤ k → on + bit_at from t ≡ k + bit_at to t → IsGain 2 on t result }
    {
        let apart = from ^ to;
        let onto = to & apart;
        let off = from & apart;
        let none = self.onto_adds ^ (self.onto_adds & apart) | self.onto_takes & off;
        let one = self.onto_takes ^ (self.onto_takes & apart)
            | self.onto_adds & onto
            | self.off_adds & off;
        let both = self.off_adds ^ (self.off_adds & apart) | self.onto_takes & onto;
        Gains {
            onto_adds: none,
            onto_takes: one,
            off_adds: both,
            off_takes: one,
        }
    }

    /// Marks a trunk that has so many of a segment's plugs on its first side.
    #[inline(always)]
    pub(crate) fn mark(&mut self, trunk: u16, ends: u16, on: u16)
        requires { trunk < MAX_TRUNKS }
        ensures own { IsGain ends on trunk self.new }
        ensures others { (m k t : ℕ) → t < MAX_TRUNKS → t ≢ trunk → IsGain m k t self.old → IsGain m k t self.new }
    {
        let now = lesser(ends, on);
        let onto = lesser(ends, on.saturating_add(1));
        let off = lesser(ends, on.saturating_sub(1));
        self.onto_adds = with_bit(self.onto_adds, trunk, onto > now);
        self.onto_takes = with_bit(self.onto_takes, trunk, onto < now);
        self.off_adds = with_bit(self.off_adds, trunk, off > now);
        self.off_takes = with_bit(self.off_takes, trunk, off < now);
    }
}

impl Sums {
    /// Marks the trunks that a plug of a segment crossed, by the counts as they are now.
    fn mark(&mut self, row: EndRow, crossed: &[Crossing])
        requires room { MAX_TRUNKS * row.segment + MAX_TRUNKS ≤ length self.old.counts.items }
        requires row { row.segment < length self.old.gains.items }
        requires within { All (λ c. c.trunk < MAX_TRUNKS) crossed.now }
        ensures counts { self.new.counts.items ≡ self.old.counts.items }
        ensures uses { self.new.uses.items ≡ self.old.uses.items }
        ensures total { self.new.total ≡ self.old.total }
        ensures one_each { length self.new.gains.items ≡ length self.old.gains.items }
        ensures others { (s : ℕ) → s ≢ row.segment → slice_index_or self.new.gains.items s no_gains ≡ slice_index_or self.old.gains.items s no_gains }
        ensures own { (t : ℕ) → t < MAX_TRUNKS
            → (IsGain row.ends (on_first self.old row t) t (gains_of self.old row)) ⊎ (0 < ups t crossed.now + downs t crossed.now)
            → IsGain row.ends (on_first self.old row t) t (gains_of self.new row) }
    {
        let mut gains = self.gains[row.segment as usize];
        for crossing in crossed {
            let place = MAX_TRUNKS * row.segment as usize + crossing.trunk as usize;
            gains.mark(crossing.trunk, row.ends, self.counts[place]);
        }
        self.gains[row.segment as usize] = gains;
    }

    /// Marks the trunks of a segment once one of its plugs went from some first sides to others and crossed these, by the counts as they are now. Those
    /// of a link are marked together.
    #[inline(always)]
    pub(crate) fn mark_moved(&mut self, row: EndRow, crossed: &[Crossing], from: u64, to: u64)
        requires room { MAX_TRUNKS * row.segment + MAX_TRUNKS ≤ length self.old.counts.items }
        requires row { row.segment < length self.old.gains.items }
        requires within { All (λ c. c.trunk < MAX_TRUNKS) crossed.now }
        ensures counts { self.new.counts.items ≡ self.old.counts.items }
        ensures uses { self.new.uses.items ≡ self.old.uses.items }
        ensures total { self.new.total ≡ self.old.total }
        ensures one_each { length self.new.gains.items ≡ length self.old.gains.items }
        ensures others { (s : ℕ) → s ≢ row.segment → slice_index_or self.new.gains.items s no_gains ≡ slice_index_or self.old.gains.items s no_gains }
        ensures own { (k t : ℕ) → t < MAX_TRUNKS → IsGain row.ends k t (gains_of self.old row) → k ≤ row.ends → on_first self.old row t ≤ row.ends
            → bit_at from t ≤ k → on_first self.old row t + bit_at from t ≡ k + bit_at to t
            → (on_first self.old row t ≡ k) ⊎ (0 < ups t crossed.now + downs t crossed.now)
            → IsGain row.ends (on_first self.old row t) t (gains_of self.new row) }
    {
        if is_link(row) {
            let gains = self.gains[row.segment as usize];
            self.gains[row.segment as usize] = gains.of_link(from, to);
            return;
        }
        self.mark(row, crossed);
    }
}
