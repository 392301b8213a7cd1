// Tries that are known.
ghost use Rattle.std.specs.Prelude.{◌≡◌, ◌≢◌, ◌<◌, ◌≤◌, ℕ, All, true, false, replicate, length, slice_index_or, slice_set, IfOk};

use lab_base::Memory;
use std::alloc::Global;
use std::marker::Model;

/// How many notes are looked over together.
const GROUP: usize = 64;

/// By the number of a try whether it is known to make no cheaper map, whatever is left of the trunks.
#[derive(Drop)]
pub struct Notes {
    known: Vec<bool>,
}

impl Model for Notes {
    ghost use Rattle.std.specs.Prelude.{List, Bool};

    ghost Value = { List Bool };

    ghost view = { λ notes. notes.known.items };
}

impl Notes {
    /// Nothing is known of so many tries.
    pub(crate) fn of(alloc: Global, count: usize) -> Result<Notes, Memory>
        ensures { IfOk result (λ notes. notes ≡ replicate count false) }
    {
        let known = vec![in alloc; false; count]?;
        Ok(Notes { known })
    }

    /// How many tries there are.
    pub(crate) fn len(&self) -> usize
        ensures { result ≡ length self.now }
    {
        self.known.len()
    }

    /// Notes whether a try is known.
    pub(crate) fn note(&mut self, number: usize, known: bool)
        requires { number < length self.old }
        ensures { self.new ≡ slice_set self.old number known }
    {
        self.known[number] = known;
    }

    /// The first of these numbers whose try isn't known, or their end.
    fn unknown_within(&self, from: usize, end: usize) -> usize
        requires ordered { from ≤ end }
        requires within { end ≤ length self.now }
        ensures from { from ≤ result }
        ensures end { result ≤ end }
        ensures known { (k : ℕ) → from ≤ k → k < result → slice_index_or self.now k false ≡ true }
        ensures unknown { result < end → slice_index_or self.now result false ≡ false }
    {
        if !self.known[from..end].contains(&false) {
            return end;
        }
        for number in from..end {
            if !self.known[number] {
                return number;
            }
        }
        end
    }

    /// The first number from this one on whose try isn't known, or how many tries there are.
    pub(crate) fn unknown_from(&self, from: usize) -> usize
        requires { from ≤ length self.now }
        ensures from { from ≤ result }
        ensures within { result ≤ length self.now }
        ensures known { (k : ℕ) → from ≤ k → k < result → slice_index_or self.now k false ≡ true }
        ensures unknown { result < length self.now → slice_index_or self.now result false ≡ false }
    {
        let mut start = from;
        while start < self.known.len() {
            let end = start + GROUP.min(self.known.len() - start);
            let found = self.unknown_within(start, end);
            if found < end {
                return found;
            }
            start = end;
        }
        start
    }

    /// Forgets all that is known.
    fn forget_all(&mut self)
        ensures { self.new ≡ replicate (length self.old) false }
    {
        self.known.fill(false);
    }

    /// Forgets what is known of the tries of these numbers.
    fn forget_each(&mut self, numbers: &[usize])
        requires { All (λ k. k < length self.old) numbers.now }
        ensures one_each { length self.new ≡ length self.old }
        ensures known { (k : ℕ) → slice_index_or self.new k false ≡ true → slice_index_or self.old k false ≡ true }
        ensures gone { All (λ k. slice_index_or self.new k false ≡ false) numbers.now }
        ensures others { (k : ℕ) → All (λ n. n ≢ k) numbers.now → slice_index_or self.new k false ≡ slice_index_or self.old k false }
    {
        for number in numbers {
            self.note(*number, false);
        }
    }

    /// Forgets what is known of all tries, or of those of these numbers.
    pub(crate) fn forget(&mut self, all: bool, numbers: &[usize])
        requires { All (λ k. k < length self.old) numbers.now }
        ensures one_each { length self.new ≡ length self.old }
        ensures known { (k : ℕ) → slice_index_or self.new k false ≡ true → slice_index_or self.old k false ≡ true }
        ensures gone { All (λ k. slice_index_or self.new k false ≡ false) numbers.now }
        ensures all { (k : ℕ) → slice_index_or self.new k false ≡ true → all ≡ false }
        ensures others { all ≡ false → (k : ℕ) → All (λ n. n ≢ k) numbers.now → slice_index_or self.new k false ≡ slice_index_or self.old k false }
    {
        if all {
            self.forget_all();
        } else {
            self.forget_each(numbers);
        }
    }
}
