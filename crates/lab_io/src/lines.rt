// The lines of a source.
ghost use Rattle.std.specs.Prelude.{◌≡◌, ◌≢◌, ◌≤◌, ◌<◌, ◌+◌, ◌-◌, ◌⊎◌, ℕ, max, length, [], take, drop, None, Some};
ghost use Rattle.std.specs.Prelude.{Ok, Err, true, false, IfNone, IsTrue, IsFalse, slice_index, IfOk, IfErr, IfSome, OnErr, OnOk, IsErrOf, IsSome, vec_len};
ghost use Rattle.std.specs.Io.KnownBytes.{prepend_known};
ghost use Rattle.lab_base.specs.Counts.{Rose};
ghost use Rattle.lab_io.specs.Feeds.{NoFeed, without_return};
ghost use Rattle.lab_io.specs.Next.{IsNext, HasNoText};
ghost use Rattle.lab_io.specs.Taken.{Took, Counted, IsFound, IsTooLong, rest_of, pending_of, ended_of, fault_of, lines_of, taken_of};

use crate::limits::{CHUNK, MAX_LINE, MAX_PENDING, MAX_SCRIPT};
use crate::outside::Source;
use crate::reader::{Line, LineFault, LineReader};
use lab_base::{Memory, Text};
use std::alloc::Global;

/// The line at the front of the pending bytes.
#[derive(Clone, Copy)]
enum Found {
    /// A line that ends at a line feed, at that place.
    Feed(usize),
    /// A last line, perhaps empty.
    Last,
    /// A line that is too long.
    Long,
}

/// The place of the first line feed, or the length where there is none.
fn find_feed(bytes: &[u8]) -> usize
    ensures within { result ≤ length bytes.now }
    ensures before { NoFeed (take result bytes.now) }
    ensures found { result < length bytes.now → slice_index bytes.now result ≡ 10 }
{
    for (i, byte) in bytes.iter().enumerate() {
        if *byte == 10 {
            return i;
        }
    }
    bytes.len()
}

/// The length without the carriage return at the end.
fn without_return_len(bytes: &[u8]) -> usize
    ensures within { result ≤ length bytes.now }
    ensures text { take result bytes.now ≡ without_return bytes.now }
{
    match bytes {
        [before @ .., 13] => before.len(),
        _ => bytes.len(),
    }
}

/// Drops the first n bytes.
fn drop_front(bytes: &mut Vec<u8>, n: usize)
    requires { n ≤ vec_len bytes.old }
    ensures { bytes.new.items ≡ drop n bytes.old.items }
{
    let left = bytes.len() - n;
    bytes.rotate_left(n);
    bytes.truncate(left);
}

/// Reads pieces until the pending bytes have a line feed, are too many for a line, or the source has ended.
fn fill<S: Source>(pending: &mut Vec<u8>, taken: u64, source: &mut S) -> Result<Found, LineFault>
    requires { taken ≤ MAX_SCRIPT }
    ensures rest { prepend_known pending.new.items (S.left source.new) ≡ prepend_known pending.old.items (S.left source.old) }
    ensures found { IfOk result (λ found. IsFound taken pending.new.items (S.left source.new) found) }
    ensures read { IsErrOf result LineFault.ReadFault → Rose (S.faults source.old) (S.faults source.new) × NoFeed pending.new.items }
    ensures later { S.faults source.old ≤ S.faults source.new }
    ensures long { IfErr result (λ e. (n : _) → e ≢ LineFault.TooLong n) }
    ensures quiet { NoFeed pending.old.items ⊎ ((source.new ≡ source.old) × (pending.new.items ≡ pending.old.items)) }
    ensures ahead { length pending.new.items ≤ max (length pending.old.items) MAX_PENDING }
    ensures calm { result ≢ Err LineFault.ReadFault → S.faults source.new ≡ S.faults source.old }
{
    let mut chunk = [0u8; CHUNK];
    'reads: loop {
        let at = find_feed(pending);
        if at < pending.len() {
            return Ok(Found::Feed(at));
        }
        if pending.len() > MAX_LINE + 1 || pending.len() as u64 > MAX_SCRIPT - taken {
            return Ok(Found::Long);
        }
        if pending.try_reserve(CHUNK).is_err() {
            return Err(LineFault::Memory);
        }
        match source.read(&mut chunk) {
            Ok(0) => return Ok(Found::Last),
            Ok(n) => pending.extend_from_slice(&chunk[..n]).unwrap(),
            Err(_) => return Err(LineFault::ReadFault),
        }
    }
}

/// Takes a line of `after` bytes from the front of the pending bytes. Its text ends at `end`.
fn take_text(
    alloc: Global,
    pending: &mut Vec<u8>,
    taken: &mut u64,
    end: usize,
    after: usize,
    number: u64,
) -> Result<Text, LineFault>
    requires taken { taken.old ≤ MAX_SCRIPT }
    requires end { end ≤ after }
    requires after { after ≤ vec_len pending.old }
    ensures text { IfOk result (λ text. text ≡ take end pending.old.items) }
    ensures after { OnOk result (pending.new.items ≡ drop after pending.old.items) }
    ensures short { OnOk result (end ≤ MAX_LINE) }
    ensures counted { OnOk result (taken.new ≡ taken.old + after) }
    ensures within { taken.new ≤ MAX_SCRIPT }
    ensures err { OnErr result (pending.new.items ≡ pending.old.items) }
    ensures uncounted { OnErr result (taken.new ≡ taken.old) }
    ensures long { (n : ℕ) → IsErrOf result (LineFault.TooLong n) → (n ≡ number) × ((MAX_LINE < end) ⊎ (MAX_SCRIPT < taken.old + after)) }
    ensures read { result ≢ Err LineFault.ReadFault }
{
    if end > MAX_LINE {
        return Err(LineFault::TooLong(number));
    }
    if after as u64 > MAX_SCRIPT - *taken {
        return Err(LineFault::TooLong(number));
    }
    match Text::from_slice(alloc, &pending[..end]) {
        Ok(text) => {
            drop_front(pending, after);
            *taken += after as u64;
            Ok(text)
        }
        Err(_) => Err(LineFault::Memory),
    }
}

/// Takes the line at the front of the pending bytes; at the end of the source the last line.
fn next_line<S: Source>(
    alloc: Global,
    pending: &mut Vec<u8>,
    taken: &mut u64,
    ended: &mut bool,
    number: u64,
    source: &mut S,
) -> Result<Line, LineFault>
    requires open { IsFalse ended.old }
    requires taken { taken.old ≤ MAX_SCRIPT }
    ensures took { IfOk result (λ line. Took (prepend_known pending.old.items (S.left source.old)) line (prepend_known pending.new.items (S.left source.new))
        ended.new taken.old taken.new) }
    ensures err { OnErr result (prepend_known pending.new.items (S.left source.new) ≡ prepend_known pending.old.items (S.left source.old)) }
    ensures uncounted { OnErr result (taken.new ≡ taken.old) }
    ensures within { taken.new ≤ MAX_SCRIPT }
    ensures read { IsErrOf result LineFault.ReadFault → Rose (S.faults source.old) (S.faults source.new) × NoFeed pending.new.items }
    ensures long { (n : ℕ) → IsErrOf result (LineFault.TooLong n) → (n ≡ number) × IsTooLong taken.old (prepend_known pending.old.items (S.left source.old)) }
    ensures later { S.faults source.old ≤ S.faults source.new }
    ensures quiet { NoFeed pending.old.items ⊎ (source.new ≡ source.old) }
    ensures ahead { length pending.new.items ≤ max (length pending.old.items) MAX_PENDING }
    ensures calm { result ≢ Err LineFault.ReadFault → S.faults source.new ≡ S.faults source.old }
{
    match fill(pending, *taken, source)? {
        Found::Feed(at) => {
            let end = without_return_len(&pending[..at]);
            match take_text(alloc, pending, taken, end, at + 1, number) {
                Ok(text) => Ok(Line::Text(text)),
                Err(fault) => Err(fault),
            }
        }
        Found::Last if pending.is_empty() => {
            *ended = true;
            Ok(Line::End)
        }
        Found::Last => {
            *ended = true;
            let end = pending.len();
            match take_text(alloc, pending, taken, end, end, number) {
                Ok(text) => Ok(Line::Text(text)),
                Err(fault) => Err(fault),
            }
        }
        Found::Long => Err(LineFault::TooLong(number)),
    }
}

/// The text of the line of `after` bytes at the front, which ends at `end`; None where it is too long.
fn text_at(
    alloc: Global,
    pending: &[u8],
    taken: u64,
    end: usize,
    after: usize,
) -> Result<Option<Text>, LineFault>
    requires taken { taken ≤ MAX_SCRIPT }
    requires end { end ≤ length pending.now }
    ensures text { IfOk result (λ peeked. IfSome peeked (λ text. text ≡ take end pending.now)) }
    ensures short { IfOk result (λ peeked. IfSome peeked (λ text. end ≤ MAX_LINE)) }
    ensures within { IfOk result (λ peeked. IfSome peeked (λ text. taken + after ≤ MAX_SCRIPT)) }
    ensures long { IfOk result (λ peeked. IfNone peeked ((MAX_LINE < end) ⊎ (MAX_SCRIPT < taken + after))) }
    ensures err { IfErr result (λ fault. fault ≡ LineFault.Memory) }
{
    if end > MAX_LINE || after as u64 > MAX_SCRIPT - taken {
        return Ok(None);
    }
    match Text::from_slice(alloc, &pending[..end]) {
        Ok(text) => Ok(Some(text)),
        Err(_) => Err(LineFault::Memory),
    }
}

/// The text of the line at the front, which stays pending; None where there is none, or where it is too long.
fn peek_line<S: Source>(
    alloc: Global,
    pending: &mut Vec<u8>,
    taken: u64,
    source: &mut S,
) -> Result<Option<Text>, LineFault>
    requires taken { taken ≤ MAX_SCRIPT }
    ensures text { IfOk result (λ peeked. IfSome peeked (λ text. IsNext (prepend_known pending.new.items (S.left source.new)) taken text)) }
    ensures none { IfOk result (λ peeked. IfNone peeked (HasNoText taken (prepend_known pending.new.items (S.left source.new)))) }
    ensures rest { prepend_known pending.new.items (S.left source.new) ≡ prepend_known pending.old.items (S.left source.old) }
    ensures read { IsErrOf result LineFault.ReadFault → Rose (S.faults source.old) (S.faults source.new) × NoFeed pending.new.items }
    ensures later { S.faults source.old ≤ S.faults source.new }
    ensures err { (n : ℕ) → result ≢ Err (LineFault.TooLong n) }
    ensures quiet { NoFeed pending.old.items ⊎ (source.new ≡ source.old) }
    ensures ahead { length pending.new.items ≤ max (length pending.old.items) MAX_PENDING }
    ensures calm { result ≢ Err LineFault.ReadFault → S.faults source.new ≡ S.faults source.old }
{
    match fill(pending, taken, source)? {
        Found::Feed(at) => {
            let end = without_return_len(&pending[..at]);
            match text_at(alloc, pending, taken, end, at + 1) {
                Ok(Some(text)) => Ok(Some(text)),
                Ok(None) => Ok(None),
                Err(fault) => Err(fault),
            }
        }
        Found::Last if pending.is_empty() => Ok(None),
        Found::Last => {
            let end = pending.len();
            text_at(alloc, pending, taken, end, end)
        }
        Found::Long => Ok(None),
    }
}

impl LineReader {
    /// A reader that has read nothing, with line number 0.
    pub fn new(alloc: Global) -> Result<LineReader, Memory>
        ensures pending { IfOk result (λ reader. pending_of reader ≡ []) }
        ensures fault { IfOk result (λ reader. fault_of reader ≡ None) }
        ensures ended { IfOk result (λ reader. IsFalse (ended_of reader)) }
        ensures lines { IfOk result (λ reader. lines_of reader ≡ 0) }
        ensures taken { IfOk result (λ reader. taken_of reader ≡ 0) }
    {
        Ok(LineReader {
            alloc,
            pending: Vec::with_capacity(alloc, 2 * CHUNK + 2)?,
            lines: 0,
            taken: 0,
            ended: false,
            fault: None,
        })
    }

    /// The number of lines taken.
    pub fn lines(&self) -> u64
        ensures { result ≡ lines_of self.now }
    {
        self.lines
    }

    /// Takes the next line. After the end it answers the end again, and after a fault that fault, and reads nothing.
    /// It asks the source only while no line feed is pending. So it keeps at most 4,097 bytes and one piece of 4,096. It passes over no read that
    /// failed.
    pub fn next<S: Source>(&mut self, source: &mut S) -> Result<Line, LineFault>
        ensures took { IsFalse (ended_of self.old)
            → IfOk result (λ line. Took (rest_of self.old (S.left source.old)) line (rest_of self.new (S.left source.new)) (ended_of self.new)
            (taken_of self.old) (taken_of self.new)) }
        ensures ended { IsTrue (ended_of self.old) → fault_of self.old ≡ None
            → (result ≡ Ok Line.End) × IsTrue (ended_of self.new) × (self.new ≡ self.old) × (source.new ≡ source.old) }
        ensures number { IfOk result (λ line. Counted (lines_of self.old) line (lines_of self.new)) }
        ensures err { OnErr result (rest_of self.new (S.left source.new) ≡ rest_of self.old (S.left source.old)) }
        ensures uncounted { OnErr result ((lines_of self.new ≡ lines_of self.old) × (taken_of self.new ≡ taken_of self.old)) }
        ensures read { IsErrOf result LineFault.ReadFault → fault_of self.old ≡ None
            → IsFalse (ended_of self.old) × Rose (S.faults source.old) (S.faults source.new) × NoFeed (pending_of self.new) }
        ensures long { (n : ℕ) → IsErrOf result (LineFault.TooLong n) → fault_of self.old ≡ None
            → (n ≡ lines_of self.old + 1) × IsFalse (ended_of self.old) × IsTooLong (taken_of self.old) (rest_of self.old (S.left source.old)) }
        ensures later { S.faults source.old ≤ S.faults source.new }
        ensures within { taken_of self.new ≤ MAX_SCRIPT }
        ensures ok { OnOk result (fault_of self.new ≡ None) }
        ensures kept { IfErr result (λ fault. fault_of self.new ≡ Some fault) }
        ensures again { IfSome (fault_of self.old) (λ fault. result ≡ Err fault) }
        ensures unread { IsSome (fault_of self.old) → source.new ≡ source.old }
        ensures quiet { NoFeed (pending_of self.old) ⊎ (source.new ≡ source.old) }
        ensures ahead { length (pending_of self.new) ≤ max (length (pending_of self.old)) MAX_PENDING }
        ensures calm { result ≢ Err LineFault.ReadFault → S.faults source.new ≡ S.faults source.old }
    {
        if let Some(fault) = self.fault {
            return Err(fault);
        }
        if self.ended {
            return Ok(Line::End);
        }
        let number = self.lines + 1;
        match next_line(
            self.alloc,
            &mut self.pending,
            &mut self.taken,
            &mut self.ended,
            number,
            source,
        ) {
            Ok(Line::Text(text)) => {
                self.lines = number;
                Ok(Line::Text(text))
            }
            Ok(Line::End) => Ok(Line::End),
            Err(fault) => {
                self.fault = Some(fault);
                Err(fault)
            }
        }
    }

    /// The text of the next line, which isn't taken; None at the end, and where the line is too long.
    /// After a fault it answers that fault again, and reads nothing. It asks the source as `next` does.
    pub fn peek<S: Source>(&mut self, source: &mut S) -> Result<Option<Text>, LineFault>
        ensures text { IfOk result (λ peeked. IfSome peeked
            (λ text. (ended_of self.old ≡ false) × IsNext (rest_of self.new (S.left source.new)) (taken_of self.new) text)) }
        ensures none { IfOk result (λ peeked. IfNone peeked ((ended_of self.old ≡ true)
            ⊎ HasNoText (taken_of self.new) (rest_of self.new (S.left source.new)))) }
        ensures rest { rest_of self.new (S.left source.new) ≡ rest_of self.old (S.left source.old) }
        ensures lines { lines_of self.new ≡ lines_of self.old }
        ensures taken { taken_of self.new ≡ taken_of self.old }
        ensures ended { ended_of self.new ≡ ended_of self.old }
        ensures read { IsErrOf result LineFault.ReadFault → fault_of self.old ≡ None
            → (ended_of self.old ≡ false) × Rose (S.faults source.old) (S.faults source.new) × NoFeed (pending_of self.new) }
        ensures short { fault_of self.old ≡ None → (n : ℕ) → result ≢ Err (LineFault.TooLong n) }
        ensures later { S.faults source.old ≤ S.faults source.new }
        ensures ok { OnOk result (fault_of self.new ≡ None) }
        ensures kept { IfErr result (λ fault. fault_of self.new ≡ Some fault) }
        ensures again { IfSome (fault_of self.old) (λ fault. result ≡ Err fault) }
        ensures unread { IsSome (fault_of self.old) → source.new ≡ source.old }
        ensures quiet { NoFeed (pending_of self.old) ⊎ (source.new ≡ source.old) }
        ensures ahead { length (pending_of self.new) ≤ max (length (pending_of self.old)) MAX_PENDING }
        ensures calm { result ≢ Err LineFault.ReadFault → S.faults source.new ≡ S.faults source.old }
    {
        if let Some(fault) = self.fault {
            return Err(fault);
        }
        if !self.ended {
            match peek_line(self.alloc, &mut self.pending, self.taken, source) {
                Ok(peeked) => Ok(peeked),
                Err(error) => {
                    self.fault = Some(error);
                    Err(error)
                }
            }
        } else {
            Ok(None)
        }
    }
}
