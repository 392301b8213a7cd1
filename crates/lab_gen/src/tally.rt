ghost use Rattle.std.specs.Prelude.{◌≡◌, ◌+◌, ◌++◌, ◌∷◌, [], List, IfOk, OnErr, OnOk, if◌then◌else◌, position};
ghost use Rattle.std.specs.Str.{bytes_eq};
ghost use Rattle.script_text.specs.declared.reply.Reply.{Reply as AnyReply};
ghost use Rattle.lab_gen.specs.Summary.{count_line, ends_word, first_word, is_created, is_in, is_lab, is_other, is_out, nodes_in, summary, HasWords, IsTally};

use lab_base::{Memory, Text};
use script_text::Reply;
use std::alloc::Global;

/// Counts of replies, by their first words.
#[derive(Clone, Copy)]
pub struct Tally {
    commands: u64,
    nodes: u64,
    lab: u64,
    created: u64,
    inside: u64,
    outside: u64,
    other: u64,
}

/// The count with more added; `Memory` where 64 bits don't hold it.
fn plus(count: u64, more: u64) -> Result<u64, Memory>
    ensures { IfOk result (λ sum. sum ≡ count + more) }
{
    match count.checked_add(more) {
        Some(sum) => Ok(sum),
        None => Err(Memory),
    }
}

/// The count with one added where `counts`.
fn plus_if(count: u64, counts: bool) -> Result<u64, Memory>
    ensures { IfOk result (λ sum. sum ≡ count + (if counts then 1 else 0)) }
{
    plus(count, u64::from(counts))
}

fn ends_word(byte: u8) -> bool
    ensures { result ≡ ends_word byte }
{
    byte == b' ' || byte == b'\n'
}

fn word_end(text: &[u8]) -> Option<usize>
    ensures { result ≡ position ends_word text.now }
{
    text.iter().position(|byte| ends_word(*byte))
}

/// The bytes before the first space or line feed of a text.
fn first_word(text: &[u8]) -> &[u8]
    ensures { result.now ≡ first_word text.now }
{
    match word_end(text) {
        Some(at) => &text[..at],
        None => text,
    }
}

fn has_first_word(text: &Text, word: &[u8]) -> bool
    ensures { result ≡ bytes_eq (first_word text.now) word.now }
{
    first_word(text.bytes()) == word
}

fn is_lab(reply: &Reply) -> bool
    ensures { result ≡ is_lab reply.now }
{
    match reply {
        Reply::Lab { .. } | Reply::LabIsSet => true,
        Reply::Served(served) => has_first_word(&served.lines, b"lab"),
        _ => false,
    }
}

fn is_created(reply: &Reply) -> bool
    ensures { result ≡ is_created reply.now }
{
    match reply {
        Reply::Created { .. } => true,
        Reply::Served(served) => has_first_word(&served.lines, b"created"),
        _ => false,
    }
}

fn is_in(reply: &Reply) -> bool
    ensures { result ≡ is_in reply.now }
{
    match reply {
        Reply::In { .. } => true,
        Reply::Served(served) => has_first_word(&served.lines, b"in"),
        _ => false,
    }
}

fn is_out(reply: &Reply) -> bool
    ensures { result ≡ is_out reply.now }
{
    match reply {
        Reply::Out { .. } => true,
        Reply::Served(served) => has_first_word(&served.lines, b"out"),
        _ => false,
    }
}

fn is_other(reply: &Reply) -> bool
    ensures { result ≡ is_other reply.now }
{
    !(is_lab(reply) || is_created(reply) || is_in(reply) || is_out(reply))
}

fn nodes_in(reply: &Reply) -> u64
    ensures { result ≡ nodes_in reply.now }
{
    match reply {
        Reply::Created { nodes, .. } => u64::from(*nodes),
        _ => 0,
    }
}

/// Adds a word, a number and the end of the line.
fn push_count(text: &mut Text, word: &[u8], count: u64) -> Result<(), Memory>
    ensures { OnOk result (text.new ≡ text.old ++ count_line word.now count) }
{
    text.push_bytes(word)?;
    text.push_number(count)?;
    text.push(b'\n')
}

impl Tally {
    /// The tally before the first reply.
    pub fn new() -> Tally
        ensures { IsTally result [] }
    {
        Tally {
            commands: 0,
            nodes: 0,
            lab: 0,
            created: 0,
            inside: 0,
            outside: 0,
            other: 0,
        }
    }

    /// Counts a reply.
    pub fn count(&mut self, reply: &Reply) -> Result<(), Memory>
        ensures ok { OnOk result ((replies : List AnyReply) → IsTally self.old replies → IsTally self.new (replies ++ reply.now ∷ [])) }
        ensures err { OnErr result (self.new ≡ self.old) }
    {
        let commands = plus(self.commands, 1)?;
        let nodes = plus(self.nodes, nodes_in(reply))?;
        let lab = plus_if(self.lab, is_lab(reply))?;
        let created = plus_if(self.created, is_created(reply))?;
        let inside = plus_if(self.inside, is_in(reply))?;
        let outside = plus_if(self.outside, is_out(reply))?;
        let other = plus_if(self.other, is_other(reply))?;
        *self = Tally {
            commands,
            nodes,
            lab,
            created,
            inside,
            outside,
            other,
        };
        Ok(())
    }

    /// The summary of a run of the script of that seed, with the replies that were counted.
    pub fn summary(&self, alloc: Global, seed: u64) -> Result<Text, Memory>
        ensures { IfOk result (λ text. (replies : List AnyReply) → IsTally self.now replies → text ≡ summary seed replies) }
    {
        let mut text = Text::new(alloc);
        push_count(&mut text, b"gen ", seed)?;
        push_count(&mut text, b"commands ", self.commands)?;
        push_count(&mut text, b"nodes ", self.nodes)?;
        push_count(&mut text, b"lab ", self.lab)?;
        push_count(&mut text, b"created ", self.created)?;
        push_count(&mut text, b"in ", self.inside)?;
        push_count(&mut text, b"out ", self.outside)?;
        push_count(&mut text, b"other ", self.other)?;
        Ok(text)
    }
}

/// The words of replies: each is counted by the first word of its text.
pub fn words_of_replies()
    ensures { (reply : AnyReply) → HasWords reply }
{}
