// The table of pipes, by their nodes' names and their numbers.
ghost use Rattle.std.specs.Prelude.{◌≡◌, ◌<◌, ◌≤◌, ◌+◌, ◌&&◌, ◌==◌, nat_lt, List, ℕ, None, length, option_map, vec_len, vec_capacity, if◌then◌else◌};
ghost use Rattle.std.specs.List.{find};
ghost use Rattle.std.specs.List.Sorted.{IsBinarySearchResult, IsSearchInRange};
ghost use Rattle.std.specs.Str.{bytes_eq};
ghost use Rattle.plant.specs.Readings.{pipe_of};
ghost use Rattle.plant_mem.specs.Pipes.{pipe_after, pipe_cmp, pipe_in, EndsAt, PipesRise};

use lab_base::{Name, Rates};
use plant::{DeviceOp, MAX_PIPES, PipeRow};

/// A pipe of a node, where it is set.
#[derive(Clone, Copy)]
pub struct PipeState {
    pub node: Name,
    pub number: u16,
    pub row: Option<PipeRow>,
}

/// The place of a pipe's entry, or the place where it would stand.
fn place_of(pipes: &[PipeState], node: &Name, number: u16) -> Result<usize, usize>
    ensures bound { IsSearchInRange result (length pipes.now) }
    ensures place { IsBinarySearchResult (λ entry. pipe_cmp (entry.node, entry.number) (node.now, number)) pipes.now result }
{
    pipes.binary_search_by_key(&(*node, number), |entry| (entry.node, entry.number))
}

/// The pipe of a node with that number, where it is set.
pub(crate) fn pipe_in(pipes: &[PipeState], node: &Name, number: u16) -> Option<PipeRow>
    requires { PipesRise pipes.now }
    ensures { result ≡ pipe_in node.now number pipes.now }
{
    match place_of(pipes, node, number) {
        Ok(at) => pipes[at].row,
        Err(_) => None,
    }
}

/// Puts an entry in the place of its pipe's, or among the others.
fn put(pipes: &mut Vec<PipeState>, entry: PipeState)
    requires room { vec_len pipes.old < vec_capacity pipes.old }
    requires rise { PipesRise pipes.old.items }
    ensures rise { PipesRise pipes.new.items }
    ensures found { (name : List ℕ) (k : ℕ) → pipe_in name k pipes.new.items
        ≡ (if bytes_eq entry.node name && (entry.number == k) then entry.row else pipe_in name k pipes.old.items) }
    ensures len { vec_len pipes.new ≤ vec_len pipes.old + 1 }
    ensures capacity { vec_capacity pipes.new ≡ vec_capacity pipes.old }
{
    match place_of(pipes, &entry.node, entry.number) {
        Ok(at) => pipes[at] = entry,
        Err(at) => pipes.insert(at, entry).unwrap(),
    }
}

/// Takes a pipe away, where it is set.
fn clear(pipes: &mut Vec<PipeState>, node: &Name, number: u16)
    requires rise { PipesRise pipes.old.items }
    ensures rise { PipesRise pipes.new.items }
    ensures found { (name : List ℕ) (k : ℕ) → pipe_in name k pipes.new.items
        ≡ (if bytes_eq node.now name && (number == k) then None else pipe_in name k pipes.old.items) }
    ensures len { vec_len pipes.new ≡ vec_len pipes.old }
    ensures capacity { vec_capacity pipes.new ≡ vec_capacity pipes.old }
{
    match place_of(pipes, node, number) {
        Ok(at) => {
            pipes[at] = PipeState {
                node: *node,
                number,
                row: None,
            };
        }
        Err(_) => {}
    }
}

/// Takes the pipes of a node with numbers below `end` away.
fn clear_below(pipes: &mut Vec<PipeState>, node: &Name, end: u32)
    requires small { end ≤ MAX_PIPES }
    requires rise { PipesRise pipes.old.items }
    ensures rise { PipesRise pipes.new.items }
    ensures found { (name : List ℕ) (k : ℕ) → pipe_in name k pipes.new.items
        ≡ (if bytes_eq node.now name && nat_lt k end then None else pipe_in name k pipes.old.items) }
    ensures len { vec_len pipes.new ≡ vec_len pipes.old }
    ensures capacity { vec_capacity pipes.new ≡ vec_capacity pipes.old }
{
    for number in 0..end {
        clear(pipes, node, number as u16);
    }
}

/// Applies a command to the pipes, of which none has a number of `end` or more, and gives that number for the pipes after it.
pub(crate) fn apply(pipes: &mut Vec<PipeState>, end: u32, op: &DeviceOp) -> u32
    requires room { vec_len pipes.old < vec_capacity pipes.old }
    requires rise { PipesRise pipes.old.items }
    requires small { end ≤ MAX_PIPES }
    requires ends { EndsAt end pipes.old.items }
    ensures rise { PipesRise pipes.new.items }
    ensures found { (name : List ℕ) (k : ℕ) → option_map pipe_of (pipe_in name k pipes.new.items)
        ≡ pipe_after op.now name k (option_map pipe_of (pipe_in name k pipes.old.items)) }
    ensures ends { EndsAt result pipes.new.items }
    ensures small { result ≤ MAX_PIPES }
    ensures len { vec_len pipes.new ≤ vec_len pipes.old + 1 }
    ensures capacity { vec_capacity pipes.new ≡ vec_capacity pipes.old }
{
    match op {
        DeviceOp::Shape {
            node,
            pipe,
            from,
            to,
            there,
            back,
        } => {
            put(
                pipes,
                PipeState {
                    node: *node,
                    number: *pipe,
                    row: Some(PipeRow {
                        pipe: *pipe,
                        from: *from,
                        to: *to,
                        there: *there,
                        back: *back,
                    }),
                },
            );
            std::cmp::max(end, *pipe as u32 + 1)
        }
        DeviceOp::Wipe { node } => {
            clear_below(pipes, node, end);
            end
        }
        DeviceOp::Load { .. }
        | DeviceOp::Boot { .. }
        | DeviceOp::Poll { .. }
        | DeviceOp::Join { .. }
        | DeviceOp::Leave { .. } => end,
    }
}
