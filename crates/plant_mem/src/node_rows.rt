ghost use Rattle.std.specs.Prelude.{◌≡◌, ◌≤◌, ℕ, List, None, is_some, option_map, Some};
ghost use Rattle.lab_base.specs.declared.boot.Boot.{Boot};
ghost use Rattle.plant_mem.specs.Knows.{pipes_below, pipe_count};
ghost use Rattle.plant_mem.specs.MemLab.{told_of, state_of};
ghost use Rattle.plant.specs.Worlds.{world_of};
ghost use Rattle.plant.specs.Readings.{pipe_of};

use crate::mem::MemLab;
use crate::nodes::{os_in, state_in};
use crate::pipes::pipe_in;
use lab_base::Name;
use plant::{MAX_PIPES, NodeRow, PipeRow};

impl MemLab {
    fn os_of(&self, node: &Name) -> Option<Name>
        ensures { result ≡ ((world_of (told_of self.now).trace).node node.now).os }
    {
        os_in(&self.past.nodes.nodes, node)
    }

    pub(crate) fn pipe_at(&self, node: &Name, pipe: u16) -> Option<PipeRow>
        ensures { option_map pipe_of result ≡ ((world_of (told_of self.now).trace).node node.now).pipes pipe }
    {
        pipe_in(&self.past.nodes.pipes, node, pipe)
    }

    fn has_pipe(&self, node: &Name, pipe: u16) -> bool
        ensures { result ≡ is_some (((world_of (told_of self.now).trace).node node.now).pipes pipe) }
    {
        self.pipe_at(node, pipe).is_some()
    }

    fn pipes_below(&self, node: &Name, end: u32) -> u32
        requires { end ≤ MAX_PIPES }
        ensures { result ≡ pipes_below end ((world_of (told_of self.now).trace).node node.now).pipes }
    {
        let mut count = 0;
        for pipe in 0..end {
            if self.has_pipe(node, pipe as u16) {
                count += 1;
            }
        }
        count
    }

    /// The number from which on no node has a pipe.
    pub(crate) fn pipes_end(&self) -> u32
        ensures free { (node : List ℕ) (k : ℕ) → result ≤ k → ((world_of (told_of self.now).trace).node node).pipes k ≡ None }
        ensures bound { result ≤ MAX_PIPES }
    {
        self.past.nodes.end
    }

    fn pipe_count(&self, node: &Name) -> u32
        ensures { result ≡ pipe_count ((world_of (told_of self.now).trace).node node.now).pipes }
    {
        self.pipes_below(node, self.pipes_end())
    }

    /// The state of a node: its OS, its boot state and its pipes.
    pub fn node_row(&self, node: Name) -> NodeRow
        ensures os { result.os ≡ ((world_of (told_of self.now).trace).node node).os }
        ensures pipes { result.pipes ≡ pipe_count ((world_of (told_of self.now).trace).node node).pipes }
        ensures state { result.state ≡ state_of self.now node }
        ensures known { (state : Boot) → ((world_of (told_of self.now).trace).node node).boot ≡ Some state → result.state ≡ state }
    {
        NodeRow {
            os: self.os_of(&node),
            state: state_in(&self.past.nodes.nodes, &node),
            pipes: self.pipe_count(&node),
        }
    }
}
