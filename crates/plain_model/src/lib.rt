//! Plain, slow programs of the definitions, for tests.
#![tactic(auto)]

ghost use Rattle.std.specs.Prelude.{◌≡◌, ℕ, List, true, fold, Some, None};
ghost use Rattle.lab_base.specs.declared.boot.Boot.TheVariants.{Off};
ghost use Rattle.phys_lab.specs.Labs.{Lab};
ghost use Rattle.virt_topo.specs.declared.experiment.Experiment.{Experiment};
ghost use Rattle.plant.specs.Events.{Event};
ghost use Rattle.plant.specs.Worlds.{Row as RowSeen, World, world_of};
ghost use Rattle.lab_model.specs.Isolated.{Isolated};
ghost use Rattle.plain_model.specs.Isolation.{PipeEnds as PipeSeen, IsSeen, is_isolated, wanted_in};
ghost use Rattle.plain_model.specs.Rows.{commands_of, world_sent, node_sent, has_row, os_then, boot_then, pipe_then};
ghost use Rattle.plain_model.specs.declared.world.Sent.{Sent};

mod cabled;
mod claims;
mod holding;
mod isolated;
mod isolation;
mod nodes;
mod owned;
mod owner;
mod pipe_ends;
mod seen;
mod suits;
mod uses;
mod wanted;
mod wants;
mod world;

pub use cabled::is_cabled;
pub use holding::is_holding;
pub use isolated::is_isolated_after;
pub use isolation::{is_isolated, is_next};
pub use owned::Owned;
pub use owner::Owner;
pub use pipe_ends::PipeEnds;
pub use seen::{pipes_after, rows_after};
pub use suits::all_fit;
pub use wanted::Wanted;
pub use wants::wanted_rows;
pub use world::{Sent, boot_of, has_row, os_of, pipe_of};

/// The test of isolation is true exactly where a world with these rows and pipes is isolated.
pub fn isolation_tested()
    ensures sound { (lab : Lab) (es : List Experiment) (w : World) (rows : List RowSeen) (pipes : List PipeSeen) → IsSeen w rows pipes
        → is_isolated lab (wanted_in lab es) rows pipes ≡ true → Isolated lab es w }
    ensures complete { (lab : Lab) (es : List Experiment) (w : World) (rows : List RowSeen) (pipes : List PipeSeen) → IsSeen w rows pipes
        → Isolated lab es w → is_isolated lab (wanted_in lab es) rows pipes ≡ true }
{}

/// The world of a trace is the one that its commands leave: its rows, and for each node its OS, boot state and pipes.
pub fn worlds_told()
    ensures world { (trace : List Event) → world_of trace ≡ world_sent (commands_of trace) }
    ensures rows { (row : RowSeen) (commands : List Sent) → (world_sent commands).rows row ≡ has_row commands row }
    ensures os { (name : List ℕ) (commands : List Sent) → (node_sent commands name).os ≡ fold (os_then name) None commands }
    ensures boot { (name : List ℕ) (commands : List Sent) → (node_sent commands name).boot ≡ fold (boot_then name) (Some Off) commands }
    ensures pipes { (name : List ℕ) (k : ℕ) (commands : List Sent) → (node_sent commands name).pipes k ≡ fold (pipe_then name k) None commands }
{}
