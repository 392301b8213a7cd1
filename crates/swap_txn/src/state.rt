// The states of a swap with work left, as types without values: each is named by what comes next in it.
ghost use Rattle.std.specs.Prelude.{◌≡◌, Bool, true, false};
ghost use Rattle.swap_txn.specs.declared.stage.Stage.{Stage as AnyStage};
ghost use Rattle.swap_txn.specs.declared.stage.Stage.TheVariants as stages;

/// A state of a swap with work left.
pub trait State {
    /// Whether it suits a swap by the record that ends it, which is Commit where `true`, and the list in which the next command stands.
    ghost Suits: { Bool → AnyStage → Type 0 };
}

/// The first command, wherever it stands.
#[derive(Clone, Copy)]
pub struct First;

impl State for First {
    ghost Suits = { λ commit stage. commit ≡ true };
}

/// The commands that leave rows and wipe nodes.
#[derive(Clone, Copy)]
pub struct Clear;

impl State for Clear {
    ghost Suits = { λ commit stage. (commit ≡ true) × (stage ≡ stages.Clear) };
}

/// The commands that join rows.
#[derive(Clone, Copy)]
pub struct Cable;

impl State for Cable {
    ghost Suits = { λ commit stage. (commit ≡ true) × (stage ≡ stages.Cable) };
}

/// The commands that load nodes and set pipes.
#[derive(Clone, Copy)]
pub struct Load;

impl State for Load {
    ghost Suits = { λ commit stage. (commit ≡ true) × (stage ≡ stages.Load) };
}

/// The boots and polls of nodes.
#[derive(Clone, Copy)]
pub struct Boot;

impl State for Boot {
    ghost Suits = { λ commit stage. (commit ≡ true) × (stage ≡ stages.Boot) };
}

/// The record Commit.
#[derive(Clone, Copy)]
pub struct Commit;

impl State for Commit {
    ghost Suits = { λ commit stage. (commit ≡ true) × (stage ≡ stages.Done) };
}

/// The commands of the undo.
#[derive(Clone, Copy)]
pub struct Undo;

impl State for Undo {
    ghost Suits = { λ commit stage. commit ≡ false };
}

/// The record Abort.
#[derive(Clone, Copy)]
pub struct Abort;

impl State for Abort {
    ghost Suits = { λ commit stage. (commit ≡ false) × (stage ≡ stages.Done) };
}
