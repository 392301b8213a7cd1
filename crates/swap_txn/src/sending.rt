// A course on its way: its position, and one step of it.
use crate::position::{after, from_clear, from_node, listed, node_at};
use crate::stage::Stage;
use crate::watched::Watched;
use lab_base::{Boot, What};
use node_state::Watch;
use plant::{Answer, DeviceOp};
use std::marker::Model;
use swap_plan::Commands;

/// A course on its way. Contracts see all its commands, and those that are left.
#[derive(Drop)]
pub(crate) struct Sending {
    commands: Commands,
    stage: Stage,
    /// The number of items of the stage's list that were sent.
    at: usize,
    watched: Option<Watched>,
}

impl Model for Sending {
    ghost use Rattle.swap_txn.specs.States.{Progress};
    ghost use Rattle.swap_txn.specs.Views.{left_of, IsAt};

    ghost Value = { Progress };

    ghost view = { λ s. record { plan = s.commands; left = left_of s.commands s.stage s.at s.watched } };

    ghost invariant = { λ s. IsAt s.commands s.stage s.at s.watched };
}

impl Sending {
    ghost use Rattle.std.specs.Prelude.{◌≡◌, ◌<◌, length, drop, None, Some, Ok, IsSome, OnErr};
    ghost use Rattle.lab_model.specs.Courses.{next, whole};
    ghost use Rattle.plant.specs.Calls.{Fits};
    ghost use Rattle.plant.specs.declared.device.Answer.{Answer as AnyAnswer};
    ghost use Rattle.plant.specs.declared.device.Answer.TheVariants.{State};
    ghost use Rattle.plant.specs.declared.device.DeviceOp.{DeviceOp as AnyOp};
    ghost use Rattle.swap_txn.specs.declared.stage.Stage.TheVariants.{Done, Boot as Booting};
    ghost use Rattle.swap_txn.specs.States.{stage_of};
    ghost use Rattle.swap_txn.specs.Troubles.{GoesBy};

    /// The course of these commands, before the first one.
    pub(crate) fn new(commands: Commands) -> Sending
        ensures plan { result.plan ≡ commands }
        ensures left { result.left ≡ whole commands }
    {
        let stage = from_clear(&commands);
        Sending {
            commands,
            stage,
            at: 0,
            watched: None,
        }
    }

    /// The list in which the next command stands.
    pub(crate) fn stage(&self) -> Stage
        ensures { result ≡ stage_of self.now.plan self.now.left }
    {
        self.stage
    }

    /// The command that comes next.
    pub(crate) fn next(&self) -> DeviceOp
        requires { stage_of self.now.plan self.now.left ≡ Done → ⊥ }
        ensures { next self.now.left.todo self.now.left.watch self.now.left.boot ≡ Some result }
    {
        if self.stage != Stage::Boot {
            return listed(&self.commands, self.stage, self.at);
        }
        match &self.watched {
            Some(watched) => DeviceOp::Poll { node: watched.node },
            None => {
                let (node, _) = node_at(&self.commands, self.at);
                DeviceOp::Boot { node }
            }
        }
    }

    /// Goes on by the answer to that command. `Err` is the trouble that a watched node's state tells: then all is left but for the watch.
    pub(crate) fn go_on(&mut self, answer: Answer) -> Result<(), What>
        requires is_left { stage_of self.old.plan self.old.left ≡ Done → ⊥ }
        requires fits { (op : AnyOp) → next self.old.left.todo self.old.left.watch self.old.left.boot ≡ Some op → Fits op answer }
        ensures plan { self.new.plan ≡ self.old.plan }
        ensures stays { OnErr result (stage_of self.new.plan self.new.left ≡ stage_of self.old.plan self.old.left) }
        ensures goes { GoesBy self.old.left answer result self.new.left }
    {
        if self.stage != Stage::Boot {
            self.pass_listed();
            return Ok(());
        }
        match answer {
            Answer::State(state) => self.see(state),
            Answer::Done => {
                self.watch_next();
                Ok(())
            }
        }
    }

    /// Passes the listed command that comes next.
    fn pass_listed(&mut self)
        requires { 0 < length self.old.left.todo }
        ensures plan { self.new.plan ≡ self.old.plan }
        ensures left { self.new.left ≡ record self.old.left { todo = drop 1 self.old.left.todo } }
    {
        let (stage, at) = after(&self.commands, self.stage, self.at);
        self.stage = stage;
        self.at = at;
    }

    /// Watches the next node from its boot on.
    fn watch_next(&mut self)
        requires boots { stage_of self.old.plan self.old.left ≡ Booting }
        requires unwatched { self.old.left.watch ≡ None }
        ensures plan { self.new.plan ≡ self.old.plan }
        ensures goes { (answer : AnyAnswer) → GoesBy self.old.left answer (Ok tt) self.new.left }
    {
        let (node, at) = node_at(&self.commands, self.at);
        self.at = at;
        self.watched = Some(Watched {
            node,
            watch: Watch::new(),
        });
    }

    /// Sees the state of the watched node.
    fn see(&mut self, state: Boot) -> Result<(), What>
        requires boots { stage_of self.old.plan self.old.left ≡ Booting }
        requires watched { IsSome self.old.left.watch }
        ensures plan { self.new.plan ≡ self.old.plan }
        ensures stays { OnErr result (stage_of self.new.plan self.new.left ≡ stage_of self.old.plan self.old.left) }
        ensures goes { GoesBy self.old.left (State state) result self.new.left }
    {
        let Some(mut watched) = self.watched.take() else {
            unreachable!()
        };
        match watched.see(state) {
            Ok(true) => {
                self.stage = from_node(&self.commands, self.at);
                Ok(())
            }
            Ok(false) => {
                self.watched = Some(watched);
                Ok(())
            }
            Err(what) => {
                self.watched = Some(watched);
                Err(what)
            }
        }
    }
}
