//! Judging commands.

ghost use Rattle.std.specs.Prelude.{◌≤◌, length};
ghost use Rattle.ns_build.specs.Gives.{Gives};
ghost use Rattle.ns_build.specs.Tasks.{judged, judged_keyword};

use crate::keywords::{Keyword, keyword_of};
use crate::network::Network;
use crate::objects::judge_source;
use crate::refusal::Refusal;
use crate::task::Task;
use crate::words::SIMULATOR;
use lab_base::{Kind, Text};
use std::alloc::Global;
use virt_topo::MAX_CLASSES;

impl Network {
    /// Judges a command with this first word: the task that it asks for.
    #[tactic(auto, unfolding(crate::specs::Tasks::judged_keyword))]
    fn judge_keyword(
        &self,
        alloc: Global,
        keyword: Option<Keyword>,
        words: &[Text],
    ) -> Result<Task, Refusal>
        requires { length self.now.classes ≤ MAX_CLASSES }
        ensures { Gives result (judged_keyword self.now keyword words.now) }
    {
        match keyword {
            Some(Keyword::New) => Ok(self.judge_new(words)?),
            Some(Keyword::Source) => Ok(judge_source(words)?),
            Some(Keyword::NodeOs) => Ok(self.judge_os(words)?),
            Some(Keyword::Hardware) => Ok(self.judge_hardware(words)?),
            Some(Keyword::FixNode) => Ok(self.judge_fixed(words)?),
            Some(Keyword::NodeIp) => Ok(self.judge_ip(words)?),
            Some(Keyword::LinkIp) => Ok(self.judge_end_ip(false, words)?),
            Some(Keyword::LanIp) => Ok(self.judge_end_ip(true, words)?),
            Some(Keyword::LinkLoss) => Ok(self.judge_loss(false, words)?),
            Some(Keyword::LanLoss) => Ok(self.judge_loss(true, words)?),
            Some(Keyword::Multiplexed) => Ok(self.judge_multiplexed(words)?),
            Some(Keyword::SoftVtype) => self.judge_class(alloc, words),
            Some(Keyword::OtherSetting) => Err(Refusal::Kind(Kind::Unsupported)),
            None => Ok(Task::NotMine),
        }
    }

    /// Judges a command on a line: the task that it asks for.
    #[tactic(auto, unfolding(crate::specs::Tasks::judged))]
    pub(crate) fn judge(&self, alloc: Global, line: u32, words: &[Text]) -> Result<Task, Refusal>
        requires { length self.now.classes ≤ MAX_CLASSES }
        ensures { Gives result (judged line self.now words.now) }
    {
        match words {
            [word, ..] => {
                if self.simulator && word.bytes() == SIMULATOR {
                    self.judge_simulator(alloc, line, words)
                } else {
                    self.judge_keyword(alloc, keyword_of(word.bytes()), words)
                }
            }
            [] => Ok(Task::NotMine),
        }
    }
}
