//! The commands that set a property of a node, link or LAN.

ghost use Rattle.std.specs.Prelude.{◌≡◌, ◌≤◌, length};
ghost use Rattle.ns_build.specs.Settings as settings;

use crate::checks::{address_in, counted, flag_in, loss_in, name_in, need, refuse, word_at};
use crate::network::Network;
use crate::task::{LinkChange, NodeChange, Task};
use lab_base::{Kind, Text};
use virt_topo::MAX_CLASSES;

impl Network {
    /// `tb-set-node-os NODE OS`
    #[tactic(auto, unfolding(crate::specs::Settings::judged_os))]
    pub(crate) fn judge_os(&self, words: &[Text]) -> Result<Task, Kind>
        ensures { result ≡ settings.judged_os self.now words.now }
    {
        counted(3, words)?;
        let node = need(Kind::Node, self.node_of(word_at(words, 1)))?;
        let os = name_in(word_at(words, 2))?;
        Ok(Task::ChangeNode {
            index: node,
            change: NodeChange::Os(os),
        })
    }

    /// `tb-set-hardware NODE TYPE`
    #[tactic(auto, unfolding(crate::specs::Settings::judged_hardware))]
    pub(crate) fn judge_hardware(&self, words: &[Text]) -> Result<Task, Kind>
        requires { length self.now.classes ≤ MAX_CLASSES }
        ensures { result ≡ settings.judged_hardware self.now words.now }
    {
        counted(3, words)?;
        let node = need(Kind::Node, self.node_of(word_at(words, 1)))?;
        let name = name_in(word_at(words, 2))?;
        Ok(Task::ChangeNode {
            index: node,
            change: NodeChange::Asks(self.asks_of(name)),
        })
    }

    /// `tb-fix-node NODE NAME`
    #[tactic(auto, unfolding(crate::specs::Settings::judged_fixed))]
    pub(crate) fn judge_fixed(&self, words: &[Text]) -> Result<Task, Kind>
        ensures { result ≡ settings.judged_fixed self.now words.now }
    {
        counted(3, words)?;
        let node = need(Kind::Node, self.node_of(word_at(words, 1)))?;
        let fixed = name_in(word_at(words, 2))?;
        Ok(Task::ChangeNode {
            index: node,
            change: NodeChange::Fixed(fixed),
        })
    }

    /// `tb-set-ip NODE IP`
    #[tactic(auto, unfolding(crate::specs::Settings::judged_ip))]
    pub(crate) fn judge_ip(&self, words: &[Text]) -> Result<Task, Kind>
        ensures { result ≡ settings.judged_ip self.now words.now }
    {
        counted(3, words)?;
        let node = need(Kind::Node, self.node_of(word_at(words, 1)))?;
        let link = need(Kind::Node, self.only_link(node))?;
        let address = address_in(word_at(words, 2))?;
        Ok(Task::ChangeLink {
            index: link,
            change: LinkChange::Address { node, address },
        })
    }

    /// `tb-set-ip-link NODE LINK IP`, and `tb-set-ip-lan NODE LAN IP`
    #[tactic(auto, unfolding(crate::specs::Settings::judged_end_ip))]
    pub(crate) fn judge_end_ip(&self, lan: bool, words: &[Text]) -> Result<Task, Kind>
        ensures { result ≡ settings.judged_end_ip lan self.now words.now }
    {
        counted(4, words)?;
        let node = need(Kind::Node, self.node_of(word_at(words, 1)))?;
        let link = need(Kind::Link, self.link_of_kind(lan, word_at(words, 2)))?;
        refuse(Kind::Node, !self.is_on_at(node, link))?;
        let address = address_in(word_at(words, 3))?;
        Ok(Task::ChangeLink {
            index: link,
            change: LinkChange::Address { node, address },
        })
    }

    /// `tb-set-link-loss LINK LOSS`, and `tb-set-lan-loss LAN LOSS`
    #[tactic(auto, unfolding(crate::specs::Settings::judged_loss))]
    pub(crate) fn judge_loss(&self, lan: bool, words: &[Text]) -> Result<Task, Kind>
        ensures { result ≡ settings.judged_loss lan self.now words.now }
    {
        counted(3, words)?;
        let link = need(Kind::Link, self.link_of_kind(lan, word_at(words, 1)))?;
        let ppm = loss_in(word_at(words, 2))?;
        Ok(Task::ChangeLink {
            index: link,
            change: LinkChange::Loss(ppm),
        })
    }

    /// `tb-set-multiplexed LINK N`, of a link or a LAN
    #[tactic(auto, unfolding(crate::specs::Settings::judged_multiplexed))]
    pub(crate) fn judge_multiplexed(&self, words: &[Text]) -> Result<Task, Kind>
        ensures { result ≡ settings.judged_multiplexed self.now words.now }
    {
        counted(3, words)?;
        let link = need(Kind::Link, self.link_of(word_at(words, 1)))?;
        let multiplexed = flag_in(word_at(words, 2))?;
        Ok(Task::ChangeLink {
            index: link,
            change: LinkChange::Multiplexed(multiplexed),
        })
    }
}
