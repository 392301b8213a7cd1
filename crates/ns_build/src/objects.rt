//! The commands that make objects.

ghost use Rattle.std.specs.Prelude.{◌≡◌, ◌<◌, length, []};
ghost use Rattle.ns_build.specs.Networks as networks;
ghost use Rattle.lab_base.specs.Texts.{views};
ghost use Rattle.ns_build.specs.Checks.{each};
ghost use Rattle.ns_build.specs.Commands as commands;
ghost use Rattle.ns_build.specs.Gives.{Gives};

use crate::checks::{bandwidth_in, counted, delay_in, need, refuse, word_at};
use crate::keywords::{Verb, verb_of};
use crate::network::{Network, has_end};
use crate::refusal::Refusal;
use crate::task::Task;
use crate::words::elements_in;
use lab_base::{Items, Kind, Rates, Text};
use net_plan::{MAX_LINKS, MAX_MEMBERS};
use ns_words::{Numbered, numbered_name};
use std::alloc::Global;
use virt_topo::{AskedLink, MAX_TOPOLOGY_NODES, VirtEnd};

/// An end without an address.
fn bare_end(node: u16) -> VirtEnd
    ensures { result ≡ networks.bare_end node }
{
    VirtEnd {
        node,
        address: None,
    }
}

impl Network {
    /// `new Simulator`
    #[tactic(auto, unfolding(crate::specs::Commands::judged_new))]
    pub(crate) fn judge_new(&self, words: &[Text]) -> Result<Task, Kind>
        ensures { result ≡ commands.judged_new self.now words.now }
    {
        counted(2, words)?;
        let kept = word_at(words, 1) == b"Simulator".as_slice();
        refuse(Kind::Unsupported, !kept)?;
        refuse(Kind::Twice, self.simulator)?;
        Ok(Task::MakeSimulator)
    }

    /// `$ns node`
    #[tactic(auto, unfolding(crate::specs::Commands::judged_node))]
    fn judge_node(&self, words: &[Text]) -> Result<Task, Kind>
        ensures { result ≡ commands.judged_node self.now words.now }
    {
        counted(2, words)?;
        let index = self.nodes.len();
        if index >= MAX_TOPOLOGY_NODES {
            return Err(Kind::Limit);
        }
        Ok(Task::AddNode {
            name: numbered_name(Numbered::Node, index as u16 + 1),
        })
    }

    /// Refuses one link or LAN too many.
    fn link_room(&self) -> Result<(), Kind>
        ensures { result ≡ commands.link_room self.now }
    {
        refuse(Kind::Limit, self.links.len() >= MAX_LINKS)
    }

    /// The task of a new link or LAN, without loss.
    #[tactic(auto, unfolding(crate::specs::Commands::new_link))]
    fn new_link(&self, lan: bool, kbps: u64, micros: u32, ends: Items<VirtEnd>) -> Task
        requires { length self.now.links < MAX_LINKS }
        ensures { result ≡ commands.new_link self.now lan kbps micros ends }
    {
        let index = self.links.len();
        Task::AddLink {
            link: AskedLink {
                name: numbered_name(Numbered::Link, index as u16 + 1),
                lan,
                rates: Rates {
                    kbps,
                    micros,
                    ppm: 0,
                },
                multiplexed: false,
                ends,
            },
        }
    }

    /// `$ns duplex-link A B BW DELAY DropTail`
    #[tactic(auto, unfolding(crate::specs::Commands::judged_link))]
    fn judge_link(&self, alloc: Global, words: &[Text]) -> Result<Task, Refusal>
        ensures { Gives result (commands.judged_link self.now words.now) }
    {
        counted(7, words)?;
        let first = need(Kind::Node, self.node_of(word_at(words, 2)))?;
        let second = need(Kind::Node, self.node_of(word_at(words, 3)))?;
        refuse(Kind::Twice, first == second)?;
        let kbps = bandwidth_in(word_at(words, 4))?;
        let micros = delay_in(word_at(words, 5))?;
        let queue = word_at(words, 6) == b"DropTail".as_slice();
        refuse(Kind::Unsupported, !queue)?;
        self.link_room()?;
        let ends = vec![in alloc; bare_end(first), bare_end(second)]?;
        Ok(self.new_link(false, kbps, micros, Items::from_vec(ends)))
    }

    /// The ends with one more, on a node that they don't have.
    #[tactic(auto, unfolding(crate::specs::Commands::with_end))]
    fn with_end(&self, mut ends: Items<VirtEnd>, word: &[u8]) -> Result<Items<VirtEnd>, Refusal>
        ensures { Gives result (commands.with_end self.now ends word.now) }
    {
        let node = need(Kind::Node, self.node_of(word))?;
        refuse(Kind::Twice, has_end(node, ends.as_slice()))?;
        ends.push(bare_end(node))?;
        Ok(ends)
    }

    /// The ends on the nodes of a list, each another than those before.
    fn joined_ends(&self, alloc: Global, elements: &[&[u8]]) -> Result<Items<VirtEnd>, Refusal>
        ensures { Gives result (each (commands.with_end self.now) [] (views elements.now)) }
    {
        let mut ends = Items::new(alloc);
        for element in elements {
            ends = self.with_end(ends, element)?;
        }
        Ok(ends)
    }

    /// `$ns make-lan LIST BW DELAY`
    #[tactic(auto, unfolding(crate::specs::Commands::judged_lan))]
    fn judge_lan(&self, alloc: Global, words: &[Text]) -> Result<Task, Refusal>
        ensures { Gives result (commands.judged_lan self.now words.now) }
    {
        counted(5, words)?;
        let elements = elements_in(alloc, word_at(words, 2))?;
        let ends = self.joined_ends(alloc, &elements)?;
        refuse(Kind::Node, ends.len() < 2)?;
        refuse(Kind::Limit, ends.len() > MAX_MEMBERS)?;
        let kbps = bandwidth_in(word_at(words, 3))?;
        let micros = delay_in(word_at(words, 4))?;
        self.link_room()?;
        Ok(self.new_link(true, kbps, micros, ends))
    }

    /// Judges the simulator's word, with the words after it, on a line.
    #[tactic(auto, unfolding(crate::specs::Commands::judged_simulator, crate::specs::Commands::judged_verb))]
    pub(crate) fn judge_simulator(
        &self,
        alloc: Global,
        line: u32,
        words: &[Text],
    ) -> Result<Task, Refusal>
        ensures { Gives result (commands.judged_simulator line self.now words.now) }
    {
        refuse(Kind::Arity, words.len() < 2)?;
        match verb_of(word_at(words, 1)) {
            Some(Verb::MakeNode) => Ok(self.judge_node(words)?),
            Some(Verb::DuplexLink) => self.judge_link(alloc, words),
            Some(Verb::MakeLan) => self.judge_lan(alloc, words),
            Some(Verb::RouteBy) => Ok(judge_routes(words)?),
            Some(Verb::At) => self.judge_at(alloc, line, words),
            Some(Verb::Run) => Ok(judge_run(words)?),
            None => Err(Refusal::Kind(Kind::Unsupported)),
        }
    }
}

/// `source tb_compat.tcl`
#[tactic(auto, unfolding(crate::specs::Commands::judged_source))]
pub(crate) fn judge_source(words: &[Text]) -> Result<Task, Kind>
    ensures { result ≡ commands.judged_source words.now }
{
    counted(2, words)?;
    let kept = word_at(words, 1) == b"tb_compat.tcl".as_slice();
    refuse(Kind::Unsupported, !kept)?;
    Ok(Task::Nothing)
}

/// `$ns rtproto Static` and `$ns rtproto Manual`
#[tactic(auto, unfolding(crate::specs::Commands::judged_routes))]
fn judge_routes(words: &[Text]) -> Result<Task, Kind>
    ensures { result ≡ commands.judged_routes words.now }
{
    counted(3, words)?;
    let routes = word_at(words, 2);
    let kept = routes == b"Static".as_slice() || routes == b"Manual".as_slice();
    refuse(Kind::Unsupported, !kept)?;
    Ok(Task::Nothing)
}

/// `$ns run`
#[tactic(auto, unfolding(crate::specs::Commands::judged_run))]
fn judge_run(words: &[Text]) -> Result<Task, Kind>
    ensures { result ≡ commands.judged_run words.now }
{
    counted(2, words)?;
    Ok(Task::Stop)
}
