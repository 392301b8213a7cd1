//! The names that variables give.

ghost use Rattle.std.specs.Prelude.{◌≡◌, ◌<◌, ◌+◌, map};
ghost use Rattle.std.specs.List.{list_any};
ghost use Rattle.lab_base.specs.Names.{same_name};
ghost use Rattle.ns_words.specs.Objects.{numbered_name_of};
ghost use Rattle.ns_words.specs.declared.names.Numbered.TheVariants as numbered;
ghost use Rattle.ns_build.specs.Tasks as judges;

use crate::checks::{object_name_in, refuse};
use crate::network::Network;
use crate::task::{LinkChange, NodeChange, Task};
use lab_base::{Kind, Name};
use ns_words::{Numbered, numbered_name};
use virt_topo::{AskedLink, AskedNode};

/// Whether a node has this name.
fn has_node(name: Name, nodes: &[AskedNode]) -> bool
    ensures { result ≡ list_any (λ x. same_name name x.name) nodes.now }
{
    nodes.iter().any(|node| name == node.name)
}

/// Whether a link or LAN has this name.
fn has_link(name: Name, links: &[AskedLink]) -> bool
    ensures { result ≡ list_any (λ x. same_name name x.name) links.now }
{
    links.iter().any(|link| name == link.name)
}

/// The name of an object by its number.
fn number_name(of: Numbered, index: usize) -> Name
    requires { index < u16.MAX }
    ensures { result ≡ numbered_name_of of (index + 1) }
{
    numbered_name(of, index as u16 + 1)
}

impl Network {
    /// Whether the node at an index still has the name by its number.
    fn is_bare_node(&self, index: u16) -> bool
        requires { index < u16.MAX }
        ensures { result ≡ judges.is_numbered (numbered_name_of numbered.Node (index + 1)) (map (λ x. x.name) self.now.nodes) index }
    {
        match self.nodes.get(usize::from(index)) {
            Some(node) => number_name(Numbered::Node, usize::from(index)) == node.name,
            None => false,
        }
    }

    /// Whether the link or LAN at an index still has the name by its number.
    fn is_bare_link(&self, index: usize) -> bool
        requires { index < u16.MAX }
        ensures { result ≡ judges.is_numbered (numbered_name_of numbered.Link (index + 1)) (map (λ x. x.name) self.now.links) index }
    {
        match self.links.as_slice().get(index) {
            Some(link) => number_name(Numbered::Link, index) == link.name,
            None => false,
        }
    }

    /// Names the node at an index by a variable, if it still has the name by its number.
    #[tactic(auto, unfolding(crate::specs::Tasks::named_node))]
    fn name_node(&self, index: u16, variable: &[u8]) -> Result<Task, Kind>
        requires { index < u16.MAX }
        ensures { result ≡ judges.named_node self.now index variable.now }
    {
        if !self.is_bare_node(index) {
            return Ok(Task::Nothing);
        }
        let name = object_name_in(variable)?;
        refuse(Kind::Twice, has_node(name, &self.nodes))?;
        Ok(Task::ChangeNode {
            index,
            change: NodeChange::Name(name),
        })
    }

    /// Names the link or LAN at an index by a variable, if it still has the name by its number.
    #[tactic(auto, unfolding(crate::specs::Tasks::named_link))]
    fn name_link(&self, index: usize, variable: &[u8]) -> Result<Task, Kind>
        requires { index < u16.MAX }
        ensures { result ≡ judges.named_link self.now index variable.now }
    {
        if !self.is_bare_link(index) {
            return Ok(Task::Nothing);
        }
        let name = object_name_in(variable)?;
        refuse(Kind::Twice, has_link(name, self.links.as_slice()))?;
        Ok(Task::ChangeLink {
            index,
            change: LinkChange::Name(name),
        })
    }

    /// Judges a variable's new value: the task that it asks for.
    #[tactic(auto, unfolding(crate::specs::Tasks::judged_name, crate::specs::Tasks::named_by))]
    pub(crate) fn judge_name(&self, variable: &[u8], value: &[u8]) -> Result<Task, Kind>
        ensures { result ≡ judges.judged_name self.now variable.now value.now }
    {
        if let Some(node) = self.node_of(value) {
            return self.name_node(node, variable);
        }
        match self.link_of(value) {
            Some(link) => self.name_link(link, variable),
            None => Ok(Task::Nothing),
        }
    }
}
