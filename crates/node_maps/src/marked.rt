// Candidates on nodes that are marked.
ghost use Rattle.std.specs.Prelude.{◌≡◌, ◌<◌, [], true, length, map, slice_index_or, All, IfOk};
ghost use Rattle.node_maps.specs.Kinds.{listed, AreNumbers};
ghost use Rattle.node_maps.specs.Marked.{mark_of, marked_numbers, marked_of, marks_of};

use crate::lists::{Candidates, Place};
use lab_base::{Items, Memory, NodeId};
use std::alloc::Global;
use std::marker::Model;

/// By virtual node the numbers of its candidates on marked nodes, ascending. Virtual nodes of one kind share a list.
#[derive(Drop)]
pub struct Marked {
    /// By kind of virtual node.
    lists: Vec<Items<usize>>,
    /// By virtual node its kind.
    kinds: Vec<usize>,
}

impl Model for Marked {
    ghost use Rattle.std.specs.Prelude.{ℕ, List};
    ghost use Rattle.node_maps.specs.Kinds.{by_kind as marked_by_kind};

    ghost Value = { List (List ℕ) };

    ghost view = { λ a. marked_by_kind a.lists.items a.kinds.items };
}

/// Whether a node is marked; those beyond the end of the marks are.
fn is_marked(nodes: &[bool], node: NodeId) -> bool
    ensures { result ≡ slice_index_or nodes.now node.0 true }
{
    match nodes.get(node.0 as usize) {
        Some(mark) => *mark,
        None => true,
    }
}

/// By place whether its node is marked.
fn marks_in(alloc: Global, nodes: &[bool], listed: &[Place]) -> Result<Items<bool>, Memory>
    ensures { IfOk result (λ marks. marks ≡ marks_of nodes.now listed.now) }
{
    let mut marks = Items::new(alloc);
    for place in listed {
        marks.push(is_marked(nodes, place.0))?;
    }
    Ok(marks)
}

/// The numbers that are marked, ascending.
pub fn marked_numbers(alloc: Global, marks: &[bool]) -> Result<Items<usize>, Memory>
    ensures { IfOk result (λ marked. marked ≡ marked_numbers marks.now) }
{
    let mut marked = Items::new(alloc);
    for number in 0..marks.len() {
        if marks[number] {
            marked.push(number)?;
        }
    }
    Ok(marked)
}

/// Where in a list of numbers the marked ones stand, ascending.
fn marked_at(alloc: Global, marks: &[bool], numbers: &[u16]) -> Result<Items<usize>, Memory>
    requires { All (λ k. k < length marks.now) numbers.now }
    ensures { IfOk result (λ marked. marked ≡ marked_numbers (map (mark_of marks.now) numbers.now)) }
{
    let mut marked = Items::new(alloc);
    for place in 0..numbers.len() {
        if marks[numbers[place] as usize] {
            marked.push(place)?;
        }
    }
    Ok(marked)
}

/// By list where in it the marked numbers stand.
fn all_marked(
    alloc: Global,
    marks: &[bool],
    lists: &[Items<u16>],
) -> Result<Vec<Items<usize>>, Memory>
    requires { All (All (λ k. k < length marks.now)) lists.now }
    ensures { IfOk result (λ all. all.items ≡ map (λ numbers. marked_numbers (map (mark_of marks.now) numbers)) lists.now) }
{
    let mut all = Vec::new(alloc);
    for numbers in lists {
        let own = marked_at(alloc, marks, numbers.as_slice())?;
        all.push(own)?;
    }
    Ok(all)
}

/// By list where in it the numbers of places on marked nodes stand.
fn listed_marked(
    alloc: Global,
    nodes: &[bool],
    places: &[Place],
    lists: &[Items<u16>],
) -> Result<Vec<Items<usize>>, Memory>
    requires { AreNumbers places.now lists.now }
    ensures { IfOk result (λ all. all.items ≡ map (marked_of nodes.now) (listed places.now lists.now)) }
{
    let marks = marks_in(alloc, nodes, places)?;
    let all = all_marked(alloc, marks.as_slice(), lists)?;
    Ok(all)
}

pub(crate) fn copy_kinds(kinds: &Vec<usize>) -> Result<Vec<usize>, Memory>
    ensures { IfOk result (λ copy. copy.items ≡ kinds.now.items) }
{
    let copy = kinds.clone()?;
    Ok(copy)
}

impl Candidates {
    /// By virtual node the numbers of its candidates on marked nodes; nodes beyond the end of the marks are marked.
    pub fn marked(&self, alloc: Global, nodes: &[bool]) -> Result<Marked, Memory>
        ensures { IfOk result (λ marked. marked ≡ map (marked_of nodes.now) self.now) }
    {
        let lists = listed_marked(alloc, nodes, &self.places, &self.lists)?;
        let kinds = copy_kinds(&self.kinds)?;
        Ok(Marked { lists, kinds })
    }
}

/// The numbers of a kind.
fn list_of(lists: &[Items<usize>], kind: usize) -> &[usize]
    ensures { result.now ≡ slice_index_or lists.now kind [] }
{
    match lists.get(kind) {
        Some(numbers) => numbers.as_slice(),
        None => &[],
    }
}

impl Marked {
    /// The numbers of a virtual node's candidates on marked nodes, ascending.
    pub fn of(&self, virt: usize) -> &[usize]
        requires { virt < length self.now }
        ensures { result.now ≡ slice_index_or self.now virt [] }
    {
        list_of(&self.lists, self.kinds[virt])
    }
}
