// The names in a solution text, and their numbers.
ghost use Rattle.std.specs.Prelude.{◌≡◌, ◌<◌, ◌^◌, ℕ, List, map, position, length, None, IfOk, IfSome};
ghost use Rattle.lab_base.specs.Names.{same_name};
ghost use Rattle.indexmap.specs.IndexMap.{get};
ghost use Rattle.virt_topo.specs.Soundness.{end_of};
ghost use Rattle.top_text.specs.Adding.{virt_named};
ghost use Rattle.solution_text.specs.Solutions.{node_named, end_by, end_named, iface_on, iface_by, iface_named};
ghost use Rattle.solution_text.specs.Names.{AreNames, AreTables, same_key};

use crate::by_node::NodeIfaces;
use crate::ends::end_keys;
use crate::near::{find_iface, find_node};
use indexmap::IndexMap;
use lab_base::{Items, Memory, Name};
use phys_lab::{Lab, Node};
use std::alloc::Global;
use std::hash::Hash;
use virt_topo::{VirtNode, Wiring};

/// The most virtual nodes and ends of a wiring whose names are looked for one by one: tables of a lab cost more.
const FEW_NAMES: usize = 12;

/// By name the numbers of the nodes of a lab, and by node its interfaces.
#[derive(Drop)]
pub(crate) struct LabTables {
    pub(crate) nodes: IndexMap<Name, usize>,
    pub(crate) ifaces: NodeIfaces,
}

/// A lab and a wiring, with tables of the numbers of their named parts.
#[derive(Drop)]
pub(crate) struct Names<'a> {
    pub(crate) lab: &'a Lab,
    pub(crate) wiring: &'a Wiring,
    pub(crate) virts: IndexMap<Name, usize>,
    /// By virtual node and number among its ends, the number of an end.
    pub(crate) ends: IndexMap<(usize, usize), usize>,
    /// None for a small wiring, whose few names are looked for one by one.
    pub(crate) tables: Option<LabTables>,
}

/// By key, the number of the first item with that key.
fn numbered<K: Copy + Eq + Hash + Drop>(
    alloc: Global,
    keys: &[K],
) -> Result<IndexMap<K, usize>, Memory>
    ensures { IfOk result (λ table. (key : K) → get K.eq table key ≡ position (K.eq key) keys.now) }
{
    let mut table = IndexMap::new(alloc);
    for number in (0..keys.len()).rev() {
        table.insert(keys[number], number)?;
    }
    Ok(table)
}

fn virt_names(alloc: Global, nodes: &[VirtNode]) -> Result<Items<Name>, Memory>
    ensures { IfOk result (λ names. names ≡ map (λ v. v.name) nodes.now) }
{
    let mut names = Items::new(alloc);
    for node in nodes {
        names.push(node.name)?;
    }
    Ok(names)
}

fn node_names(alloc: Global, nodes: &[Node]) -> Result<Items<Name>, Memory>
    ensures { IfOk result (λ names. names ≡ map (λ n. n.name) nodes.now) }
{
    let mut names = Items::new(alloc);
    for node in nodes {
        names.push(node.name)?;
    }
    Ok(names)
}

fn virt_table(alloc: Global, wiring: &Wiring) -> Result<IndexMap<Name, usize>, Memory>
    ensures { IfOk result (λ table. (name : List ℕ) → get same_name table name ≡ virt_named wiring.now name) }
{
    let names = virt_names(alloc, wiring.nodes.as_slice())?;
    numbered(alloc, names.as_slice())
}

fn end_table(alloc: Global, wiring: &Wiring) -> Result<IndexMap<(usize, usize), usize>, Memory>
    ensures { IfOk result (λ table. (key : ℕ × ℕ) → get same_key table key ≡ end_of wiring.now key.0 key.1) }
{
    let keys = end_keys(alloc, wiring.segments.as_slice())?;
    numbered(alloc, keys.as_slice())
}

fn node_table(alloc: Global, lab: &Lab) -> Result<IndexMap<Name, usize>, Memory>
    ensures { IfOk result (λ table. (name : List ℕ) → get same_name table name ≡ node_named lab.now name) }
{
    let names = node_names(alloc, lab.nodes())?;
    numbered(alloc, names.as_slice())
}

fn lab_tables(alloc: Global, lab: &Lab) -> Result<LabTables, Memory>
    ensures { IfOk result (AreTables lab.now) }
{
    let nodes = node_table(alloc, lab)?;
    let ifaces = NodeIfaces::new(alloc, lab)?;
    Ok(LabTables { nodes, ifaces })
}

fn tables_for(alloc: Global, lab: &Lab, count: usize) -> Result<Option<LabTables>, Memory>
    ensures { IfOk result (λ tables. IfSome tables (AreTables lab.now)) }
{
    if count <= FEW_NAMES {
        return Ok(None);
    }
    let tables = lab_tables(alloc, lab)?;
    Ok(Some(tables))
}

/// The tables of a lab and a wiring.
pub(crate) fn names_of<'a>(
    alloc: Global,
    lab: &'a Lab,
    wiring: &'a Wiring,
) -> Result<Names<'a>, Memory>
    ensures names { IfOk result AreNames }
    ensures lab { IfOk result (λ names. names.lab.now ≡ lab.now) }
    ensures wiring { IfOk result (λ names. names.wiring.now ≡ wiring.now) }
{
    let virts = virt_table(alloc, wiring)?;
    let ends = end_table(alloc, wiring)?;
    let tables = tables_for(alloc, lab, virts.len().saturating_add(ends.len()))?;
    Ok(Names {
        lab,
        wiring,
        virts,
        ends,
        tables,
    })
}

impl Names<'_> {
    /// The number of a virtual node.
    pub(crate) fn virt(&self, name: Name) -> Option<usize>
        requires { AreNames self.now }
        ensures { result ≡ virt_named self.now.wiring.now name }
    {
        self.virts.get(&name).copied()
    }

    /// The number of a node.
    pub(crate) fn node(&self, name: Name) -> Option<usize>
        requires { AreNames self.now }
        ensures named { result ≡ node_named self.now.lab.now name }
        ensures within { IfSome result (λ n. n < length self.now.lab.now.nodes) }
    {
        match &self.tables {
            Some(tables) => tables.nodes.get(&name).copied(),
            None => find_node(self.lab, name),
        }
    }

    fn end_by(&self, virt: Option<usize>, k: u16) -> Option<usize>
        requires { AreNames self.now }
        ensures { result ≡ end_by self.now.wiring.now k virt }
    {
        match virt {
            Some(virt) => self.ends.get(&(virt, usize::from(k))).copied(),
            None => None,
        }
    }

    /// The number of an end.
    pub(crate) fn end(&self, virt: Name, k: u16) -> Option<usize>
        requires { AreNames self.now }
        ensures { result ≡ end_named self.now.wiring.now (virt, k) }
    {
        let virt = self.virt(virt);
        self.end_by(virt, k)
    }

    fn iface_on(&self, node: usize, name: Name) -> Option<usize>
        requires names { AreNames self.now }
        requires node { node < length self.now.lab.now.nodes }
        ensures { result ≡ iface_on self.now.lab.now node name }
    {
        match &self.tables {
            Some(tables) => tables.ifaces.find(self.lab, node, name),
            None => find_iface(self.lab, node, name),
        }
    }

    fn iface_by(&self, node: Option<usize>, name: Name) -> Option<usize>
        requires names { AreNames self.now }
        requires node { IfSome node (λ n. n < length self.now.lab.now.nodes) }
        ensures { result ≡ iface_by self.now.lab.now name node }
    {
        match node {
            Some(node) => self.iface_on(node, name),
            None => None,
        }
    }

    /// The number of an interface.
    pub(crate) fn iface(&self, node: Name, name: Name) -> Option<usize>
        requires { AreNames self.now }
        ensures named { result ≡ iface_named self.now.lab.now (node, name) }
        ensures within { IfSome result (λ i. i < 2 ^ 16) }
    {
        // for the prover: it tells what every lab keeps
        let _kept = self.lab.range();
        let node = self.node(node);
        self.iface_by(node, name)
    }
}
