ghost use Rattle.std.specs.Prelude.{◌≡◌, ◌&&◌, ◌||◌, not};
ghost use Rattle.std.specs.List.{list_any, list_all};
ghost use Rattle.std.specs.Str.{bytes_eq};
ghost use Rattle.lab_model.specs.Wants.{switch_name, node_name};
ghost use Rattle.plain_model.specs.Isolation.{same_row, same_owner, is_at_port, is_at, is_over_trunk};
ghost use Rattle.plain_model.specs.Isolation.{is_over_pipe, is_next, stands, agree, all_agree, is_isolated};

use crate::{Owner, PipeEnds, Wanted};
use lab_base::{Name, NodeId, SwitchId};
use phys_lab::{Iface, Lab, Trunk};
use swap_plan::Port;

fn same_row(p: &Port, q: &Port) -> bool
    ensures { result ≡ same_row p.now q.now }
{
    p.switch == q.switch && (p.port == q.port && p.vlan.0 == q.vlan.0)
}

fn same_owner(a: &Owner, b: &Owner) -> bool
    ensures { result ≡ same_owner a.now b.now }
{
    a.exp == b.exp && (a.new == b.new && a.link == b.link)
}

fn is_switch_named(lab: &Lab, switch: SwitchId, name: Name) -> bool
    ensures { result ≡ bytes_eq name (switch_name lab.now switch.0) }
{
    match lab.switches().get(switch.0 as usize) {
        Some(known) => name == *known,
        None => name.bytes() == b"".as_slice(),
    }
}

fn is_node_named(lab: &Lab, node: NodeId, name: Name) -> bool
    ensures { result ≡ bytes_eq (node_name lab.now node) name }
{
    match lab.nodes().get(node.0 as usize) {
        Some(known) => known.name == name,
        None => b"".as_slice() == name.bytes(),
    }
}

fn is_at_port(lab: &Lab, switch: SwitchId, port: u16, row: &Port) -> bool
    ensures { result ≡ is_at_port lab.now switch.0 port row.now }
{
    is_switch_named(lab, switch, row.switch) && row.port == port
}

fn is_iface_at(lab: &Lab, node: Name, name: Name, row: &Port, iface: &Iface) -> bool
    ensures { result ≡ (bytes_eq (node_name lab.now iface.now.node) node
        && (bytes_eq iface.now.name name && is_at_port lab.now iface.now.switch.0 iface.now.port row.now)) }
{
    is_node_named(lab, iface.node, node)
        && (iface.name == name && is_at_port(lab, iface.switch, iface.port, row))
}

fn is_at(lab: &Lab, node: Name, name: Name, row: &Port) -> bool
    ensures { result ≡ is_at lab.now node name row.now }
{
    lab.ifaces()
        .iter()
        .any(|iface| is_iface_at(lab, node, name, row, iface))
}

fn is_over_trunk(lab: &Lab, p: &Port, q: &Port, trunk: &Trunk) -> bool
    ensures { result ≡ is_over_trunk lab.now p.now q.now trunk.now }
{
    let (first, second) = (trunk.first, trunk.second);
    (is_at_port(lab, first.0, first.1, p) && is_at_port(lab, second.0, second.1, q))
        || (is_at_port(lab, second.0, second.1, p) && is_at_port(lab, first.0, first.1, q))
}

fn is_over_pipe(lab: &Lab, p: &Port, q: &Port, pipe: &PipeEnds) -> bool
    ensures { result ≡ is_over_pipe lab.now p.now q.now pipe.now }
{
    (is_at(lab, pipe.node, pipe.from, p) && is_at(lab, pipe.node, pipe.to, q))
        || (is_at(lab, pipe.node, pipe.to, p) && is_at(lab, pipe.node, pipe.from, q))
}

fn is_over_some_trunk(lab: &Lab, p: &Port, q: &Port) -> bool
    ensures { result ≡ list_any (is_over_trunk lab.now p.now q.now) lab.now.trunks }
{
    lab.trunks()
        .iter()
        .any(|trunk| is_over_trunk(lab, p, q, trunk))
}

fn is_over_some_pipe(lab: &Lab, pipes: &[PipeEnds], p: &Port, q: &Port) -> bool
    ensures { result ≡ list_any (is_over_pipe lab.now p.now q.now) pipes.now }
{
    pipes.iter().any(|pipe| is_over_pipe(lab, p, q, pipe))
}

/// Whether two rows are next to each other: on one switch, over a trunk, or over a pipe.
pub fn is_next(lab: &Lab, pipes: &[PipeEnds], p: &Port, q: &Port) -> bool
    ensures { result ≡ is_next lab.now pipes.now p.now q.now }
{
    (p.vlan.0 == q.vlan.0 && (p.switch == q.switch || is_over_some_trunk(lab, p, q)))
        || is_over_some_pipe(lab, pipes, p, q)
}

fn stands(rows: &[Port], p: &Port) -> bool
    ensures { result ≡ stands rows.now p.now }
{
    rows.iter().any(|row| same_row(p, row))
}

fn agree(lab: &Lab, pipes: &[PipeEnds], a: &Wanted, b: &Wanted) -> bool
    ensures { result ≡ agree lab.now pipes.now a.now b.now }
{
    same_owner(&a.owner, &b.owner)
        || !(same_row(&a.row, &b.row) || is_next(lab, pipes, &a.row, &b.row))
}

fn agree_if(lab: &Lab, rows: &[Port], pipes: &[PipeEnds], a: &Wanted, b: &Wanted) -> bool
    ensures { result ≡ (not (stands rows.now b.now.row) || agree lab.now pipes.now a.now b.now) }
{
    !stands(rows, &b.row) || agree(lab, pipes, a, b)
}

fn agrees(lab: &Lab, wanted: &[Wanted], rows: &[Port], pipes: &[PipeEnds], a: &Wanted) -> bool
    ensures { result ≡ list_all (λ b. not (stands rows.now b.row) || agree lab.now pipes.now a.now b) wanted.now }
{
    wanted.iter().all(|b| agree_if(lab, rows, pipes, a, b))
}

fn all_agree(lab: &Lab, wanted: &[Wanted], rows: &[Port], pipes: &[PipeEnds], a: &Wanted) -> bool
    ensures { result ≡ all_agree lab.now wanted.now rows.now pipes.now a.now }
{
    !stands(rows, &a.row) || agrees(lab, wanted, rows, pipes, a)
}

fn is_wanted(wanted: &[Wanted], p: &Port) -> bool
    ensures { result ≡ list_any (λ a. same_row p.now a.row) wanted.now }
{
    wanted.iter().any(|a| same_row(p, &a.row))
}

pub(crate) fn are_wanted(wanted: &[Wanted], rows: &[Port]) -> bool
    ensures { result ≡ list_all (λ p. list_any (λ a. same_row p a.row) wanted.now) rows.now }
{
    rows.iter().all(|p| is_wanted(wanted, p))
}

fn agree_together(lab: &Lab, wanted: &[Wanted], rows: &[Port], pipes: &[PipeEnds]) -> bool
    ensures { result ≡ list_all (all_agree lab.now wanted.now rows.now pipes.now) wanted.now }
{
    wanted
        .iter()
        .all(|a| all_agree(lab, wanted, rows, pipes, a))
}

/// Whether each present row is wanted, and present rows that are one or next to each other have one owner.
pub fn is_isolated(lab: &Lab, wanted: &[Wanted], rows: &[Port], pipes: &[PipeEnds]) -> bool
    ensures { result ≡ is_isolated lab.now wanted.now rows.now pipes.now }
{
    are_wanted(wanted, rows) && agree_together(lab, wanted, rows, pipes)
}
