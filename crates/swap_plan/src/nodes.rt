// The rows of nodes that a mapping wants.
ghost use Rattle.std.specs.Prelude.{◌≡◌, ◌<◌, ◌++◌, All, length, IfOk, OnOk, Some, None, if◌then◌else◌};
ghost use Rattle.std.specs.List.{filter_map};
ghost use Rattle.std.specs.Str.{bytes_eq};
ghost use Rattle.lab_base.specs.Lists.{Has};
ghost use Rattle.virt_topo.specs.Soundness.{IsSound};
ghost use Rattle.lab_model.specs.Shapes.{IsShaped};
ghost use Rattle.lab_model.specs.Wants.{node_name, os_on, place_of, pipe_row, pipes_on};
ghost use Rattle.swap_plan.specs.Plans.{untagged};

use crate::loads::plug_name;
use lab_base::{Memory, Name, NodeId, Rates};
use phys_lab::Lab;
use std::alloc::Global;
use std::marker::Model;
use virt_topo::{Mapping, Pipe, VirtNode, Wiring};

/// A pipe between two interfaces of a node, by their names there, with its rates in both directions.
#[derive(Drop)]
pub struct NodePipe {
    pub from: Name,
    pub to: Name,
    pub there: Rates,
    pub back: Rates,
}

impl Model for NodePipe {
    ghost use Rattle.plant.specs.Worlds.{PipeRow};
    ghost use Rattle.swap_plan.specs.PipeView.{pipe_of};

    ghost Value = { PipeRow };

    ghost view = { pipe_of };
}

/// A node as a mapping wants it: with an OS it has to be up.
#[derive(Drop)]
pub struct NodeWants {
    /// The OS of the first virtual node on it; None where no virtual node is on it.
    pub os: Option<Name>,
    /// Its pipes, numbered from 0 in wiring order.
    pub pipes: Vec<NodePipe>,
}

fn is_named(lab: &Lab, at: NodeId, node: Name) -> bool
    requires { at.0 < length lab.now.nodes }
    ensures { result ≡ bytes_eq (node_name lab.now at) node }
{
    lab.nodes()[at.0 as usize].name.bytes() == node.bytes()
}

/// The OS of the first virtual node on a node.
fn os_on(lab: &Lab, virts: &[VirtNode], places: &[(NodeId, Name)], node: Name) -> Option<Name>
    requires { All (λ p. p.0.0 < length lab.now.nodes) places.now }
    ensures { result ≡ os_on lab.now virts.now places.now node }
{
    match (virts.split_first(), places.split_first()) {
        (Some((virt, others)), Some((place, rest))) => {
            if is_named(lab, place.0, node) {
                Some(virt.os)
            } else {
                os_on(lab, others, rest, node)
            }
        }
        _ => None,
    }
}

/// Whether a virtual node is placed on a node.
fn is_placed_on(lab: &Lab, wiring: &Wiring, mapping: &Mapping, virt: u16, node: Name) -> bool
    requires shaped { IsShaped lab.now wiring.now mapping.now }
    requires virt { virt < length mapping.now.places }
    ensures { result ≡ bytes_eq (place_of lab.now (untagged wiring.now mapping.now) virt) node }
{
    let place = mapping.places.as_slice()[virt as usize].0;
    is_named(lab, place, node)
}

fn wanted_pipe(lab: &Lab, wiring: &Wiring, mapping: &Mapping, pipe: &Pipe) -> NodePipe
    requires sound { IsSound wiring.now }
    requires shaped { IsShaped lab.now wiring.now mapping.now }
    requires pipe { Has wiring.now.pipes pipe.now }
    ensures { result ≡ pipe_row lab.now (untagged wiring.now mapping.now) pipe.now }
{
    NodePipe {
        from: plug_name(lab, wiring, mapping, pipe.node, pipe.from),
        to: plug_name(lab, wiring, mapping, pipe.node, pipe.to),
        there: pipe.there,
        back: pipe.back,
    }
}

/// Adds the pipes that are on a node.
fn push_pipes(
    listed: &mut Vec<NodePipe>,
    lab: &Lab,
    wiring: &Wiring,
    mapping: &Mapping,
    node: Name,
    pipes: &[Pipe],
) -> Result<(), Memory>
    requires sound { IsSound wiring.now }
    requires shaped { IsShaped lab.now wiring.now mapping.now }
    requires pipes { (pipe : _) → Has pipes.now pipe → Has wiring.now.pipes pipe }
    ensures { OnOk result (listed.new.items ≡ listed.old.items
        ++ filter_map (λ p. if bytes_eq (place_of lab.now (untagged wiring.now mapping.now) p.node) node then Some
        (pipe_row lab.now (untagged wiring.now mapping.now) p) else None) pipes.now) }
{
    match pipes.split_first() {
        Some((pipe, others)) => {
            if is_placed_on(lab, wiring, mapping, pipe.node, node) {
                listed.push(wanted_pipe(lab, wiring, mapping, pipe))?;
            }
            push_pipes(listed, lab, wiring, mapping, node, others)
        }
        None => Ok(()),
    }
}

/// The OS and the pipes that a mapping wants on a node of the lab.
pub fn node_row_of(
    alloc: Global,
    lab: &Lab,
    wiring: &Wiring,
    mapping: &Mapping,
    node: NodeId,
) -> Result<NodeWants, Memory>
    requires sound { IsSound wiring.now }
    requires shaped { IsShaped lab.now wiring.now mapping.now }
    requires node { node.0 < length lab.now.nodes }
    ensures os { IfOk result (λ wants. wants.os ≡ os_on lab.now wiring.now.nodes mapping.now.places (node_name lab.now node)) }
    ensures pipes { IfOk result (λ wants. wants.pipes.items ≡ pipes_on lab.now (untagged wiring.now mapping.now) (node_name lab.now node)) }
{
    let name = lab.nodes()[node.0 as usize].name;
    let virts = wiring.nodes.as_slice();
    let os = os_on(lab, virts, mapping.places.as_slice(), name);
    let mut pipes = Vec::new(alloc);
    push_pipes(
        &mut pipes,
        lab,
        wiring,
        mapping,
        name,
        wiring.pipes.as_slice(),
    )?;
    Ok(NodeWants { os, pipes })
}
