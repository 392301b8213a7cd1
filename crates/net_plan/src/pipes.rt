// The pipes of an expansion.
ghost use Rattle.std.specs.Prelude.{◌≡◌, ◌≤◌, ◌+◌, ◌++◌, OnOk, IfOk, map, sum_by};
ghost use Rattle.std.specs.List.{flat_map, range_with_len};
ghost use Rattle.net_plan.specs.Expansion.{numbered};
ghost use Rattle.net_plan.specs.Parts.{is_shaped, delays, link_pipe, lan_pipe, pipes_of};

use crate::nodes::{delays, is_shaped};
use lab_base::{Items, Memory, Rates};
use std::alloc::Global;
use virt_topo::{AskedLink, MAX_TOPOLOGY_NODES, Pipe};

/// The pipe of a shaped link, with the link's rates in both directions.
pub fn link_pipe(rates: Rates, node: u16) -> Pipe
    ensures { result ≡ link_pipe rates node }
{
    Pipe {
        node,
        from: 0,
        to: 1,
        there: rates,
        back: rates,
    }
}

/// The pipe of a member of a shaped LAN. Towards the LAN it has half of the delay, rounded down, and the loss; back from it the rest of the delay,
/// and no loss.
pub fn lan_pipe(rates: Rates, node: u16) -> Pipe
    ensures { result ≡ lan_pipe rates node }
{
    let half = rates.micros / 2;
    Pipe {
        node,
        from: 0,
        to: 1,
        there: Rates {
            kbps: rates.kbps,
            micros: half,
            ppm: rates.ppm,
        },
        back: Rates {
            kbps: rates.kbps,
            micros: rates.micros - half,
            ppm: 0,
        },
    }
}

/// Adds the pipes of a shaped LAN.
fn push_lan_pipes(
    pipes: &mut Items<Pipe>,
    rates: Rates,
    first: u16,
    count: u16,
) -> Result<(), Memory>
    requires { first + count ≤ MAX_TOPOLOGY_NODES }
    ensures { OnOk result (pipes.new ≡ pipes.old ++ map (lan_pipe rates) (range_with_len first count)) }
{
    for node in first..first + count {
        pipes.push(lan_pipe(rates, node))?;
    }
    Ok(())
}

/// Adds the pipes of a link or LAN.
fn push_pipes(pipes: &mut Items<Pipe>, link: &AskedLink, first: u16) -> Result<(), Memory>
    requires { first + delays link.now ≤ MAX_TOPOLOGY_NODES }
    ensures { OnOk result (pipes.new ≡ pipes.old ++ pipes_of (first, link.now)) }
{
    if !is_shaped(link.rates) {
        return Ok(());
    }
    if link.lan {
        push_lan_pipes(pipes, link.rates, first, link.ends.len() as u16)
    } else {
        pipes.push(link_pipe(link.rates, first))
    }
}

/// The pipes of links and LANs, whose delay nodes are numbered from `asked` on.
pub(crate) fn wired_pipes(
    alloc: Global,
    links: &[AskedLink],
    asked: u16,
) -> Result<Items<Pipe>, Memory>
    requires { asked + sum_by delays links.now ≤ MAX_TOPOLOGY_NODES }
    ensures { IfOk result (λ pipes. pipes ≡ flat_map pipes_of (numbered asked links.now)) }
{
    let mut pipes = Items::new(alloc);
    let mut first = asked;
    for link in links {
        push_pipes(&mut pipes, link, first)?;
        first += delays(link) as u16;
    }
    Ok(pipes)
}
