// The addresses of the ends of links and LANs.
ghost use Rattle.std.specs.Prelude.{◌≡◌, ◌≤◌, ◌<◌, ◌^◌, not, find, length, IfOk, IfSome, if◌then◌else◌};
ghost use Rattle.std.specs.List.{slice_get};
ghost use Rattle.std.specs.Option.{ForSome, ok_or};
ghost use Rattle.net_plan.specs.Addresses.{addresses_of, subnet_of, hosts, address_for, uses};
ghost use Rattle.net_plan.specs.Addresses.{all_taken, addressed_ends, addressed_from, addressed, has_bad_address};
ghost use Rattle.net_plan.specs.Expansion.{Answers};
ghost use Rattle.net_plan.specs.declared.fault.PlanFault.TheVariants as faults;

use crate::PlanFault;
use crate::explicit::{have_two_subnets, use_all_explicit};
use crate::limits::MAX_LINKS;
use crate::used::Used;
use lab_base::Items;
use std::alloc::Global;
use virt_topo::{AskedLink, VirtEnd};

/// The greatest number of a link or LAN that has a subnet of its own.
const MAX_NUMBER: u32 = 254;

/// The first subnet, 10.1.0.0, without its last number.
const FIRST_SUBNET: u32 = (10 * 256 + 1) * 256;

fn first_address(ends: &[VirtEnd]) -> Option<u32>
    ensures { result ≡ slice_get (addresses_of ends.now) 0 }
{
    for end in ends {
        if end.address.is_some() {
            return end.address;
        }
    }
    None
}

/// The subnet of a link or LAN, without the last number of its addresses.
fn subnet_of(number: u32, ends: &[VirtEnd]) -> Option<u32>
    ensures subnet { result ≡ subnet_of number (addresses_of ends.now) }
    ensures small { IfSome result (λ subnet. subnet < 2 ^ 24) }
{
    if let Some(address) = first_address(ends) {
        return Some(address / 256);
    }
    if number > MAX_NUMBER {
        return None;
    }
    Some(FIRST_SUBNET + number)
}

/// The first address of a subnet that is not used.
fn free_address(used: &Used, subnet: u32) -> Option<u32>
    requires { subnet < 2 ^ 24 }
    ensures { result ≡ find (λ a. not (uses used.now a)) (hosts subnet) }
{
    for host in 1..255 {
        let address = subnet * 256 + host;
        if !used.contains(address) {
            return Some(address);
        }
    }
    None
}

fn address_for(used: &Used, subnet: Option<u32>, own: Option<u32>) -> Option<u32>
    requires { ForSome subnet (λ s. s < 2 ^ 24) }
    ensures { result ≡ address_for (uses used.now) subnet own }
{
    if own.is_some() {
        return own;
    }
    free_address(used, subnet?)
}

/// The ends, each with its address, which counts as used from then on.
fn addressed_ends(
    alloc: Global,
    used: &mut Used,
    subnet: Option<u32>,
    ends: &[VirtEnd],
) -> Result<Items<VirtEnd>, PlanFault>
    requires { ForSome subnet (λ s. s < 2 ^ 24) }
    ensures ends { Answers result (ok_or (addressed_ends (uses used.old) subnet ends.now) faults.Subnet) }
    ensures used { IfOk result (λ given. uses used.new ≡ all_taken (uses used.old) (addresses_of given)) }
{
    let mut given = Items::new(alloc);
    for end in ends {
        let Some(address) = address_for(used, subnet, end.address) else {
            return Err(PlanFault::Subnet);
        };
        used.insert(address)?;
        given.push(VirtEnd {
            node: end.node,
            address: Some(address),
        })?;
    }
    Ok(given)
}

/// The links and LANs with an address for each end, beside the addresses used already.
fn addressed_from_first(
    alloc: Global,
    used: &mut Used,
    links: &[AskedLink],
) -> Result<Items<AskedLink>, PlanFault>
    requires { length links.now ≤ MAX_LINKS }
    ensures { Answers result (ok_or (addressed_from (uses used.old) 1 links.now) faults.Subnet) }
{
    let mut given = Items::new(alloc);
    let mut number = 1;
    for link in links {
        let subnet = subnet_of(number, link.ends.as_slice());
        let ends = addressed_ends(alloc, used, subnet, link.ends.as_slice())?;
        given.push(AskedLink {
            name: link.name,
            lan: link.lan,
            rates: link.rates,
            multiplexed: link.multiplexed,
            ends,
        })?;
        number += 1;
    }
    Ok(given)
}

/// The links and LANs with an address for each end.
pub(crate) fn addressed(alloc: Global, links: &[AskedLink]) -> Result<Items<AskedLink>, PlanFault>
    requires { length links.now ≤ MAX_LINKS }
    ensures { Answers result (if has_bad_address links.now then Err faults.Address else ok_or (addressed links.now) faults.Subnet) }
{
    if have_two_subnets(links) {
        return Err(PlanFault::Address);
    }
    let mut used = Used::new(alloc);
    if !use_all_explicit(&mut used, links)? {
        return Err(PlanFault::Address);
    }
    addressed_from_first(alloc, &mut used, links)
}
