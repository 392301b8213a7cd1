// Explicit addresses of ends.
ghost use Rattle.std.specs.Prelude.{◌≡◌, false, not, nat_eq, IfOk, []};
ghost use Rattle.std.specs.Bool.{OnTrue};
ghost use Rattle.std.specs.List.{list_any};
ghost use Rattle.virt_topo.specs.Repeats.{stands_again};
ghost use Rattle.net_plan.specs.Addresses.{addresses_of, ends_of, are_in_two_subnets, has_two_subnets, uses, repeats, all_taken};

use crate::used::Used;
use lab_base::Memory;
use virt_topo::{AskedLink, VirtEnd};

fn are_in_two_subnets(one: Option<u32>, other: Option<u32>) -> bool
    ensures { result ≡ are_in_two_subnets one other }
{
    match (one, other) {
        (Some(one), Some(other)) => one / 256 != other / 256,
        (Some(_), None) => false,
        (None, _) => false,
    }
}

fn has_other_subnet(ends: &[VirtEnd], address: Option<u32>) -> bool
    ensures { result ≡ list_any (λ e. are_in_two_subnets address e.address) ends.now }
{
    ends.iter()
        .any(|end| are_in_two_subnets(address, end.address))
}

fn has_two_subnets(link: &AskedLink) -> bool
    ensures { result ≡ has_two_subnets link.now }
{
    let ends = link.ends.as_slice();
    ends.iter().any(|end| has_other_subnet(ends, end.address))
}

/// Whether a link or LAN has explicit addresses in two subnets.
pub(crate) fn have_two_subnets(links: &[AskedLink]) -> bool
    ensures { result ≡ list_any has_two_subnets links.now }
{
    links.iter().any(|link| has_two_subnets(link))
}

/// Marks the explicit addresses of these ends as used; false where one is used already or given twice.
fn use_explicit(used: &mut Used, ends: &[VirtEnd]) -> Result<bool, Memory>
    ensures free { IfOk result (λ free. free ≡ not (repeats (uses used.old) (addresses_of ends.now))) }
    ensures used { IfOk result (λ free. OnTrue free (uses used.new ≡ all_taken (uses used.old) (addresses_of ends.now))) }
{
    for end in ends {
        if let Some(address) = end.address {
            if !used.insert(address)? {
                return Ok(false);
            }
        }
    }
    Ok(true)
}

/// Marks the explicit addresses of all ends as used; false where one is given twice.
pub(crate) fn use_all_explicit(used: &mut Used, links: &[AskedLink]) -> Result<bool, Memory>
    requires { used.old ≡ [] }
    ensures free { IfOk result (λ free. free ≡ not (stands_again nat_eq (addresses_of (ends_of links.now)))) }
    ensures used { IfOk result (λ free. OnTrue free (uses used.new ≡ all_taken (λ a. false) (addresses_of (ends_of links.now)))) }
{
    for link in links {
        if !use_explicit(used, link.ends.as_slice())? {
            return Ok(false);
        }
    }
    Ok(true)
}
