//! The host of testbed commands.

ghost use Rattle.std.specs.Prelude.{◌≡◌, ◌≤◌, IfOk, length};
ghost use Rattle.ns_build.specs.Kept.{AllKeepLimits};
ghost use Rattle.ns_build.specs.Networks.{empty, topo_of, events_of};
ghost use Rattle.ns_build.specs.Host.{called as called_by, assigned as assigned_by};

use crate::events::MAX_EVENTS;
use crate::network::Network;
use crate::refusal::Refusal;
use lab_base::{Items, Memory, Text};
use ns_events::Event;
use std::alloc::Global;
use std::marker::Model;
use tcl_eval::{Called, Host, HostFault};
use virt_topo::Topo;

/// The host of NS texts: a network, which their commands make. Contracts see the network.
#[derive(Drop)]
pub(crate) struct NsHost {
    alloc: Global,
    network: Network,
}

impl Model for NsHost {
    ghost use Rattle.ns_build.specs.Networks.{Network as NetworkSeen};
    ghost use Rattle.ns_build.specs.Kept.{IsKept};

    ghost Value = { NetworkSeen };

    ghost view = { λ host. host.network };

    ghost invariant = { λ host. IsKept host.network };
}

impl NsHost {
    /// The host before the first command.
    pub fn new(alloc: Global) -> NsHost
        ensures { result ≡ empty }
    {
        NsHost {
            alloc,
            network: Network::new(alloc),
        }
    }

    /// The scheduled events, in text order.
    pub fn events(&self) -> Result<Items<Event>, Memory>
        ensures events { IfOk result (λ events. events ≡ events_of self.now) }
        ensures few { IfOk result (λ events. length events ≤ MAX_EVENTS) }
        ensures limits { IfOk result (λ events. AllKeepLimits events) }
    {
        self.network.named_events(self.alloc)
    }

    /// The network as it was made.
    pub fn into_topo(self) -> Topo
        ensures { result ≡ topo_of self }
    {
        let NsHost { alloc: _, network } = self;
        network.into_topo()
    }
}

impl Host for NsHost {
    type Objects = Network;

    ghost objects = { λ host. host };

    ghost calls = { called_by };

    ghost hears = { assigned_by };

    #[tactic(auto, unfolding(crate::specs::Host::called))]
    fn call(&mut self, words: &[Text], line: u32) -> Result<Called, HostFault> {
        match self.network.judge(self.alloc, line, words) {
            Ok(task) => match self.network.obey(self.alloc, task) {
                Ok(called) => Ok(called),
                Err(_) => Err(HostFault::Memory),
            },
            Err(Refusal::Kind(kind)) => Err(HostFault::Kind(kind)),
            Err(Refusal::Memory) => Err(HostFault::Memory),
        }
    }

    #[tactic(auto, unfolding(crate::specs::Host::assigned))]
    fn assigned(&mut self, name: &Text, value: &Text) -> Result<(), HostFault> {
        match self.network.judge_name(name.bytes(), value.bytes()) {
            Ok(task) => match self.network.obey(self.alloc, task) {
                Ok(_) => Ok(()),
                Err(_) => Err(HostFault::Memory),
            },
            Err(kind) => Err(HostFault::Kind(kind)),
        }
    }
}
