// The replies that count something.
ghost use Rattle.std.specs.Prelude.{◌≡◌};
ghost use Rattle.phys_lab.specs.Kept.{IsLab};
ghost use Rattle.virt_topo.specs.Soundness.{IsSound};
ghost use Rattle.lab_judge.specs.Judge.{lab_reply, created_reply};

use lab_base::Name;
use phys_lab::Lab;
use script_text::Reply;
use virt_topo::Wiring;

pub(crate) fn lab_reply(lab: &Lab) -> Reply
    ensures reply { result ≡ lab_reply lab.now }
    ensures kept { IsLab lab.now }
{
    // for the prover: it tells what every lab keeps
    let _kept = lab.range();
    Reply::Lab {
        switches: lab.switches().len() as u16,
        nodes: lab.nodes().len() as u16,
        trunks: lab.trunks().len() as u16,
    }
}

pub(crate) fn created_reply(exp: Name, wiring: &Wiring) -> Reply
    requires { IsSound wiring.now }
    ensures { result ≡ created_reply exp wiring.now }
{
    Reply::Created {
        exp,
        nodes: wiring.nodes.len() as u16,
        segments: wiring.segments.len() as u16,
    }
}
