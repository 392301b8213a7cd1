ghost use Rattle.std.specs.Prelude.{◌≡◌, fold, false, None, Some, if◌then◌else◌};
ghost use Rattle.lab_base.specs.declared.boot.Boot.TheVariants.{Off};
ghost use Rattle.plant.specs.Worlds.{is_row, row_after, told};
ghost use Rattle.plain_model.specs.Rows.{row_then, has_row, os_then, boot_then, pipe_then};

use lab_base::{Boot, Name, VlanId};
use plant::{Answer, DeviceOp, Fault};
use swap_plan::{NodePipe, Port};

/// A command that was sent, whether it was applied, and its answer.
#[derive(Drop)]
pub struct Sent {
    pub op: DeviceOp,
    pub applied: bool,
    pub answer: Result<Answer, Fault>,
}

fn is_row(switch: Name, port: u16, vlan: VlanId, row: &Port) -> bool
    ensures { result ≡ is_row switch port vlan.0 row.now }
{
    row.switch == switch && row.port == port && row.vlan.0 == vlan.0
}

fn row_after(op: DeviceOp, row: &Port, had: bool) -> bool
    ensures { result ≡ row_after op row.now had }
{
    match op {
        DeviceOp::Join { switch, port, vlan } => is_row(switch, port, vlan, row) || had,
        DeviceOp::Leave { switch, port, vlan } => !is_row(switch, port, vlan, row) && had,
        _ => had,
    }
}

fn row_then(sent: &Sent, row: &Port, had: bool) -> bool
    ensures { result ≡ row_then row.now had sent.now }
{
    if sent.applied {
        row_after(sent.op, row, had)
    } else {
        had
    }
}

/// Whether a row is there after these commands.
pub fn has_row(commands: &[Sent], row: &Port) -> bool
    ensures { result ≡ has_row commands.now row.now }
{
    let mut had = false;
    for sent in commands {
        had = row_then(sent, row, had);
    }
    had
}

fn os_then(sent: &Sent, name: &[u8], had: Option<Name>) -> Option<Name>
    ensures { result ≡ os_then name.now had sent.now }
{
    match sent.op {
        DeviceOp::Load { node, os } => {
            if sent.applied && name == node.bytes() {
                Some(os)
            } else {
                had
            }
        }
        DeviceOp::Wipe { node } => {
            if sent.applied && name == node.bytes() {
                None
            } else {
                had
            }
        }
        _ => had,
    }
}

/// The OS of a node after these commands.
pub fn os_of(commands: &[Sent], name: &[u8]) -> Option<Name>
    ensures { result ≡ fold (os_then name.now) None commands.now }
{
    let mut had = None;
    for sent in commands {
        had = os_then(sent, name, had);
    }
    had
}

fn told(answer: Result<Answer, Fault>) -> Option<Boot>
    ensures { result ≡ told answer }
{
    match answer {
        Ok(Answer::State(state)) => Some(state),
        _ => None,
    }
}

fn boot_then(sent: &Sent, name: &[u8], had: Option<Boot>) -> Option<Boot>
    ensures { result ≡ boot_then name.now had sent.now }
{
    match sent.op {
        DeviceOp::Load { node, .. } | DeviceOp::Wipe { node } => {
            if sent.applied && name == node.bytes() {
                Some(Boot::Off)
            } else {
                had
            }
        }
        DeviceOp::Boot { node } => {
            if sent.applied && name == node.bytes() {
                Some(Boot::Booting)
            } else {
                had
            }
        }
        DeviceOp::Poll { node } => {
            if name == node.bytes() {
                told(sent.answer)
            } else {
                had
            }
        }
        _ => had,
    }
}

/// The boot state of a node after these commands; None where it is open.
pub fn boot_of(commands: &[Sent], name: &[u8]) -> Option<Boot>
    ensures { result ≡ fold (boot_then name.now) (Some Off) commands.now }
{
    let mut had = Some(Boot::Off);
    for sent in commands {
        had = boot_then(sent, name, had);
    }
    had
}

fn pipe_then(sent: &Sent, name: &[u8], number: usize, had: Option<NodePipe>) -> Option<NodePipe>
    ensures { result ≡ pipe_then name.now number had sent.now }
{
    match sent.op {
        DeviceOp::Shape {
            node,
            pipe,
            from,
            to,
            there,
            back,
        } => {
            if sent.applied && name == node.bytes() && number == pipe as usize {
                Some(NodePipe {
                    from,
                    to,
                    there,
                    back,
                })
            } else {
                had
            }
        }
        DeviceOp::Wipe { node } => {
            if sent.applied && name == node.bytes() {
                None
            } else {
                had
            }
        }
        _ => had,
    }
}

/// The pipe of that number of a node after these commands.
pub fn pipe_of(commands: &[Sent], name: &[u8], number: usize) -> Option<NodePipe>
    ensures { result ≡ fold (pipe_then name.now number) None commands.now }
{
    let mut had = None;
    for sent in commands {
        had = pipe_then(sent, name, number, had);
    }
    had
}
