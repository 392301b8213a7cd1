ghost use Rattle.std.specs.Prelude.{◌≡◌, ◌<◌, ◌+◌, ◌*◌, ◌%◌, ◌^◌};
ghost use Rattle.plant_file.specs.Marks.{name_mark, row_mark, key_mark};

use crate::entry::Key;
use lab_base::{Name, VlanId};

/// The mark of a name is below it.
const MARKS: u64 = 4_294_967_291;

/// The mark of the bytes so far, and of one more.
fn mark_more(mark: u64, byte: u8) -> u64
    requires { mark < 2 ^ 32 }
    ensures is { result ≡ (mark * 31 + byte) % MARKS }
    ensures small { result < 2 ^ 32 }
{
    (mark * 31 + u64::from(byte)) % MARKS
}

fn bytes_mark(bytes: &[u8]) -> u64
    ensures mark { result ≡ name_mark bytes.now }
    ensures small { result < 2 ^ 32 }
{
    let mut mark = 0u64;
    for byte in bytes {
        mark = mark_more(mark, *byte);
    }
    mark
}

fn row_mark(switch: &Name, port: u16, vlan: VlanId) -> u64
    ensures { result ≡ row_mark switch.now port vlan.0 }
{
    bytes_mark(switch.bytes()) + (u64::from(port) * 65_536 + u64::from(vlan.0)) * 4_294_967_296
}

impl Key {
    /// A number by which lines of that key are found. Keys of one entry have the same.
    pub(crate) fn mark(&self) -> u64
        ensures { result ≡ key_mark self.now }
    {
        match self {
            Key::Row { switch, port, vlan } => row_mark(switch, *port, *vlan),
            Key::Node { node } | Key::Pipe { node, .. } | Key::Of { node } => bytes_mark(
                node.bytes(),
            ),
        }
    }
}
