/// The boot state of a node.
#[derive(Clone, Copy, PartialEq, Eq)]
pub enum Boot {
    Off,
    Shutdown,
    Booting,
    TbSetup,
    IsUp,
}
