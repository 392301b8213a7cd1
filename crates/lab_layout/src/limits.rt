/// The least width of a machine.
pub const LEAST_WIDE: u32 = 84;

/// The least height of a machine.
pub const LEAST_HIGH: u32 = 44;

/// The most machines that are set apart, far above the most nodes of a lab.
pub const MAX_CELLS: usize = 65_536;
