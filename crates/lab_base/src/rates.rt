/// The rates of a pipe in one direction.
#[derive(Clone, Copy, PartialEq, Eq)]
pub struct Rates {
    /// Bandwidth in kbps, 1 to 1,000,000,000.
    pub kbps: u64,
    /// Delay in microseconds, at most 10,000,000.
    pub micros: u32,
    /// Loss in parts of a million, at most 1,000,000.
    pub ppm: u32,
}
