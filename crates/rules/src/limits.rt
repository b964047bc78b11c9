// The limits of an engine that more than one crate needs.

// At most so many cores.
pub const MOST_CORES: usize = 8;

// The figure B of a core that is wholly given away.
pub const WHOLE_FIGURE: u32 = 1_000;

// The last tick that the clock can show.
pub const LAST_TICK: u32 = 4_000_000_000;

// At most so many reservations are live.
pub const LIVE_LIMIT: usize = 64;

// The last number that is given.
pub const LAST_NUMBER: u32 = 65_535;
