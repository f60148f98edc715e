use crate::ram::RAM_START;

/// The address at which harts begin.
pub const RESET_PC: u64 = RAM_START;

/// The most harts that a job, an order or a trace has.
pub const MOST_HARTS: usize = 16;
