// The limits that 01 and 02 name.

// The longest buffer, in bytes.
pub const BUFFER: usize = 16384;

// The most variables that a program has; a store has at most as many values.
pub const VARIABLES: u32 = 16;

// The most stores of a batch (02 C-16).
pub const BATCH: usize = 64;
