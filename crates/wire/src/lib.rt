// Numbers as they stand in bytes, in either order of the bytes, the order of sequence numbers, and the numbers that calls answer with.
#![tactic(auto)]

pub mod little_endian;
pub mod number;
mod order;
pub mod sequence;
pub mod signed;
pub mod status;
pub mod unsigned;
