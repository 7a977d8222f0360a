// The records of the cursor stream, the pointer and the opened picture, as bytes that a host keeps and lends, each with a fixed layout. Numbers
// are little-endian: the least significant byte first. A flag is one byte, 0 for no and any other for yes, written as 1.
#![tactic(auto)]

pub mod picture_layout;
pub mod pointer_layout;
