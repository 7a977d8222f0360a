// The loops over an image and its marks, in shapes that compile to vector instructions: each proved once.
#![tactic(auto)]

mod blocks;
pub mod bytes;
pub mod conflict;
pub mod empty;
