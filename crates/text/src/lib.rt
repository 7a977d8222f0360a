// Text of the protocols' values: hexadecimal digits, and words whose letter case is not looked at (RFC 5234).
#![tactic(auto)]

pub mod hex;
pub mod word;
