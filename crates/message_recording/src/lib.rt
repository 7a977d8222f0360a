// Recordings: connection messages back to back (01, "Session listing"). What the listing shows of the bytes from one place on, and how
// many of them decide it.
#![tactic(auto)]

pub mod cut;
pub mod line;
