// The steps of the sink's session, by the table in crate session_table (01, "Sink session").
#![tactic(auto)]

pub mod in_place;
pub mod message_step;
pub mod step;
