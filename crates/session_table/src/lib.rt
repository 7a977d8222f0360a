// Of the sink's session: its record, the source that a message comes from, and the table of what an event does in a state (01, "Sink session").
#![tactic(auto)]

pub mod event;
pub mod record;
pub mod source;
pub mod table;
