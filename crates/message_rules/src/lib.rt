// Connection messages (MS-MICE 3.0, sections 2.2 to 2.2.7): the rules of their TLVs, their record, and what a host asks of it.
#![tactic(auto)]

pub mod accessors;
pub mod record;
pub mod role;
pub mod rules;
