// What is a continuation's own: its type and its header (003 section 2.2.3). Its offset is a field of every fragment. A
// type without fields, since 01 wants a kind's numbers as constants of the kind.

#[derive(Clone, Copy)]
pub struct Continuation {}

impl Continuation {
    pub const TYPE: u8 = 3;
    // The least PacketMsgSize: all but the data.
    pub const HEADER: usize = 13;
}
