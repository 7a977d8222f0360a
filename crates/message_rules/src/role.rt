// What a TLV type is to a command: foreign to it, needed, or it may be absent.
#[derive(Clone, Copy, PartialEq, Eq)]
pub enum Role {
    Foreign,
    Needed,
    Optional,
}
