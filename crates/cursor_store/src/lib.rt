// The call for starts and continuations (01, "Cursor packets"): a cursor image is put together from fragments that come in any order and any
// number of times. The pointer, the picture's record and the completeness question stand in crates cursor_pointer and cursor_picture.
#![tactic(auto)]

mod judging;
pub mod storing;

pub use storing::store;
