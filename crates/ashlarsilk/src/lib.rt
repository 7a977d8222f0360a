// The library for hosts in C and Rust: each call over numbers and lent bytes. A lent record that is shorter than its layout (crates
// message_layout, limits_layout, session_layout and cursor_layout) is refused with 10 before anything else is looked at; of a longer one the
// bytes after the layout are left alone. A refusal changes nothing, but for 14, which closes an open session. Each export only calls the
// function with its contract in the crate of its group.
#![tactic(auto)]

pub mod cursor_exports;
pub mod limits_exports;
pub mod message_exports;
pub mod session_exports;
