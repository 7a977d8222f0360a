// The cursor limits value: what a sink answers for the RTSP parameter `microsoft_cursor` (003 section 1.7), read and written.
#![tactic(auto)]

mod reading;
pub mod value;
mod writing;

pub use reading::read;
pub use writing::write;
