// A line of the listing.
ghost use Rattle.std.specs.Prelude.{◌≡◌};
ghost use Rattle.message_recording.specs.Line.{line_of};

use crate::cut::needed;
use wire::status::Refusal;

// What the listing shows at a place: an accepted message, what the bytes there are refused with, or that there are none.
#[derive(Clone, Copy)]
pub enum Line {
    Message { command: u8, size: usize },
    Refused { refusal: Refusal },
    End,
}

// The line of the place where `bytes` begin. Bytes after the first message are not looked at.
#[tactic(auto, unfolding(crate::specs::Line::line_of, crate::specs::Cut::needed_of), using(crate::proofs::Laws::Line::line_short, crate::proofs::Laws::Line::positive))]
pub fn first_line(bytes: &[u8]) -> Line
    ensures { result ≡ line_of bytes.now }
{
    if bytes.is_empty() {
        return Line::End;
    }
    let size = needed(bytes);
    if bytes.len() < size {
        return Line::Refused {
            refusal: Refusal::Truncated,
        };
    }
    match message_reader::read(&bytes[..size]) {
        Ok(message) => Line::Message {
            command: message.command,
            size,
        },
        Err(refused) => Line::Refused {
            refusal: refused.refusal,
        },
    }
}
