// How a recording is cut: each message by its own Size.
ghost use Rattle.std.specs.Prelude.{◌≡◌};
ghost use Rattle.message_recording.specs.Cut.{needed_of};

use message_reader::header;

// How many bytes from one place on decide the line of that place, `bytes` being those read so far: the header's four, then as many as Size
// says. With fewer, more are to be read, if there are any.
#[tactic(auto, unfolding(crate::specs::Cut::needed_of))]
pub fn needed(bytes: &[u8]) -> usize
    ensures { result ≡ needed_of bytes.now }
{
    header::read_size(bytes).unwrap_or(4)
}
