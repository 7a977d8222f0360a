// The RTP header that each cursor packet begins with (003 section 2.2).
ghost use Rattle.std.specs.Prelude.{◌≡◌};
ghost use Rattle.cursor_packet.specs.Rtp.{rtp_holds, rtp_of};

use wire::number;

// The field of the header that differs from packet to packet.
#[derive(Clone, Copy)]
pub struct Rtp {
    pub sequence: u16,
}

impl Rtp {
    // The header's length in bytes.
    pub const HEADER: usize = 12;
    // The first two bytes, 80 hex and 0: version 2, no padding, no extension, no CSRC; no marker, payload type 0.
    pub const FIRST_TWO: u16 = 0x8000;
}

// Whether the packet has the header of a cursor packet: 12 bytes, of which the first two are judged. The sequence number may be any, and
// timestamp and SSRC are not looked at (02 §2).
pub fn holds(packet: &[u8]) -> bool
    ensures { result ≡ rtp_holds packet.now }
{
    Rtp::HEADER <= packet.len() && number::read::<u16>(packet, 0) == Rtp::FIRST_TWO
}

// The header's field.
#[tactic(auto, unfolding(crate::specs::Rtp::rtp_of))]
pub fn read(packet: &[u8]) -> Rtp
    ensures { result ≡ rtp_of packet.now }
{
    Rtp {
        sequence: number::read(packet, 2),
    }
}
