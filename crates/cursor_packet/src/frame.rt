// What packets of every type share: the checks before and after those of their type.
ghost use Rattle.std.specs.Prelude.{◌≡◌};
ghost use Rattle.wire.specs.Status.{passed};
ghost use Rattle.wire.specs.Checks.{first_of};
ghost use Rattle.cursor_packet.specs.Frame.{type_of, kind_checks, whole_checks};

use super::rtp;
use super::rtp::Rtp;
use wire::number;
use wire::status::{Refusal, Status};

// The least bytes of a packet: the RTP header, MsgType and PacketMsgSize.
pub const LEAST: usize = 15;

// A packet's type, or the first refusal before it: fewer than 15 bytes 1; RTP 3.
#[tactic(auto, unfolding(wire::specs::Checks::first_of))]
pub fn kind(packet: &[u8]) -> Result<u8, Refusal>
    ensures { result ≡ passed (first_of (kind_checks packet.now)) (type_of packet.now) }
{
    if packet.len() < LEAST {
        return Err(Refusal::Truncated);
    }
    if !rtp::holds(packet) {
        return Err(Refusal::WrongHeader);
    }
    Ok(number::read(packet, 12))
}

// Whether a packet ends where its PacketMsgSize says: too few bytes 1; too many 2.
#[tactic(auto, unfolding(wire::specs::Checks::first_of))]
pub fn whole(packet: &[u8], size: u16) -> Status
    ensures { result ≡ first_of (whole_checks size packet.now) }
{
    let end = Rtp::HEADER + size as usize;
    if packet.len() < end {
        return Err(Refusal::Truncated);
    }
    if end < packet.len() {
        return Err(Refusal::WrongSize);
    }
    Ok(())
}
