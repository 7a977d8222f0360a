// Fragments of an image: starts, type 2, and continuations, type 3 (003 section 2.2.3).
//
//   start                                  continuation
//   place  bytes                           place  bytes
//      15      4  TotalImageDataSize          15      4  TotalImageDataSize
//      19      2  CursorImageId               19      2  CursorImageId
//      21      2  XPos, signed                21      4  PacketPayloadOffset, signed
//      23      2  YPos, signed                25         ImageData
//      25      1  CursorImageType
//      26      2  HotSpotXPos
//      28      2  HotSpotYPos
//      30         ImageData, at offset 0
#![tactic(auto)]

pub mod continuation;
pub mod start;

ghost use Rattle.std.specs.Prelude.{◌≡◌};
ghost use Rattle.wire.specs.Number.{number};
ghost use Rattle.wire.specs.Signed.{signed};
ghost use Rattle.wire.specs.Status.{passed};
ghost use Rattle.wire.specs.Checks.{first_of};
ghost use Rattle.cursor_fragment.specs.Fragment.{takes_type, is_start, header_length, image_data, offset_bits, offset_of, place_of, outside, fragment_as, read_fragment};
ghost use Rattle.cursor_fragment.specs.Parsing.{body_checks, parsed};

use continuation::Continuation;
use cursor_packet::rtp::Rtp;
use cursor_packet::{frame, rtp};
use start::Start;
use wire::number;
use wire::status::{Refusal, Refused};

// A start or a continuation, but for its data and a start's position, which is the pointer's. A start stands at offset 0.
#[derive(Clone, Copy)]
pub struct Fragment {
    pub sequence: u16,
    pub total: u32,
    pub id: u16,
    pub offset: u32,
    // A start's own fields.
    pub start: Option<Start>,
}

// Whether a packet's type is that of a start.
pub fn is_start(packet: &[u8]) -> bool
    ensures { result ≡ is_start packet.now }
{
    number::read::<u8>(packet, 12) == Start::TYPE
}

// Whether a type is that of a start or of a continuation.
#[tactic(auto, unfolding(crate::specs::Fragment::takes_type))]
fn is_taken(kind: u8) -> bool
    ensures { result ≡ takes_type kind }
{
    matches!(kind, Start::TYPE | Continuation::TYPE)
}

// The length of the header of a start or of a continuation. (A packet and whether it starts go together through these functions: a struct of
// both would only name the pair.)
#[tactic(auto, unfolding(crate::specs::Fragment::header_length))]
fn header(starts: bool) -> usize
    ensures { result ≡ header_length starts }
{
    if starts {
        Start::HEADER
    } else {
        Continuation::HEADER
    }
}

// The image data: what follows the header of a start or of a continuation.
#[tactic(auto, using(crate::proofs::Laws::Fragment::header_small), unfolding(crate::specs::Fragment::image_data, crate::specs::Fragment::header_length))]
pub fn image_data(packet: &[u8], starts: bool) -> &[u8]
    ensures { result.now ≡ image_data starts packet.now }
{
    packet.get(Rtp::HEADER + header(starts)..).unwrap_or(&[])
}

// Whether the offset whose two's complement is `place` is negative, which is `place` above 2,147,483,647, or offset plus data goes beyond
// the total. One comparison with the lesser of the two limits: it needs the number as a whole.
fn is_outside(place: u32, length: usize, total: u32) -> bool
    ensures { result ≡ outside (signed 4 place) length total }
{
    let end = total as usize;
    end < length || (end - length).min(2147483647) < place as usize
}

// The offset's four bytes as a number: 0 for a start.
#[tactic(auto, unfolding(crate::specs::Fragment::offset_bits))]
fn offset_bits(packet: &[u8], starts: bool) -> u32
    ensures { result ≡ offset_bits starts packet.now }
{
    if starts {
        return 0;
    }
    number::read(packet, 21)
}

// The fields of a fragment whose total and offset have been read.
#[tactic(auto, unfolding(crate::specs::Fragment::fragment_as, cursor_packet::specs::Rtp::rtp_of))]
fn fields(packet: &[u8], starts: bool, total: u32, place: u32) -> Fragment
    requires { (total ≡ number 4 packet.now 15) × (place ≡ place_of (offset_of starts packet.now)) }
    ensures { result ≡ fragment_as starts packet.now }
{
    Fragment {
        sequence: rtp::read(packet).sequence,
        total,
        id: number::read(packet, 19),
        offset: place,
        start: start::read(packet, starts),
    }
}

// A fragment after its header and type: PacketMsgSize below 18 for a start, below 13 for a continuation, 2; too few bytes 1; too many 2; negative
// offset, or offset plus data beyond the total, 9. Total and offset are read once, for the check and for the fragment.
#[tactic(auto, unfolding(crate::specs::Parsing::body_checks, wire::specs::Checks::first_of))]
fn parse_body(packet: &[u8], starts: bool) -> Result<Fragment, Refusal>
    ensures { result ≡ passed (first_of (body_checks starts packet.now)) (fragment_as starts packet.now) }
{
    let size: u16 = number::read(packet, 13);
    let least = header(starts);
    if (size as usize) < least {
        return Err(Refusal::WrongSize);
    }
    frame::whole(packet, size)?;
    let total = number::read(packet, 15);
    let place = offset_bits(packet, starts);
    if is_outside(place, size as usize - least, total) {
        return Err(Refusal::OutsideImage);
    }
    Ok(fields(packet, starts, total, place))
}

// The first refusal in 01's order, or the fragment: fewer than 15 bytes 1; RTP 3; another type 4; then the checks of a start or
// of a continuation.
#[tactic(auto, using(crate::proofs::Laws::Fragment::after_kind), unfolding(crate::specs::Parsing::parsed, wire::specs::Checks::first_of))]
pub fn parse(packet: &[u8]) -> Result<Fragment, Refusal>
    ensures { result ≡ parsed packet.now }
{
    let kind = frame::kind(packet)?;
    if !is_taken(kind) {
        return Err(Refusal::UnknownKind);
    }
    parse_body(packet, kind == Start::TYPE)
}

// The start or continuation, or its refusal.
#[tactic(auto, unfolding(crate::specs::Fragment::read_fragment, crate::specs::Parsing::parsed))]
pub fn read(packet: &[u8]) -> Result<Fragment, Refused>
    ensures { result ≡ read_fragment packet.now }
{
    Ok(parse(packet)?)
}
