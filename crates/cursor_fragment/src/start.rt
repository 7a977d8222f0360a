// What only a start has (003 section 2.2.3).
//
//   place  bytes
//      21      2  XPos, signed
//      23      2  YPos, signed
//      25      1  CursorImageType
//      26      2  HotSpotXPos
//      28      2  HotSpotYPos
ghost use Rattle.std.specs.Prelude.{◌≡◌};
ghost use Rattle.cursor_fragment.specs.Start.{no_start, start_in, same_start, start_position};

use cursor_packet::position;
use cursor_packet::position::Position;
use wire::number;

// A start's own fields, which its position is not among.
#[derive(Clone, Copy, PartialEq, Eq)]
pub struct Start {
    pub image_type: u8,
    pub hot_x: u16,
    pub hot_y: u16,
}

impl Start {
    pub const TYPE: u8 = 2;
    // The least PacketMsgSize: all but the data.
    pub const HEADER: usize = 18;
    // The start fields where no start was seen.
    #[tactic(auto, unfolding(crate::specs::Start::no_start))]
    pub fn none() -> Start
        ensures { result ≡ no_start }
    {
        Start {
            image_type: 0,
            hot_x: 0,
            hot_y: 0,
        }
    }
}

// The start fields of a packet, where it is a start; a continuation has none.
#[tactic(auto, unfolding(crate::specs::Start::start_in, crate::specs::Start::start_of))]
pub(crate) fn read(packet: &[u8], starts: bool) -> Option<Start>
    ensures { result ≡ start_in starts packet.now }
{
    if !starts {
        return None;
    }
    Some(Start {
        image_type: number::read(packet, 25),
        hot_x: number::read(packet, 26),
        hot_y: number::read(packet, 28),
    })
}

// Whether the own fields of two starts are the same.
#[tactic(auto, unfolding(crate::specs::Start::same_start))]
pub fn same(a: Start, b: Start) -> bool
    ensures { result ≡ same_start a b }
{
    a == b
}

// The position of a packet that is a start, with the packet's sequence number.
pub fn position(packet: &[u8]) -> Position
    ensures { result ≡ start_position packet.now }
{
    position::at(packet, 21, 23)
}
