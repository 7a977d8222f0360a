// The pointer as 7 bytes.
//
//   place  bytes
//       0      1  whether a position is known
//       1      2  the sequence number of the packet that set it
//       3      2  x, two's complement
//       5      2  y, two's complement
ghost use Rattle.std.specs.Prelude.{◌≡◌};
ghost use Rattle.wire.specs.Laid.{laid};
ghost use Rattle.cursor_layout.specs.PointerLayout.{pointer_bytes, pointer_of};

use cursor_pointer::Pointer;
use wire::little_endian;
use wire::signed::{signed16, unsigned16};

pub const LENGTH: usize = 7;

// The pointer in the bytes.
#[tactic(auto, unfolding(crate::specs::PointerLayout::pointer_of))]
pub fn read(record: &[u8]) -> Pointer
    ensures { result ≡ pointer_of «record».now }
{
    Pointer {
        known: little_endian::read::<u8>(record, 0) != 0,
        sequence: little_endian::read(record, 1),
        x: signed16(little_endian::read(record, 3)),
        y: signed16(little_endian::read(record, 5)),
    }
}

// Writes the pointer in the first bytes; a slice shorter than its layout is left alone.
pub fn write(record: &mut [u8], pointer: Pointer)
    ensures { «record».new ≡ laid (pointer_bytes pointer) «record».old }
{
    if record.len() < LENGTH {
        return;
    }
    little_endian::write(record, 0, pointer.known as u8);
    little_endian::write(record, 1, pointer.sequence);
    little_endian::write(record, 3, unsigned16(pointer.x));
    little_endian::write(record, 5, unsigned16(pointer.y));
}
