// The opened picture as 15 bytes.
//
//   place  bytes
//       0      1  whether a picture is opened
//       1      2  its id
//       3      4  its total
//       7      2  the sequence number of the packet that opened it
//       9      1  whether a start was seen
//      10      1  the start's image type
//      11      2  the start's hot spot, x
//      13      2  and y
ghost use Rattle.std.specs.Prelude.{◌≡◌, ◌≤◌, length};
ghost use Rattle.wire.specs.Splice.{splice};
ghost use Rattle.wire.specs.Laid.{laid};
ghost use Rattle.cursor_layout.specs.PictureLayout.{picture_length, start_bytes, picture_bytes, picture_of, picture_left};

use cursor_fragment::start::Start;
use cursor_picture::Picture;
use wire::little_endian;

pub const LENGTH: usize = 15;

// The picture in the bytes.
#[tactic(auto, unfolding(crate::specs::PictureLayout::picture_of))]
pub fn read(record: &[u8]) -> Picture
    ensures { result ≡ picture_of «record».now }
{
    Picture {
        opened: little_endian::read::<u8>(record, 0) != 0,
        id: little_endian::read(record, 1),
        total: little_endian::read(record, 3),
        opening: little_endian::read(record, 7),
        seen: little_endian::read::<u8>(record, 9) != 0,
        start: Start {
            image_type: little_endian::read(record, 10),
            hot_x: little_endian::read(record, 11),
            hot_y: little_endian::read(record, 13),
        },
    }
}

// Writes whether a start was seen, and its own fields, in the places from 9 on.
fn write_start(record: &mut [u8], seen: bool, start: Start)
    requires { picture_length ≤ length «record».old }
    ensures { «record».new ≡ splice 9 (start_bytes seen start) «record».old }
{
    little_endian::write(record, 9, seen as u8);
    little_endian::write(record, 10, start.image_type);
    little_endian::write(record, 11, start.hot_x);
    little_endian::write(record, 13, start.hot_y);
}

// Writes the picture in the first bytes; a slice shorter than its layout is left alone.
pub fn write(record: &mut [u8], picture: Picture)
    ensures { «record».new ≡ laid (picture_bytes picture) «record».old }
{
    if record.len() < LENGTH {
        return;
    }
    little_endian::write(record, 0, picture.opened as u8);
    little_endian::write(record, 1, picture.id);
    little_endian::write(record, 3, picture.total);
    little_endian::write(record, 7, picture.opening);
    write_start(record, picture.seen, picture.start);
}

// Writes the picture where it is another than the one before; else each byte of the record stays, also of a flag that is neither 0 nor 1.
#[tactic(auto, unfolding(crate::specs::PictureLayout::picture_left))]
pub fn change(record: &mut [u8], before: Picture, after: Picture)
    ensures { «record».new ≡ picture_left before after «record».old }
{
    if !cursor_picture::same(before, after) {
        write(record, after);
    }
}
