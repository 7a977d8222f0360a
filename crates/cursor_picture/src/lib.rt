// The record of the opened picture, and in `completeness` the question whether it is complete. Beside the record the host lends the picture
// itself, the bytes of the cursor image, and marks, one byte a place: zero means empty, else filled. The places of a picture are 0 to its
// total − 1; lent bytes and marks beyond them are no places of it. Picture and marks are two slices throughout, since the C call lends them apart.
#![tactic(auto)]

pub mod completeness;

ghost use Rattle.std.specs.Prelude.{◌≡◌};
ghost use Rattle.cursor_picture.specs.Picture.{fresh_picture, same_picture, has_room, held};

pub use completeness::complete;
use cursor_fragment::start::Start;

// Where no picture is opened the other fields are not looked at; where no start was seen the start fields are not. Flags and no Option, since a
// host's record may hold any bytes beside a flag of 0, and they read back (`cursor_layout PictureReadsBack`).
#[derive(Clone, Copy, PartialEq, Eq)]
pub struct Picture {
    pub opened: bool,
    pub id: u16,
    pub total: u32,
    // The sequence number of the packet that opened the picture.
    pub opening: u16,
    // Whether a start was seen, and its own fields.
    pub seen: bool,
    pub start: Start,
}

impl Picture {
    // The largest total: 256 by 256 at four bytes.
    pub const LARGEST: u32 = 262144;

    // No picture is opened.
    #[tactic(auto, unfolding(crate::specs::Picture::fresh_picture))]
    pub fn fresh() -> Picture
        ensures { result ≡ fresh_picture }
    {
        Picture {
            opened: false,
            id: 0,
            total: 0,
            opening: 0,
            seen: false,
            start: Start::none(),
        }
    }
}

// Whether two records are the same in every field.
#[tactic(auto, unfolding(crate::specs::Picture::same_picture, cursor_fragment::specs::Start::same_start))]
pub fn same(a: Picture, b: Picture) -> bool
    ensures { result ≡ same_picture a b }
{
    a == b
}

// Whether a total is no larger than the largest, the lent picture and the lent marks.
#[tactic(auto, unfolding(crate::specs::Picture::has_room))]
pub fn has_room(total: u32, image: usize, marks: usize) -> bool
    ensures { result ≡ has_room total image marks }
{
    let places = total as usize;
    total <= Picture::LARGEST && places <= image && places <= marks
}

// Whether the opened picture, if there is one, has room: else each call lent a picture is refused with 17.
#[tactic(auto, unfolding(crate::specs::Picture::held))]
pub fn is_held(picture: Picture, image: usize, marks: usize) -> bool
    ensures { result ≡ held picture image marks }
{
    !picture.opened || has_room(picture.total, image, marks)
}
