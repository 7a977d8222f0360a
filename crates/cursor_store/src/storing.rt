// What an accepted start or continuation does, and the call that takes them.
ghost use Rattle.std.specs.Prelude.{◌≡◌, ◌+◌, ◌≤◌, length, replicate};
ghost use Rattle.wire.specs.Splice.{splice};
ghost use Rattle.cursor_store.specs.Assembling.{outcome, opened_by, opened_for, cleared_for, with_start, fragment_assembled, assembled};
ghost use Rattle.cursor_store.specs.Storing.{moves, pointer_after, stored};

use super::judging;
use cursor_fragment::start::Start;
use cursor_fragment::{Fragment, start};
use cursor_picture::Picture;
use cursor_pointer::Pointer;
use scan::bytes;
use wire::sequence;
use wire::status::{Refusal, Refused};

// The records as an accepted fragment leaves them.
#[derive(Clone, Copy)]
pub struct Stored {
    pub pointer: Pointer,
    pub picture: Picture,
}

// The record of a picture that this fragment opens.
#[tactic(auto, unfolding(crate::specs::Assembling::opened_by))]
fn opened_by(fragment: Fragment) -> Picture
    ensures { result ≡ opened_by fragment }
{
    Picture {
        opened: true,
        id: fragment.id,
        total: fragment.total,
        opening: fragment.sequence,
        seen: false,
        start: Start::none(),
    }
}

// Opens a picture if the fragment is of another id than the opened one: the marks of its places become 0. Answers the record of the
// picture that the fragment belongs to.
#[tactic(auto, unfolding(crate::specs::Assembling::opened_for, crate::specs::Assembling::cleared_for, wire::specs::Splice::splice))]
fn open_for(picture: Picture, fragment: Fragment, marks: &mut [u8]) -> Picture
    requires { fragment.total ≤ length marks.old }
    ensures record { result ≡ opened_for picture fragment }
    ensures marks { marks.new ≡ cleared_for picture fragment marks.old }
{
    if judging::of_opened(picture, fragment) {
        return picture;
    }
    let total = fragment.total as usize;
    bytes::fill(&mut marks[0..total], 0);
    opened_by(fragment)
}

// Stores the data at its offset, and marks the places that it covers. The part of the picture from the offset, of the data's length, is
// lent on.
#[tactic(auto, using(scan::proofs::Laws::Bytes::copied_all, wire::proofs::Laws::Splice::part_back), unfolding(wire::specs::Splice::splice))]
fn put(offset: u32, data: &[u8], image: &mut [u8], marks: &mut [u8])
    requires { (offset + length «data».now ≤ length image.old) × (offset + length «data».now ≤ length marks.old) }
    ensures bytes { image.new ≡ splice offset «data».now image.old }
    ensures marks { marks.new ≡ splice offset (replicate (length «data».now) 1) marks.old }
{
    let at = offset as usize;
    let end = at + data.len();
    bytes::copy(&mut image[at..end], data);
    bytes::fill(&mut marks[at..end], 1);
}

// The record after a fragment: a start's own fields, if it is one.
#[tactic(auto, unfolding(crate::specs::Assembling::with_start))]
fn with_start(picture: Picture, fragment: Fragment) -> Picture
    ensures { result ≡ with_start fragment picture }
{
    match fragment.start {
        Some(start) => Picture {
            seen: true,
            start,
            ..picture
        },
        None => picture,
    }
}

// Judges a fragment, and stores it if it is accepted. Picture and marks stay two slices, as a host lends them: a struct of both would be taken
// apart again at each call.
#[tactic(auto, using(crate::proofs::Laws::Judging::judged_fits), unfolding(crate::specs::Assembling::fragment_assembled, crate::specs::Assembling::assembled_as, crate::specs::Assembling::image_after, crate::specs::Assembling::marks_after, crate::specs::Assembling::picture_after))]
fn take(
    picture: Picture,
    fragment: Fragment,
    data: &[u8],
    image: &mut [u8],
    marks: &mut [u8],
) -> Result<Picture, Refusal>
    requires { fragment.offset + length «data».now ≤ fragment.total }
    ensures { outcome result image.new marks.new ≡ fragment_assembled picture fragment «data».now image.old marks.old }
{
    judging::judge(picture, fragment, data, image, marks)?;
    let opened = open_for(picture, fragment, marks);
    put(fragment.offset, data, image, marks);
    Ok(with_start(opened, fragment))
}

// The picture's part of the call for starts and continuations: the record of the picture as the fragment leaves it, or the first refusal in
// 01's order, which changes nothing.
#[tactic(auto, using(crate::proofs::Laws::Assembling::not_held, crate::proofs::Laws::Assembling::refused, crate::proofs::Laws::Assembling::taken, crate::proofs::Laws::Assembling::parsed_inside))]
pub fn assemble(
    picture: Picture,
    packet: &[u8],
    image: &mut [u8],
    marks: &mut [u8],
) -> Result<Picture, Refusal>
    ensures { outcome result image.new marks.new ≡ assembled picture packet.now image.old marks.old }
{
    if !cursor_picture::is_held(picture, image.len(), marks.len()) {
        return Err(Refusal::ImageNotHeld);
    }
    let fragment = cursor_fragment::parse(packet)?;
    let data = cursor_fragment::image_data(packet, fragment.start.is_some());
    take(picture, fragment, data, image, marks)
}

// Whether an accepted packet moves the pointer: a start that is newer. A yes or no beside the pointer of `moved_by`: PROMISES and the theorem
// `cursor_store Storing.PointerKept` name both.
#[tactic(auto, unfolding(crate::specs::Storing::moves))]
pub fn moves(pointer: Pointer, packet: &[u8]) -> bool
    ensures { result ≡ moves pointer packet.now }
{
    let position = start::position(packet);
    cursor_fragment::is_start(packet)
        && sequence::newer(pointer.known, pointer.sequence, position.sequence)
}

// The pointer's part: moved by an accepted packet that is a newer start. Whether it is moved says `moves`, which the theorem names too.
#[tactic(auto, unfolding(crate::specs::Storing::pointer_after))]
pub fn moved_by(pointer: Pointer, packet: &[u8]) -> Pointer
    ensures { result ≡ pointer_after pointer packet.now }
{
    if cursor_fragment::is_start(packet) {
        return cursor_pointer::moved(pointer, start::position(packet));
    }
    pointer
}

// The call for starts and continuations, which takes types 2 and 3 only: the picture's part and then the pointer's. A refusal changes no byte.
#[tactic(auto, unfolding(crate::specs::Storing::stored))]
pub fn store(
    pointer: Pointer,
    picture: Picture,
    packet: &[u8],
    image: &mut [u8],
    marks: &mut [u8],
) -> Result<Stored, Refused>
    ensures { outcome result image.new marks.new ≡ stored pointer picture packet.now image.old marks.old }
{
    let opened = assemble(picture, packet, image, marks)?;
    Ok(Stored {
        pointer: moved_by(pointer, packet),
        picture: opened,
    })
}
