// The completeness question.
ghost use Rattle.std.specs.Prelude.{◌≡◌, ◌≤◌, length};
ghost use Rattle.cursor_picture.specs.Completeness.{first_empty_of, completeness};

use super::{Picture, is_held};
use scan::empty;
use wire::status::{Refusal, Refused};

// The place of the first empty mark below the total, or the total where each is filled.
#[tactic(auto, unfolding(crate::specs::Completeness::first_empty_of))]
fn first_empty(marks: &[u8], total: usize) -> usize
    requires { total ≤ length marks.now }
    ensures { result ≡ first_empty_of marks.now total }
{
    empty::first(&marks[..total])
}

// Whether a start of the opened picture was seen and every place is filled; with no picture opened, no.
#[tactic(auto, unfolding(crate::specs::Completeness::completeness, crate::specs::Picture::held, crate::specs::Picture::has_room))]
pub fn complete(picture: Picture, image: &[u8], marks: &[u8]) -> Result<bool, Refused>
    ensures { result ≡ completeness picture (length image.now) marks.now }
{
    if !is_held(picture, image.len(), marks.len()) {
        return Err(Refusal::ImageNotHeld.into());
    }
    let total = picture.total as usize;
    Ok(picture.opened && picture.seen && first_empty(marks, total) == total)
}
