// What the call for starts and continuations makes of a fragment: whether it is stored, or refused with 10, 12, 13 or 11. Nothing is
// changed here.
ghost use Rattle.std.specs.Prelude.{◌≡◌, ◌+◌, ◌≤◌, length};
ghost use Rattle.wire.specs.Checks.{first_of};
ghost use Rattle.cursor_store.specs.Judging.{of_opened, start_differs, other_rules, judging};

use cursor_fragment::{Fragment, start};
use cursor_picture::Picture;
use scan::conflict;
use wire::sequence;
use wire::status::{Refusal, Status};

// Whether a picture is opened and the fragment is of its id.
#[tactic(auto, unfolding(crate::specs::Judging::of_opened))]
pub(crate) fn of_opened(picture: Picture, fragment: Fragment) -> bool
    ensures { result ≡ of_opened picture fragment }
{
    picture.opened && picture.id == fragment.id
}

// Whether the fragment is a second start that differs in its own fields.
#[tactic(auto, unfolding(crate::specs::Judging::start_differs))]
fn start_differs(picture: Picture, fragment: Fragment) -> bool
    ensures { result ≡ start_differs picture fragment }
{
    fragment
        .start
        .is_some_and(|new| picture.seen && !start::same(picture.start, new))
}

// A fragment of another id, or where no picture is opened: it opens a picture if it is newer, else it is 11.
#[tactic(auto, unfolding(crate::specs::Judging::other_rules, wire::specs::Checks::first_of))]
fn judge_other(picture: Picture, fragment: Fragment) -> Status
    ensures { result ≡ first_of (other_rules picture fragment) }
{
    if sequence::newer(picture.opened, picture.opening, fragment.sequence) {
        return Ok(());
    }
    Err(Refusal::NotNewer)
}

// The first refusal, or accepted: 10 where there is no room for the fragment's total; of another id than the opened one's, 11; of the opened
// id another total is 12, a conflict 13, and its sequence number is not looked at.
#[tactic(auto, unfolding(crate::specs::Judging::judging, crate::specs::Judging::opened_rules, crate::specs::Judging::bytes_differ, wire::specs::Checks::first_of, cursor_picture::specs::Picture::has_room))]
pub(crate) fn judge(
    picture: Picture,
    fragment: Fragment,
    data: &[u8],
    image: &[u8],
    marks: &[u8],
) -> Status
    requires { fragment.offset + length «data».now ≤ fragment.total }
    ensures { result ≡ first_of (judging picture fragment «data».now image.now marks.now) }
{
    if !cursor_picture::has_room(fragment.total, image.len(), marks.len()) {
        return Err(Refusal::NoRoom);
    }
    if !of_opened(picture, fragment) {
        return judge_other(picture, fragment);
    }
    if picture.total != fragment.total {
        return Err(Refusal::TotalDiffers);
    }
    let at = fragment.offset as usize;
    let end = at + data.len();
    if start_differs(picture, fragment) || conflict::found(&marks[at..end], &image[at..end], data) {
        return Err(Refusal::Conflict);
    }
    Ok(())
}
