// The calls of the cursor stream, for hosts.
ghost use Rattle.std.specs.Prelude.{◌≡◌, length};
ghost use Rattle.cursor_pointer.specs.Pointer.{fresh_pointer};
ghost use Rattle.cursor_picture.specs.Picture.{fresh_picture};
ghost use Rattle.wire.specs.Laid.{laid};
ghost use Rattle.cursor_layout.specs.PointerLayout.{pointer_length, pointer_bytes};
ghost use Rattle.cursor_layout.specs.PictureLayout.{picture_length, picture_bytes};
ghost use Rattle.host_answers.specs.Fresh.{fresh_answer};
ghost use Rattle.cursor_calls.specs.CursorCalls.{after_position, cursor_position, after_store, cursor_store, cursor_complete};

use host_answers::{Answer, Yes};

// Writes that no position is known. Answers 0, or 10 where the pointer's record is shorter than its layout; its bytes then stay as they are.
#[unsafe(no_mangle)]
pub extern "C" fn ashlarsilk_pointer_fresh(pointer: &mut [u8]) -> u8
    ensures answer { result ≡ fresh_answer pointer_length (length pointer.old) }
    ensures bytes { pointer.new ≡ laid (pointer_bytes fresh_pointer) pointer.old }
{
    cursor_calls::pointer_fresh(pointer)
}

// Writes that no picture is opened. Answers 0, or 10 where the picture's record is shorter than its layout; its bytes then stay as they are.
#[unsafe(no_mangle)]
pub extern "C" fn ashlarsilk_picture_fresh(picture: &mut [u8]) -> u8
    ensures answer { result ≡ fresh_answer picture_length (length picture.old) }
    ensures bytes { picture.new ≡ laid (picture_bytes fresh_picture) picture.old }
{
    cursor_calls::picture_fresh(picture)
}

// The call for positions. Answers 0 and leaves the position in the pointer's record, or answers the refusal, 10 where that record is
// shorter than its layout, and changes nothing.
#[unsafe(no_mangle)]
pub extern "C" fn ashlarsilk_cursor_position(pointer: &mut [u8], packet: &[u8]) -> Answer
    ensures { after_position result pointer.new ≡ cursor_position pointer.old packet.now }
{
    cursor_calls::position(pointer, packet)
}

// The call for starts and continuations. Answers 0, stores the data in the image with its marks, and leaves both records as the fragment
// sets them, each byte as it was where it sets nothing; or answers the refusal, 10 where a record is shorter than its layout, and changes nothing.
#[unsafe(no_mangle)]
pub extern "C" fn ashlarsilk_cursor_store(
    pointer: &mut [u8],
    picture: &mut [u8],
    packet: &[u8],
    image: &mut [u8],
    marks: &mut [u8],
) -> Answer
    ensures { after_store result pointer.new picture.new image.new marks.new ≡ cursor_store pointer.old picture.old packet.now image.old marks.old }
{
    cursor_calls::store(pointer, picture, packet, image, marks)
}

// Whether the opened picture is complete: a start of it was seen, and every place is filled. Answers 0 with yes or no, or the refusal with
// no, 10 where the picture's record is shorter than its layout. Changes nothing.
#[unsafe(no_mangle)]
pub extern "C" fn ashlarsilk_cursor_complete(picture: &[u8], image: &[u8], marks: &[u8]) -> Yes
    ensures { result ≡ cursor_complete picture.now image.now marks.now }
{
    cursor_calls::complete(picture, image, marks)
}
