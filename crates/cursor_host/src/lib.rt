// What a host of the cursor stream keeps and lends, for programs that run the calls: both records, and a picture and its marks of N places.
#![tactic(auto)]

pub mod shown;

ghost use Rattle.std.specs.Prelude.{◌≡◌, ◌<◌, replicate, IfErr};
ghost use Rattle.cursor_pointer.specs.Pointer.{fresh_pointer};
ghost use Rattle.cursor_picture.specs.Picture.{fresh_picture};
ghost use Rattle.wire.specs.Laid.{laid};
ghost use Rattle.cursor_layout.specs.PointerLayout.{pointer_length, pointer_bytes};
ghost use Rattle.cursor_layout.specs.PictureLayout.{picture_length, picture_bytes};
ghost use Rattle.cursor_calls.specs.CursorCalls.{after_position, cursor_position, after_store, cursor_store, cursor_complete};
ghost use Rattle.cursor_host.specs.Complete.{asked_as};

use cursor_layout::{picture_layout, pointer_layout};
use host_answers::{Answer, Yes};

#[derive(Clone, Copy)]
pub struct Host<const N: usize> {
    pub pointer: [u8; pointer_layout::LENGTH],
    pub picture: [u8; picture_layout::LENGTH],
    pub image: [u8; N],
    pub marks: [u8; N],
}

impl<const N: usize> Host<N> {
    // No position is known and no picture opened; each place of the picture holds the first byte, each of the marks the second.
    pub fn new(image: u8, marks: u8) -> Host<N>
        ensures pointer { result.pointer ≡ laid (pointer_bytes fresh_pointer) (replicate pointer_length 0) }
        ensures picture { result.picture ≡ laid (picture_bytes fresh_picture) (replicate picture_length 0) }
        ensures places { (result.image ≡ replicate N image) × (result.marks ≡ replicate N marks) }
    {
        let mut pointer = [0; pointer_layout::LENGTH];
        let mut picture = [0; picture_layout::LENGTH];
        cursor_calls::pointer_fresh(&mut pointer);
        cursor_calls::picture_fresh(&mut picture);
        Host {
            pointer,
            picture,
            image: [image; N],
            marks: [marks; N],
        }
    }

    // The call for positions.
    pub fn position(&mut self, packet: &[u8]) -> Answer
        ensures answer { after_position result self.new.pointer ≡ cursor_position self.old.pointer packet.now }
        ensures others { self.new ≡ record self.old { pointer = self.new.pointer } }
    {
        cursor_calls::position(&mut self.pointer, packet)
    }

    // The call for starts and continuations.
    pub fn store(&mut self, packet: &[u8]) -> Answer
        ensures { after_store result self.new.pointer self.new.picture self.new.image self.new.marks
            ≡ cursor_store self.old.pointer self.old.picture packet.now self.old.image self.old.marks }
    {
        cursor_calls::store(
            &mut self.pointer,
            &mut self.picture,
            packet,
            &mut self.image,
            &mut self.marks,
        )
    }

    // Whether the opened picture is complete; a refusal is answered by its number.
    pub fn complete(&self) -> Result<bool, u8>
        ensures answer { asked_as result ≡ cursor_complete self.now.picture self.now.image self.now.marks }
        ensures refusal { IfErr result (λ number. 0 < number) }
    {
        let Yes { status, yes } = cursor_calls::complete(&self.picture, &self.image, &self.marks);
        if status == 0 { Ok(yes) } else { Err(status) }
    }
}
