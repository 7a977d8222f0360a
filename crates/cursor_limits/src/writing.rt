// The cursor limits value, written (01, "Cursor limits value": "words in small letters, hex digits in capitals"). Every record has a
// spelling, so 18 is never given; 10 is, where the output is too short.
ghost use Rattle.std.specs.Prelude.{◌≡◌, ◌≤◌, length};
ghost use Rattle.wire.specs.Laid.{laid};
ghost use Rattle.cursor_limits.specs.Writing.{spell_xor, spell_field, spell_limits, spelling, write_answer};

use crate::value::{Limits, Value, Xor};
use text::{hex, word};
use wire::status::{Refusal, Refused};

// The word for the xor support.
fn word_of(xor: Xor) -> [u8; 4]
    ensures { result ≡ spell_xor xor }
{
    match xor {
        Xor::None => *b"none",
        Xor::Full => *b"full",
    }
}

// Fills the five bytes with a space and the digits of the number.
#[tactic(auto, using(crate::proofs::Laws::Writing::field_written))]
fn write_field(out: &mut [u8], number: u16)
    requires { length out.old ≡ 5 }
    ensures { out.new ≡ spell_field number }
{
    out[0] = b' ';
    hex::write(&mut out[1..5], number);
}

// Writes limits into the first 19 bytes: the numbers in a loop, so that `write_field` has a single caller and is inlined there, and the word last,
// so that it stays one store in the compiled code.
fn write_limits(out: &mut [u8], limits: Limits)
    requires { 19 ≤ length out.old }
    ensures { out.new ≡ laid (spell_limits limits) out.old }
{
    let xor = limits.xor;
    let word = word_of(xor);
    let numbers = [limits.width, limits.height, limits.port];
    for i in 0..3 {
        let at = 4 + 5 * i;
        let end = at + 5;
        write_field(&mut out[at..end], numbers[i]);
    }
    word::copy(out, &word);
}

// Writes a value into the first bytes of `out` and answers their number; where `out` is too short, nothing changes.
#[tactic(auto, unfolding(crate::specs::Writing::write_answer), using(crate::proofs::Laws::Writing::length_limits, wire::proofs::Laws::Laid::laid_short))]
pub fn write(value: Value, out: &mut [u8]) -> Result<usize, Refused>
    ensures answer { result ≡ write_answer value (length out.old) }
    ensures bytes { out.new ≡ laid (spelling value) out.old }
{
    match value {
        Value::NotSupported => {
            if out.len() < 4 {
                return Err(Refusal::NoRoom.into());
            }
            word::copy(out, b"none");
            Ok(4)
        }
        Value::Supported(limits) => {
            if out.len() < 19 {
                return Err(Refusal::NoRoom.into());
            }
            write_limits(out, limits);
            Ok(19)
        }
    }
}
