// The calls of the cursor limits value over lent records. Crate ashlarsilk exports each, and says there in words what a host gets.
#![tactic(auto)]

ghost use Rattle.std.specs.Prelude.{◌≡◌};
ghost use Rattle.host_answers.specs.Answers.{answer_of, written_of};
ghost use Rattle.limits_calls.specs.LimitsCalls.{read_answer, read_record, limits_written, limits_output};

use host_answers::{Answer, Written};
use wire::status::{Refusal, Refused};

// The reading, where the record is long enough.
#[tactic(auto, unfolding(crate::specs::LimitsCalls::read_answer, crate::specs::LimitsCalls::read_record), using(limits_layout::proofs::Laws::LimitsLayout::limits_short))]
fn read_into(text: &[u8], record: &mut [u8]) -> Result<(), Refused>
    ensures answer { answer_of result ≡ read_answer text.now «record».old }
    ensures after { «record».new ≡ read_record text.now «record».old }
{
    if record.len() < limits_layout::LENGTH {
        return Err(Refusal::NoRoom.into());
    }
    let value = cursor_limits::read(text)?;
    limits_layout::write(record, value);
    Ok(())
}

// Reads a value, which is all of the lent text, into the record.
pub fn read(text: &[u8], record: &mut [u8]) -> Answer
    ensures answer { result ≡ read_answer text.now «record».old }
    ensures after { «record».new ≡ read_record text.now «record».old }
{
    read_into(text, record).into()
}

// The writing, where the record is long enough.
#[tactic(auto, unfolding(crate::specs::LimitsCalls::limits_written, crate::specs::LimitsCalls::limits_output))]
fn write_from(record: &[u8], out: &mut [u8]) -> Result<usize, Refused>
    ensures answer { written_of result ≡ limits_written «record».now out.old }
    ensures after { out.new ≡ limits_output «record».now out.old }
{
    if record.len() < limits_layout::LENGTH {
        return Err(Refusal::NoRoom.into());
    }
    cursor_limits::write(limits_layout::read(record), out)
}

// Writes the value of a record to the first bytes of `out`.
pub fn write(record: &[u8], out: &mut [u8]) -> Written
    ensures answer { result ≡ limits_written «record».now out.old }
    ensures after { out.new ≡ limits_output «record».now out.old }
{
    write_from(record, out).into()
}
