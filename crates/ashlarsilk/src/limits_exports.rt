// The calls of the cursor limits value, for hosts.
ghost use Rattle.std.specs.Prelude.{◌≡◌};
ghost use Rattle.limits_calls.specs.LimitsCalls.{read_answer, read_record, limits_written, limits_output};

use host_answers::{Answer, Written};

// Reads a value, which is all of the lent text, into the record. Answers 0, or the reader's refusal and its place, or 10 where the record is
// short. A refusal leaves the record as it was.
#[unsafe(no_mangle)]
pub extern "C" fn ashlarsilk_limits_read(text: &[u8], record: &mut [u8]) -> Answer
    ensures answer { result ≡ read_answer text.now «record».old }
    ensures after { «record».new ≡ read_record text.now «record».old }
{
    limits_calls::read(text, record)
}

// Writes the value of a record to the first bytes of `out`. Answers 0 and the number of bytes written, or 10 where `out` or the record is
// short. A refusal leaves `out` as it was.
#[unsafe(no_mangle)]
pub extern "C" fn ashlarsilk_limits_write(record: &[u8], out: &mut [u8]) -> Written
    ensures answer { result ≡ limits_written «record».now out.old }
    ensures after { out.new ≡ limits_output «record».now out.old }
{
    limits_calls::write(record, out)
}
