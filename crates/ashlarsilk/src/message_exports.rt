// The calls of connection messages, for hosts.
ghost use Rattle.std.specs.Prelude.{◌≡◌};
ghost use Rattle.message_calls.specs.MessageCalls.{read_answer, read_record, message_written, message_output, port_answer, options_answer};
ghost use Rattle.message_calls.specs.MessageCalls.{source_answer, source_lent};

use host_answers::{Answer, Number, Written, Yes};

// Reads a message, which is all of the lent bytes, into the record. Answers 0, or the reader's refusal and its place, or 10 where the record
// is short. A refusal leaves the record as it was.
#[unsafe(no_mangle)]
pub extern "C" fn ashlarsilk_message_read(bytes: &[u8], record: &mut [u8]) -> Answer
    ensures answer { result ≡ read_answer bytes.now «record».old }
    ensures after { «record».new ≡ read_record bytes.now «record».old }
{
    message_calls::read(bytes, record)
}

// Writes the message of a record, whose values stand in the lent bytes, to the first bytes of `out`. Answers 0 and the number of bytes
// written, or the writer's refusal, or 10 where the record is short. A refusal leaves `out` as it was.
#[unsafe(no_mangle)]
pub extern "C" fn ashlarsilk_message_write(bytes: &[u8], record: &[u8], out: &mut [u8]) -> Written
    ensures answer { result ≡ message_written bytes.now «record».now out.old }
    ensures after { out.new ≡ message_output bytes.now «record».now out.old }
{
    message_calls::write(bytes, record, out)
}

// The RTSP port of a record, whose values stand in the lent bytes. Answers 0 and the port, which is 0 where there is none, or 10 where the
// record is short.
#[unsafe(no_mangle)]
pub extern "C" fn ashlarsilk_message_rtsp_port(bytes: &[u8], record: &[u8]) -> Number
    ensures { result ≡ port_answer bytes.now «record».now }
{
    message_calls::rtsp_port(bytes, record)
}

// The option byte of a record, the first of the Security Options. Answers 0 and the byte, which is 0 where there are none, or 10 where the
// record is short.
#[unsafe(no_mangle)]
pub extern "C" fn ashlarsilk_message_security_options(bytes: &[u8], record: &[u8]) -> Number
    ensures { result ≡ options_answer bytes.now «record».now }
{
    message_calls::security_options(bytes, record)
}

// Whether a record has a Source ID; if so, it is copied to the first 16 bytes of `id`. Answers 0 and yes or no, or 10 where the record or `id`
// is short; without a yes `id` stays as it was.
#[unsafe(no_mangle)]
pub extern "C" fn ashlarsilk_message_source_id(bytes: &[u8], record: &[u8], id: &mut [u8]) -> Yes
    ensures answer { result ≡ source_answer bytes.now «record».now id.old }
    ensures after { id.new ≡ source_lent bytes.now «record».now id.old }
{
    message_calls::source_id(bytes, record, id)
}
