// The calls of the session, for hosts.
ghost use Rattle.std.specs.Prelude.{◌≡◌, length};
ghost use Rattle.session_table.specs.Record.{fresh_session};
ghost use Rattle.wire.specs.Laid.{laid};
ghost use Rattle.session_layout.specs.SessionLayout.{session_bytes};
ghost use Rattle.host_answers.specs.Fresh.{fresh_answer};
ghost use Rattle.session_calls.specs.SessionCalls.{step_result, session_step, session_message};

use host_answers::Step;

// Writes the session of a new connection. Answers 0, or 10 where the record has fewer than 19 bytes, which then stay as they are.
#[unsafe(no_mangle)]
pub extern "C" fn ashlarsilk_session_fresh(record: &mut [u8]) -> u8
    ensures answer { result ≡ fresh_answer 19 (length «record».old) }
    ensures bytes { «record».new ≡ laid (session_bytes fresh_session) «record».old }
{
    session_calls::fresh(record)
}

// A step with an event: 1 to 6 the commands of messages, 7 handshake done, 8 PIN right, 9 PIN wrong, 10 connection lost. With a message
// `source` has no bytes where it carries no Source ID, else the Source ID in its first 16; with any other event it is not looked at. Answers 0
// or the refusal: 10 where the record has fewer than 19 bytes; 4; 10 where with a message `source` has 1 to 15 bytes; 15; 14. An accepted step
// leaves the session afterwards in the record, and each byte as it was where that is the same session; 14 in an open session leaves the state
// Closed there; any other refusal changes nothing.
#[unsafe(no_mangle)]
pub extern "C" fn ashlarsilk_session_step(
    record: &mut [u8],
    event: u8,
    source: &[u8],
    options: u8,
) -> Step
    ensures { step_result result «record».new ≡ session_step «record».old event source.now options }
{
    session_calls::on_event(record, event, source, options)
}

// A step with a message, which is all of the lent bytes. Answers 0 or the refusal, the reader's with its place, and 10 where the record has
// fewer than 19 bytes. The record is left as by a step with an event.
#[unsafe(no_mangle)]
pub extern "C" fn ashlarsilk_session_message(record: &mut [u8], bytes: &[u8]) -> Step
    ensures { step_result result «record».new ≡ session_message «record».old bytes.now }
{
    session_calls::on_message(record, bytes)
}
