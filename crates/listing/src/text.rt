// A line as text (01, "Session listing"), put into bytes that are written later.
ghost use Rattle.std.specs.Prelude.{◌+◌, ◌<◌, ◌≤◌, length};
ghost use Rattle.listing.specs.Text.{Put, decimal, message_text, refused_text, end_text, text_of};

use message_recording::line::Line;

// Puts `text` from `at` on, and answers the place after it.
fn put(out: &mut [u8], at: usize, text: &[u8]) -> usize
    requires { at + length text.now ≤ length out.old }
    ensures { Put out.old at text.now result out.new }
{
    let end = at + text.len();
    out[at..end].copy_from_slice(text);
    end
}

// Puts n in decimal, at most 20 digits.
fn put_number(out: &mut [u8], at: usize, n: u64) -> usize
    requires { at + 20 ≤ length out.old }
    ensures put { Put out.old at (decimal n) result out.new }
    ensures upper_bound { result ≤ at + 20 }
{
    let mut buffer = itoa::Buffer::new();
    put(out, at, buffer.format(n).as_bytes())
}

fn put_message(out: &mut [u8], at: usize, place: u64, command: u8, size: usize) -> usize
    requires { at + 64 ≤ length out.old }
    ensures put { Put out.old at (message_text place command size) result out.new }
    ensures upper_bound { result ≤ at + 64 }
{
    let at = put_number(out, at, place);
    let at = put(out, at, b" ");
    let at = put_number(out, at, command as u64);
    let at = put(out, at, b" ");
    let at = put_number(out, at, size as u64);
    put(out, at, b"\n")
}

fn put_refused(out: &mut [u8], at: usize, place: u64, number: u8) -> usize
    requires { at + 64 ≤ length out.old }
    ensures put { Put out.old at (refused_text place number) result out.new }
    ensures upper_bound { result ≤ at + 64 }
{
    let at = put_number(out, at, place);
    let at = put(out, at, b" refused ");
    let at = put_number(out, at, number as u64);
    put(out, at, b"\n")
}

fn put_end(out: &mut [u8], at: usize, place: u64) -> usize
    requires { at + 64 ≤ length out.old }
    ensures put { Put out.old at (end_text place) result out.new }
    ensures upper_bound { result ≤ at + 64 }
{
    let at = put(out, at, b"end ");
    let at = put_number(out, at, place);
    put(out, at, b"\n")
}

// Puts the line of `place` from `at` on, and answers the place after it. No line is longer than 64 bytes.
pub(crate) fn put_line(out: &mut [u8], at: usize, place: u64, line: Line) -> usize
    requires { at + 64 ≤ length out.old }
    ensures put { Put out.old at (text_of place line) result out.new }
    ensures upper_bound { result ≤ at + 64 }
{
    match line {
        Line::Message { command, size } => put_message(out, at, place, command, size),
        Line::Refused { refusal } => put_refused(out, at, place, refusal.into()),
        Line::End => put_end(out, at, place),
    }
}
