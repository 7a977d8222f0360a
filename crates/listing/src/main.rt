// Lists a recording of connection messages, the file that the argument names, or standard input for `-`: a line a message, with its place in
// the file, its command and its size; at the end the number of bytes, as `end 61`; at the first refusal its place and number, as
// `61 refused 1`, and nothing more. A second argument names a file to which the verdict is written, since a program has no exit status.
#![tactic(auto)]

mod buffer;
mod text;

ghost use Rattle.std.specs.Prelude.{◌≡◌, ◌+◌, ◌-◌, ◌<◌, ◌≤◌, ◌⊎◌, length, take, drop, IsSomeAnd};
ghost use Rattle.message_recording.specs.Line.{line_of};
ghost use Rattle.listing.specs.State.{Within, Lines, AllShown, decided, state_after};
ghost use Rattle.listing.specs.Text.{Put, text_of};
ghost use Rattle.listing.specs.Verdict.{verdict_number};

use message_recording::cut::needed;
use message_recording::line::{Line, first_line};
use print::argument;
use std::env::{Env, FillError};
use std::io::{Eprint, ErrorKind, Print, Read, Write};
use std::{fs, io};

// What the launcher's exit status says of a recording, by its number.
#[derive(Clone, Copy)]
enum Verdict {
    // The recording is whole.
    Whole = 0,
    // A message was refused.
    Refused = 1,
    // The recording was not read to its end, or its lines were not written.
    Failed = 2,
    // What read the lines has ended: the status that a shell shows for SIGPIPE.
    Unread = 141,
}

impl From<Verdict> for u8 {
    ghost from_gives = { λ verdict number. number ≡ verdict_number verdict };

    fn from(verdict: Verdict) -> u8 {
        verdict as u8
    }
}

// Where the listing stands. Of the buffer's bytes, those from `from` to `to` are read and not listed yet; the first of them is at `place` of
// the recording, and once the recording has `ended` no more follow. Of the lines, `used` bytes are not written yet. There is a verdict after
// the last line, and after an error.
#[derive(Clone, Copy)]
struct State {
    from: usize,
    to: usize,
    place: u64,
    used: usize,
    ended: bool,
    verdict: Option<Verdict>,
}

// Puts the line of the bytes that are not listed yet, and goes on after a message. (A place of 64 bits does not wrap: no file is as long.)
fn show(rest: &[u8], out: &mut [u8], state: State) -> State
    requires { (state.from + length rest.now ≡ state.to) × (state.used + 64 ≤ length out.old) }
    ensures state { result ≡ state_after state (line_of rest.now) result.used }
    ensures window { (result.from ≤ result.to) × (result.to ≡ state.to) }
    ensures room { result.used ≤ state.used + 64 }
    ensures text { Put out.old state.used (text_of state.place (line_of rest.now)) result.used out.new }
{
    let mut state = state;
    let line = first_line(rest);
    state.used = text::put_line(out, state.used, state.place, line);
    match line {
        Line::Message { command: _, size } => {
            state.from += size;
            state.place = state.place.wrapping_add(size as u64);
        }
        Line::Refused { refusal: _ } => {
            state.verdict = Some(Verdict::Refused);
        }
        Line::End => {
            state.verdict = Some(Verdict::Whole);
        }
    }
    state
}

// Whether the bytes that are not listed yet decide a line: they are as many as it needs, or no more follow.
fn is_decided(rest: &[u8], ended: bool) -> bool
    ensures { result ≡ decided ended rest.now }
{
    if ended {
        return true;
    }
    needed(rest) <= rest.len()
}

// Puts the lines that are decided, as long as there is room for one more.
fn show_lines(buf: &[u8], out: &mut [u8], state: State) -> State
    requires { Within buf.now out.old state }
    ensures within { Within buf.now out.new result }
    ensures lines { Lines buf.now out.old state result out.new }
    ensures all { AllShown buf.now out.new result }
{
    let mut state = state;
    while state.verdict.is_none() {
        if out.len() - state.used < 64 {
            return state;
        }
        let from = state.from;
        let to = state.to;
        let rest = &buf[from..to];
        if !is_decided(rest, state.ended) {
            return state;
        }
        state = show(rest, out, state);
    }
    state
}

// Says why the lines can't be written, and answers the verdict. Where nobody reads them any more, as after `| head -1`, nothing is wrong.
fn unwritten(rt: &HostRuntime, error: io::Error) -> Verdict
    ensures { 2 ≤ verdict_number result }
{
    if error.kind() == ErrorKind::BrokenPipe {
        return Verdict::Unread;
    }
    print::failed(rt, "standard output", error);
    Verdict::Failed
}

// A recording that is listed: where it is read, the bytes that are read and not listed yet, and the lines that are not written yet.
#[derive(Drop)]
struct Listing<'a, R> {
    rt: &'a HostRuntime,
    path: &'a str,
    input: &'a mut R,
    buf: [u8; 65536],
    out: [u8; 65536],
    state: State,
    ghost within: { Within buf out state },
}

impl<'a, R: Read> Listing<'a, R> {
    fn new(rt: &'a HostRuntime, path: &'a str, input: &'a mut R) -> Listing<'a, R> {
        Listing {
            rt,
            path,
            input,
            buf: [0; 65536],
            out: [0; 65536],
            state: State {
                from: 0,
                to: 0,
                place: 0,
                used: 0,
                ended: false,
                verdict: None,
            },
        }
    }

    // Reads once, after the bytes that are not listed yet, which are moved to the buffer's front. They leave room, so that a read of no bytes
    // is the end of the recording. No line waits to be written.
    fn read_more(&mut self)
        requires room { self.old.state.to < self.old.state.from + length self.old.buf }
        requires written { self.old.state.used ≡ 0 }
        ensures window { (self.new.state.from ≤ self.new.state.to) × (self.new.state.to ≤ length self.new.buf)
            × (self.new.state.used ≡ self.old.state.used) × (self.new.state.place ≡ self.old.state.place) }
        ensures kept { take (self.old.state.to - self.old.state.from) (drop self.new.state.from self.new.buf)
            ≡ take (self.old.state.to - self.old.state.from) (drop self.old.state.from self.old.buf) }
        ensures lines { (self.new.out ≡ self.old.out) × (length self.new.buf ≡ length self.old.buf) }
    {
        let kept = buffer::move_to_front(&mut self.buf, self.state.from, self.state.to);
        self.state.from = 0;
        self.state.to = kept;
        match self.input.read(&mut self.buf[kept..]) {
            Err(error) => {
                print::failed(self.rt, self.path, error);
                self.state.verdict = Some(Verdict::Failed);
            }
            Ok(more) => {
                self.state.to = kept + more;
                self.state.ended = more == 0;
            }
        }
    }

    // Writes the lines that are there. Where that fails, the verdict is no longer what the lines say.
    fn write_lines(&mut self)
        ensures kept { (self.new.state.from ≡ self.old.state.from) × (self.new.state.to ≡ self.old.state.to) × (self.new.state.used ≡ 0) }
        ensures verdict { (self.new.state.verdict ≡ self.old.state.verdict) ⊎ IsSomeAnd self.new.state.verdict (λ verdict. 2 ≤ verdict_number verdict) }
        ensures bytes { (self.new.buf ≡ self.old.buf) × (self.new.out ≡ self.old.out) }
    {
        let used = self.state.used;
        if let Err(error) = self.rt.write_all(&self.out[..used]) {
            self.state.verdict = Some(unwritten(self.rt, error));
        }
        self.state.used = 0;
    }

    // Puts the lines that are decided, and writes them: before they leave no room for the next, and before a read, which may have to wait
    // for more of a pipe. Where there are none, and there is no verdict yet, reads once.
    fn step(&mut self) {
        self.state = show_lines(&self.buf, &mut self.out, self.state);
        if self.state.used > 0 {
            self.write_lines();
        } else if self.state.verdict.is_none() {
            self.read_more();
        }
    }

    // Lists the recording, and answers the verdict. A proved loop has to end, and nothing says that a file does: no run uses the turns up.
    fn list(&mut self) -> Verdict {
        for _ in 0..u64::MAX {
            if self.state.verdict.is_some() {
                break;
            }
            self.step();
        }
        self.write_lines();
        self.state.verdict.unwrap_or(Verdict::Failed)
    }
}

// Lists the file of that name, or standard input for `-`, and answers the verdict.
fn list_file(rt: &HostRuntime, path: &str) -> Verdict {
    if path == "-" {
        return Listing::new(rt, path, &mut rt.stdin()).list();
    }
    match fs::open(rt, path) {
        Ok(mut file) => Listing::new(rt, path, &mut file).list(),
        Err(error) => {
            print::failed(rt, path, error);
            Verdict::Failed
        }
    }
}

// Writes the verdict's number to a file, which it makes, or empties where it is there.
fn write_verdict(rt: &HostRuntime, path: &str, verdict: Verdict) -> io::Result<()> {
    let mut file = fs::create(rt, path)?;
    write!(file, "{}", u8::from(verdict))
}

// Writes the verdict to the file that the second argument names.
fn tell(rt: &HostRuntime, verdict: Verdict) {
    // As in `main`.
    let mut bytes = [0u8; 4096];
    let got = rt.arg(2, &mut bytes);
    match argument::text(got, &bytes) {
        Ok(path) => {
            if let Err(error) = write_verdict(rt, path, verdict) {
                print::failed(rt, path, error);
            }
        }
        Err(error) => print::failed(rt, "path", error),
    }
}

// Whether there is an argument of that number.
fn has_argument(rt: &HostRuntime, number: usize) -> bool {
    let mut none = [0u8; 0];
    !matches!(rt.arg(number, &mut none), Err(FillError::NotPresent))
}

fn main(rt: HostRuntime) {
    if !has_argument(&rt, 1) || has_argument(&rt, 3) {
        rt.eprintln("usage: listing FILE [VERDICT]").ok();
        return;
    }
    // As bytes that are lent: std's `args` answers one error for all arguments, and not why this one can't be had (`argument::text`).
    let mut bytes = [0u8; 4096];
    let got = rt.arg(1, &mut bytes);
    match argument::text(got, &bytes) {
        Ok(path) => {
            let verdict = list_file(&rt, path);
            if has_argument(&rt, 2) {
                tell(&rt, verdict);
            }
        }
        Err(error) => print::failed(&rt, "path", error),
    }
}
