// Plays a recorded stream of calls at the cursor stream's records, which it lends as a host does, and prints what they answer. The stream is a
// file of frames of 40 bytes: the call (1 position, 2 store, any other the completeness question), the packet's length, the packet, and bytes
// that are not looked at. The picture and its marks have 40 places. A line for each 16 calls: their numbers (for the completeness question 100
// no, 101 yes), then a sum over both records, the picture and the marks.
#![tactic(auto)]

ghost use Rattle.std.specs.Prelude.{◌<◌};

use cursor_host::Host;
use cursor_layout::{picture_layout, pointer_layout};
use print::argument;
use std::env::Env;
use std::fs;
use std::io::Read;
use wire::signed;

// The calls, which a frame names by their numbers.
enum Call {
    Position,
    Store,
    Complete,
}

impl From<u8> for Call {
    fn from(number: u8) -> Call {
        match number {
            1 => Call::Position,
            2 => Call::Store,
            _ => Call::Complete,
        }
    }
}

// The sum so far and one number more.
fn add(sum: u64, n: u64) -> u64
    ensures { result < 65521 }
{
    (sum % 65521 * 31 + n % 65521) % 65521
}

fn add_bytes(sum: u64, bytes: &[u8]) -> u64 {
    bytes
        .iter()
        .fold(sum, |sum, byte| add(sum, u64::from(*byte)))
}

fn add_pointer(sum: u64, record: &[u8]) -> u64 {
    let pointer = pointer_layout::read(record);
    [
        u64::from(pointer.known),
        u64::from(pointer.sequence),
        u64::from(signed::unsigned16(pointer.x)),
        u64::from(signed::unsigned16(pointer.y)),
    ]
    .into_iter()
    .fold(sum, add)
}

fn add_picture(sum: u64, record: &[u8]) -> u64 {
    let picture = picture_layout::read(record);
    let start = picture.start;
    [
        u64::from(picture.opened),
        u64::from(picture.id),
        u64::from(picture.total),
        u64::from(picture.opening),
        u64::from(picture.seen),
        u64::from(start.image_type),
        u64::from(start.hot_x),
        u64::from(start.hot_y),
    ]
    .into_iter()
    .fold(sum, add)
}

// The sum over both records, the picture and the marks.
fn sum_of(host: &Host<40>) -> u64 {
    let records = add_picture(add_pointer(0, &host.pointer), &host.picture);
    add_bytes(add_bytes(records, &host.image), &host.marks)
}

// Makes one call, and answers its number.
fn make(call: Call, packet: &[u8], host: &mut Host<40>) -> u8 {
    match call {
        Call::Position => host.position(packet).status,
        Call::Store => host.store(packet).status,
        Call::Complete => match host.complete() {
            Ok(true) => 101,
            Ok(false) => 100,
            Err(number) => number,
        },
    }
}

// Plays one frame; answers no at the end of the file. A number that can't be written is passed over, as a later write may succeed.
fn turn<R: Read>(rt: &HostRuntime, stream: &mut R, host: &mut Host<40>) -> bool {
    let mut frame = [0; 40];
    if stream.read_exact(&mut frame).is_err() {
        return false;
    }
    let length = usize::from(frame[1]).min(38);
    let number = make(Call::from(frame[0]), &frame[2..2 + length], host);
    print!(rt; "{number} ").ok();
    true
}

// A proved loop has to end, and nothing says that a file does: the calls are counted up to a number that no run reaches.
fn play<R: Read>(rt: &HostRuntime, stream: &mut R) {
    let mut host = Host::<40>::new(46, 7);
    for calls in 1..=u64::MAX {
        if !turn(rt, stream, &mut host) {
            break;
        }
        if calls % 16 == 0 {
            println!(rt; "{} ", sum_of(&host)).ok();
        }
    }
}

fn play_file(rt: &HostRuntime, path: &str) {
    match fs::open(rt, path) {
        Ok(mut stream) => play(rt, &mut stream),
        Err(error) => print::failed(rt, path, error),
    }
}

fn main(rt: HostRuntime) {
    // As bytes that are lent: std's `args` answers one error for all arguments, and not why this one can't be had (`argument::text`).
    let mut bytes = [0; 4096];
    let got = rt.arg(1, &mut bytes);
    match argument::text(got, &bytes) {
        Ok(path) => play_file(&rt, path),
        Err(error) => print::failed(&rt, "replay: a stream's file name is needed", error),
    }
}
