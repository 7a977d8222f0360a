// Runs the calls of `wire` and prints what they answer: numbers read at each place of seven bytes, numbers written at each place of four,
// how many of all sequence numbers are newer than some, and the number of each status.
#![tactic(auto)]

use wire::status::Refusal;
use wire::unsigned::Unsigned;
use wire::{number, sequence, signed, status};

// The numbers at one place: the place, then one, two and four bytes unsigned, two bytes signed.
fn read_line(rt: &HostRuntime, at: usize) {
    let bytes = b"\x80\x00\xff\xfe\x7f\x01\x1c";
    let one = number::read::<u8>(bytes, at);
    let two = number::read::<u16>(bytes, at);
    let four = number::read::<u32>(bytes, at);
    println!(rt; "read {at} {one} {two} {four} {}", signed::signed16(two)).ok();
}

// What a number written at one place leaves in four bytes of 9: the number of bytes written, the place, whether they fit, and the four.
fn write_line<N: Unsigned>(rt: &HostRuntime, at: usize, v: N) {
    let mut out = [9; 4];
    let fits = number::write(&mut out, at, v);
    let [a, b, c, d] = out;
    println!(rt; "write {} {at} {} {a} {b} {c} {d}", N::WIDTH, fits as u8).ok();
}

// FE, 1C44 and FFFFFFF6 (−10), each written at the place.
fn write_lines(rt: &HostRuntime, at: usize) {
    write_line(rt, at, 0xfe_u8);
    write_line(rt, at, 0x1c44_u16);
    write_line(rt, at, 0xfffffff6_u32);
}

// How many of all sequence numbers are newer than `last`. A sum over `0..65536` compiles to vector instructions; to count what a filter leaves of
// `0..=u16::MAX` takes five times as many.
fn count_newer(known: bool, last: u16) -> u32 {
    (0..65536_u32).fold(0, |count: u32, new| {
        count.wrapping_add(sequence::newer(known, last, new as u16) as u32)
    })
}

// Whether `last` is known, `last`, how many numbers are newer, and whether those 0, 1, 32,767, 32,768 and 65,535 ahead are.
fn newer_line(rt: &HostRuntime, known: bool, last: u16) {
    let count = count_newer(known, last);
    print!(rt; "newer {} {last} {count}", known as u8).ok();
    for ahead in [0u16, 1, 32767, 32768, 65535] {
        let is_newer = sequence::newer(known, last, last.wrapping_add(ahead));
        print!(rt; " {}", is_newer as u8).ok();
    }
    println!(rt; "").ok();
}

fn status_line(rt: &HostRuntime) {
    print!(rt; "status {}", status::number(Ok(()))).ok();
    for refusal in [
        Refusal::Truncated,
        Refusal::WrongSize,
        Refusal::WrongHeader,
        Refusal::UnknownKind,
        Refusal::TlvTruncated,
        Refusal::TlvLength,
        Refusal::TlvRepeated,
        Refusal::TlvUnexpected,
        Refusal::OutsideImage,
        Refusal::NoRoom,
        Refusal::NotNewer,
        Refusal::TotalDiffers,
        Refusal::Conflict,
        Refusal::UnexpectedEvent,
        Refusal::OtherSource,
        Refusal::NotGrammar,
        Refusal::ImageNotHeld,
        Refusal::NotWritable,
    ] {
        print!(rt; " {}", status::number(Err(refusal))).ok();
    }
    println!(rt; "").ok();
}

fn run(rt: &HostRuntime) {
    for at in 0..=7 {
        read_line(rt, at);
    }
    read_line(rt, usize::MAX);
    for at in 0..=4 {
        write_lines(rt, at);
    }
    write_lines(rt, usize::MAX);
    newer_line(rt, false, 0);
    for last in [0u16, 1, 32767, 32768, 65535] {
        newer_line(rt, true, last);
    }
    status_line(rt);
}

// A line that can't be written is passed over, as a later write may succeed; the status is 0.
fn main(rt: HostRuntime) {
    run(&rt);
}
