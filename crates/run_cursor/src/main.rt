// Runs the calls of the cursor stream as a host does, on records that it lends, and prints a line a call: the call, the paper's number of its
// status, and what then stands in the lent records, in five bytes of the picture and in the marks beside them. The packets are P9 and P10 of 01,
// those of 003 section 4, and orders, repeats and refusals of a small picture.
#![tactic(auto)]

use cursor_host::{Host, shown};
use cursor_layout::{picture_layout, pointer_layout};
use wire::number;

fn position<const N: usize>(rt: &HostRuntime, host: &mut Host<N>, packet: &[u8]) {
    let answer = host.position(packet);
    let pointer = shown::Pointer(pointer_layout::read(&host.pointer));
    println!(rt; "position {} pointer{pointer}", answer.status).ok();
}

// The bytes at five places.
fn bytes_at(rt: &HostRuntime, s: &[u8], places: [usize; 5]) {
    for at in places {
        print!(rt; " {}", number::read::<u8>(s, at)).ok();
    }
}

// The line ends with five bytes of the picture and of the marks.
fn store<const N: usize>(rt: &HostRuntime, host: &mut Host<N>, packet: &[u8], places: [usize; 5]) {
    let answer = host.store(packet);
    let pointer = shown::Pointer(pointer_layout::read(&host.pointer));
    let picture = shown::Picture(picture_layout::read(&host.picture));
    print!(rt;
        "store {} pointer{pointer} picture{picture} bytes",
        answer.status
    )
    .ok();
    bytes_at(rt, &host.image, places);
    print!(rt; " marks").ok();
    bytes_at(rt, &host.marks, places);
    println!(rt; "").ok();
}

fn complete<const N: usize>(rt: &HostRuntime, host: &Host<N>) {
    match host.complete() {
        Ok(true) => println!(rt; "complete yes"),
        Ok(false) => println!(rt; "complete no"),
        Err(number) => println!(rt; "complete {number}"),
    }
    .ok();
}

const P9: &[u8] = b"\x80\x00\x00\x05\x00\x00\x00\x00\x00\x00\x00\x00\x01\x00\x07\xff\xfe\x00\x0a";

// P9, the same again, 32,767 ahead (with the position of 003 section 4), an older one, 65,535, 0 after it; then a start, a wrong size,
// too few bytes twice, too many; an SSRC that is not 0, which is taken (02 §2), another first byte, and another second one.
const POSITIONS: [&[u8]; 14] = [
    P9,
    P9,
    b"\x80\x00\x80\x04\x00\x00\x00\x00\x00\x00\x00\x00\x01\x00\x07\x00\x0c\x00\x0a",
    P9,
    b"\x80\x00\xff\xff\x00\x00\x00\x00\x00\x00\x00\x00\x01\x00\x07\x00\x01\x00\x02",
    b"\x80\x00\x00\x00\x00\x00\x00\x00\x00\x00\x00\x00\x01\x00\x07\x80\x00\x7f\xff",
    b"\x80\x00\x00\x05\x00\x00\x00\x00\x00\x00\x00\x00\x02\x00\x12\x00\x00\x00\x00\x00\x01\x00\x00\x00\x00\x01\x00\x00\x00\x00",
    b"\x80\x00\x00\x05\x00\x00\x00\x00\x00\x00\x00\x00\x01\x00\x08\xff\xfe\x00\x0a\x00",
    b"\x80\x00\x00\x05\x00\x00\x00\x00\x00\x00\x00\x00\x01\x00",
    b"\x80\x00\x00\x05\x00\x00\x00\x00\x00\x00\x00\x00\x01\x00\x07\xff\xfe\x00",
    b"\x80\x00\x00\x05\x00\x00\x00\x00\x00\x00\x00\x00\x01\x00\x07\xff\xfe\x00\x0a\x00",
    b"\x80\x00\x00\x05\x00\x00\x00\x00\x00\x00\x00\x01\x01\x00\x07\xff\xfe\x00\x0a",
    b"\x81\x00\x00\x05\x00\x00\x00\x00\x00\x00\x00\x00\x01\x00\x07\xff\xfe\x00\x0a",
    b"\x80\x01\x00\x05\x00\x00\x00\x00\x00\x00\x00\x00\x01\x00\x07\xff\xfe\x00\x0a",
];

// P10, each on fresh records and untouched bytes: total 8; offset 8 with no data; offset 7 with two bytes; offset FFFFFFFF hex.
const OFFSETS: [&[u8]; 3] = [
    b"\x80\x00\x00\x05\x00\x00\x00\x00\x00\x00\x00\x00\x03\x00\x0d\x00\x00\x00\x08\x00\x01\x00\x00\x00\x08",
    b"\x80\x00\x00\x05\x00\x00\x00\x00\x00\x00\x00\x00\x03\x00\x0f\x00\x00\x00\x08\x00\x01\x00\x00\x00\x07\x41\x42",
    b"\x80\x00\x00\x05\x00\x00\x00\x00\x00\x00\x00\x00\x03\x00\x0d\x00\x00\x00\x08\x00\x01\xff\xff\xff\xff",
];

fn positions(rt: &HostRuntime) {
    let mut host = Host::<0>::new(0, 0);
    for packet in POSITIONS {
        position(rt, &mut host, packet);
    }
}

fn offsets(rt: &HostRuntime) {
    for packet in OFFSETS {
        let mut host = Host::<9>::new(46, 7);
        store(rt, &mut host, packet, [0, 3, 4, 7, 8]);
    }
}

// 003 section 4: 512 bytes of image, a start with the first 256 and a continuation with the others. Given are what stands before the data.
fn shape(rt: &HostRuntime, start: &[u8; 30], continuation: &[u8; 25]) {
    let mut first = [65; 286];
    first[..30].copy_from_slice(start);
    let mut second = [66; 281];
    second[..25].copy_from_slice(continuation);
    let mut host = Host::<513>::new(46, 7);
    for packet in [first.as_slice(), second.as_slice()] {
        store(rt, &mut host, packet, [0, 255, 256, 511, 512]);
        complete(rt, &host);
    }
}

// With sequence numbers 0 and 1: timestamp and SSRC 0, and then filled, which changes nothing (02 §2).
fn shapes(rt: &HostRuntime) {
    shape(
        rt,
        b"\x80\x00\x00\x00\x00\x00\x00\x00\x00\x00\x00\x00\x02\x01\x12\x00\x00\x02\x00\x12\x34\x00\x0c\x00\x0a\x03\x00\x12\x00\x0f",
        b"\x80\x00\x00\x01\x00\x00\x00\x00\x00\x00\x00\x00\x03\x01\x0d\x00\x00\x02\x00\x12\x34\x00\x00\x01\x00",
    );
    shape(
        rt,
        b"\x80\x00\x00\x00\x11\x22\x33\x44\xaa\xbb\xcc\xdd\x02\x01\x12\x00\x00\x02\x00\x12\x34\x00\x0c\x00\x0a\x03\x00\x12\x00\x0f",
        b"\x80\x00\x00\x01\x11\x22\x33\x44\xaa\xbb\xcc\xdd\x03\x01\x0d\x00\x00\x02\x00\x12\x34\x00\x00\x01\x00",
    );
}

// A picture of four bytes and one place more, of which each line shows all.
fn small(rt: &HostRuntime, host: &mut Host<5>, packet: &[u8]) {
    store(rt, host, packet, [0, 1, 2, 3, 4]);
}

// The two bytes in the middle.
const MIDDLE: &[u8] =
    b"\x80\x00\x00\x1f\x00\x00\x00\x00\x00\x00\x00\x00\x03\x00\x0f\x00\x00\x00\x04\x00\x09\x00\x00\x00\x01\x42\x43";

// The last byte.
const LAST: &[u8] =
    b"\x80\x00\x00\x20\x00\x00\x00\x00\x00\x00\x00\x00\x03\x00\x0e\x00\x00\x00\x04\x00\x09\x00\x00\x00\x03\x44";

// The first two bytes, in a start.
const FIRST: &[u8] =
    b"\x80\x00\x00\x1e\x00\x00\x00\x00\x00\x00\x00\x00\x02\x00\x14\x00\x00\x00\x04\x00\x09\xff\xfe\x00\x0a\x03\x00\x01\x00\x02\x41\x42";

// A picture of four bytes under id 9, opened by a continuation: in any order, repeated, with an older start, and refusals between.
fn in_order(rt: &HostRuntime, host: &mut Host<5>) {
    complete(rt, host);
    small(rt, host, MIDDLE);
    complete(rt, host);
    for packet in [LAST, MIDDLE, b""] {
        small(rt, host, packet);
    }
    complete(rt, host);
    small(rt, host, FIRST);
    complete(rt, host);
}

// A second start with another hot spot 13; another byte for a filled place 13; another total 12; another id, not newer, 11; too large a
// total 10; a position 4.
const REFUSED: [&[u8]; 6] = [
    b"\x80\x00\x00\x21\x00\x00\x00\x00\x00\x00\x00\x00\x02\x00\x14\x00\x00\x00\x04\x00\x09\xff\xfe\x00\x0a\x03\x00\x05\x00\x02\x41\x42",
    b"\x80\x00\x00\x22\x00\x00\x00\x00\x00\x00\x00\x00\x03\x00\x0f\x00\x00\x00\x04\x00\x09\x00\x00\x00\x01\x42\x58",
    b"\x80\x00\x00\x22\x00\x00\x00\x00\x00\x00\x00\x00\x03\x00\x0f\x00\x00\x00\x05\x00\x09\x00\x00\x00\x01\x42\x43",
    b"\x80\x00\x00\x1d\x00\x00\x00\x00\x00\x00\x00\x00\x03\x00\x0e\x00\x00\x00\x02\x00\x0a\x00\x00\x00\x00\x5a",
    b"\x80\x00\x00\x32\x00\x00\x00\x00\x00\x00\x00\x00\x03\x00\x0e\x00\x00\x00\x06\x00\x0b\x00\x00\x00\x00\x5a",
    b"\x80\x00\x00\x32\x00\x00\x00\x00\x00\x00\x00\x00\x01\x00\x07\xff\xfe\x00\x0a",
];

// A fragment of id 10, newer than those before.
const NEWER: &[u8] =
    b"\x80\x00\x00\x28\x00\x00\x00\x00\x00\x00\x00\x00\x03\x00\x0e\x00\x00\x00\x02\x00\x0a\x00\x00\x00\x00\x5a";

// The newer fragment opens its picture, a late one of id 9 doesn't open that again; with too few places lent, 17.
fn another(rt: &HostRuntime, host: &mut Host<5>) {
    small(rt, host, NEWER);
    small(rt, host, MIDDLE);
    let mut narrow = Host {
        pointer: host.pointer,
        picture: host.picture,
        image: [46; 1],
        marks: [7; 1],
    };
    store(rt, &mut narrow, MIDDLE, [0, 1, 2, 3, 4]);
    complete(rt, &narrow);
}

fn orders(rt: &HostRuntime) {
    let mut host = Host::<5>::new(46, 7);
    in_order(rt, &mut host);
    for packet in REFUSED {
        small(rt, &mut host, packet);
    }
    another(rt, &mut host);
}

// Starts of total 0, complete at once: sequence number 65,535, then 0, which opens the next picture.
const WRAPS: [&[u8]; 2] = [
    b"\x80\x00\xff\xff\x00\x00\x00\x00\x00\x00\x00\x00\x02\x00\x12\x00\x00\x00\x00\x00\x01\x00\x03\x00\x04\x01\x00\x00\x00\x00",
    b"\x80\x00\x00\x00\x00\x00\x00\x00\x00\x00\x00\x00\x02\x00\x12\x00\x00\x00\x00\x00\x02\x00\x05\x00\x06\x02\x00\x00\x00\x09",
];

fn wraps(rt: &HostRuntime) {
    let mut host = Host::<5>::new(46, 7);
    for packet in WRAPS {
        small(rt, &mut host, packet);
        complete(rt, &host);
    }
}

fn run(rt: &HostRuntime) {
    positions(rt);
    offsets(rt);
    shapes(rt);
    orders(rt);
    wraps(rt);
}

// A line that can't be written is passed over, as a later write may succeed; the status is 0.
fn main(rt: HostRuntime) {
    run(&rt);
}
