// Reads cursor packets by value, a line a reader under the packet's bytes: a record, or a refusal with its number and byte place (01). The
// readers are those of positions and of fragments, and the calls for positions and for fragments, on fresh records and on a picture and marks of
// eight places.
#![tactic(auto)]

use cursor_fragment::Fragment;
use cursor_fragment::start::Start;
use cursor_host::shown;
use cursor_packet::position;
use cursor_picture::Picture;
use cursor_pointer::Pointer;
use print::hex::Hex;
use wire::status::Refused;

fn print_refused(rt: &HostRuntime, refused: Refused) {
    print!(rt; " refused {} {}", u8::from(refused.refusal), refused.place).ok();
}

// A fragment's fields; the last three are a start's own, 0 where it is none.
fn print_fragment(rt: &HostRuntime, fragment: Fragment) {
    let Fragment {
        sequence,
        total,
        id,
        offset,
        start,
    } = fragment;
    print!(rt;
        " accepted {sequence} {total} {id} {offset} {}",
        start.is_some() as u8
    )
    .ok();
    let start = start.unwrap_or(Start::none());
    print!(rt; " {} {} {}", start.image_type, start.hot_x, start.hot_y).ok();
}

fn read_position(rt: &HostRuntime, packet: &[u8]) {
    print!(rt; "position").ok();
    match position::read(packet) {
        Ok(position) => {
            print!(rt;
                " accepted {} {} {}",
                position.sequence, position.x, position.y
            )
            .ok();
        }
        Err(refused) => print_refused(rt, refused),
    }
    println!(rt; "").ok();
}

fn read_fragment(rt: &HostRuntime, packet: &[u8]) {
    print!(rt; "fragment").ok();
    match cursor_fragment::read(packet) {
        Ok(fragment) => print_fragment(rt, fragment),
        Err(refused) => print_refused(rt, refused),
    }
    println!(rt; "").ok();
}

fn call_position(rt: &HostRuntime, packet: &[u8]) {
    print!(rt; "pointer").ok();
    match cursor_pointer::position(Pointer::fresh(), packet) {
        Ok(pointer) => {
            print!(rt; " accepted{}", shown::Pointer(pointer)).ok();
        }
        Err(refused) => print_refused(rt, refused),
    }
    println!(rt; "").ok();
}

// The line of a store ends with the picture's bytes and the marks, which a refusal leaves 2e and 07.
fn call_store(rt: &HostRuntime, packet: &[u8]) {
    let mut image = [46; 8];
    let mut marks = [7; 8];
    print!(rt; "store").ok();
    match cursor_store::store(
        Pointer::fresh(),
        Picture::fresh(),
        packet,
        &mut image,
        &mut marks,
    ) {
        Ok(stored) => {
            let pointer = shown::Pointer(stored.pointer);
            let picture = shown::Picture(stored.picture);
            print!(rt; " accepted{pointer} picture{picture}").ok();
        }
        Err(refused) => print_refused(rt, refused),
    }
    println!(rt; " bytes {} marks {}", Hex(&image), Hex(&marks)).ok();
}

fn show(rt: &HostRuntime, packet: &[u8]) {
    println!(rt; "{}:", Hex(packet)).ok();
    read_position(rt, packet);
    read_fragment(rt, packet);
    call_position(rt, packet);
    call_store(rt, packet);
}

const PACKETS: [&[u8]; 10] = [
    // P9.
    b"\x80\x00\x00\x05\x00\x00\x00\x00\x00\x00\x00\x00\x01\x00\x07\xff\xfe\x00\x0a",
    // P10, total 8: offset 8 with no data; offset 7 with two bytes; offset FFFFFFFF hex.
    b"\x80\x00\x00\x05\x00\x00\x00\x00\x00\x00\x00\x00\x03\x00\x0d\x00\x00\x00\x08\x00\x01\x00\x00\x00\x08",
    b"\x80\x00\x00\x05\x00\x00\x00\x00\x00\x00\x00\x00\x03\x00\x0f\x00\x00\x00\x08\x00\x01\x00\x00\x00\x07\x41\x42",
    b"\x80\x00\x00\x05\x00\x00\x00\x00\x00\x00\x00\x00\x03\x00\x0d\x00\x00\x00\x08\x00\x01\xff\xff\xff\xff",
    // A start with the first two of four bytes; with two bytes of one.
    b"\x80\x00\x00\x1e\x00\x00\x00\x00\x00\x00\x00\x00\x02\x00\x14\x00\x00\x00\x04\x00\x09\xff\xfe\x00\x0a\x03\x00\x01\x00\x02\x41\x42",
    b"\x80\x00\x00\x1e\x00\x00\x00\x00\x00\x00\x00\x00\x02\x00\x14\x00\x00\x00\x01\x00\x09\xff\xfe\x00\x0a\x03\x00\x01\x00\x02\x41\x42",
    // No bytes; P9 with another first byte, with a type that is none, and with a size that is no position's.
    b"",
    b"\x90\x00\x00\x05\x00\x00\x00\x00\x00\x00\x00\x00\x01\x00\x07\xff\xfe\x00\x0a",
    b"\x80\x00\x00\x05\x00\x00\x00\x00\x00\x00\x00\x00\x04\x00\x07\xff\xfe\x00\x0a",
    b"\x80\x00\x00\x05\x00\x00\x00\x00\x00\x00\x00\x00\x01\x00\x08\xff\xfe\x00\x0a\x00",
];

fn run(rt: &HostRuntime) {
    for packet in PACKETS {
        show(rt, packet);
    }
}

// A line that can't be written is passed over, as a later write may succeed; the status is 0.
fn main(rt: HostRuntime) {
    run(&rt);
}
