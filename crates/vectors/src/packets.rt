// The cursor packets of 003 section 4: a position, and a shape of 512 bytes in a start and a continuation. The document prints no RTP headers and
// no image: here the sequence numbers are 0, 1 and 2, and the halves of the image are 65 and 66. Then positions with timestamp and SSRC filled
// (02 §2).
use cursor_host::Host;
use cursor_layout::{picture_layout, pointer_layout};

fn pointer(rt: &HostRuntime, host: &Host<512>) {
    let pointer = pointer_layout::read(&host.pointer);
    print!(rt; " accepted x {} y {}", pointer.x, pointer.y).ok();
}

fn picture(rt: &HostRuntime, host: &Host<512>) {
    let picture = picture_layout::read(&host.picture);
    let start = picture.start;
    print!(rt;
        " id {} total {} type {}",
        picture.id, picture.total, start.image_type
    )
    .ok();
    print!(rt; " hot spot {} {}", start.hot_x, start.hot_y).ok();
}

fn position(rt: &HostRuntime, name: &str, host: &mut Host<512>, packet: &[u8]) {
    print!(rt; "{name}").ok();
    let answer = host.position(packet);
    if answer.status != 0 {
        println!(rt; " refused {}", answer.status).ok();
        return;
    }
    pointer(rt, host);
    println!(rt; "").ok();
}

fn complete(rt: &HostRuntime, host: &Host<512>) {
    match host.complete() {
        Ok(true) => println!(rt; " complete yes"),
        Ok(false) => println!(rt; " complete no"),
        Err(number) => println!(rt; " refused {number}"),
    }
    .ok();
}

fn store(rt: &HostRuntime, name: &str, host: &mut Host<512>, packet: &[u8]) {
    print!(rt; "{name}").ok();
    let answer = host.store(packet);
    if answer.status != 0 {
        println!(rt; " refused {}", answer.status).ok();
        return;
    }
    pointer(rt, host);
    picture(rt, host);
    complete(rt, host);
}

// 003's packets, each in its line.
fn printed(rt: &HostRuntime) {
    let mut host = Host::new(0, 0);
    let packet = b"\x80\x00\x00\x00\x00\x00\x00\x00\x00\x00\x00\x00\x01\x00\x07\x00\x0c\x00\x0a";
    position(rt, "003-4-position", &mut host, packet);
    let mut first = [65; 286];
    first[..30].copy_from_slice(
        b"\x80\x00\x00\x01\x00\x00\x00\x00\x00\x00\x00\x00\x02\x01\x12\x00\x00\x02\x00\x12\x34\x00\x0c\x00\x0a\x03\x00\x12\x00\x0f",
    );
    store(rt, "003-4-start", &mut host, &first);
    let mut second = [66; 281];
    second[..25].copy_from_slice(
        b"\x80\x00\x00\x02\x00\x00\x00\x00\x00\x00\x00\x00\x03\x01\x0d\x00\x00\x02\x00\x12\x34\x00\x00\x01\x00",
    );
    store(rt, "003-4-continuation", &mut host, &second);
}

// 02 §2: timestamp and SSRC are ignored, the first two bytes are judged, and fewer than 15 bytes are 1 before that.
const FILLED: [(&str, &[u8]); 4] = [
    (
        "02-2-fields-filled",
        b"\x80\x00\x00\x05\x11\x22\x33\x44\xaa\xbb\xcc\xdd\x01\x00\x07\xff\xfe\x00\x0a",
    ),
    (
        "02-2-first-byte-81",
        b"\x81\x00\x00\x05\x11\x22\x33\x44\xaa\xbb\xcc\xdd\x01\x00\x07\xff\xfe\x00\x0a",
    ),
    (
        "02-2-first-14-bytes",
        b"\x80\x00\x00\x05\x11\x22\x33\x44\xaa\xbb\xcc\xdd\x01\x00",
    ),
    (
        "02-2-second-byte-01",
        b"\x80\x01\x00\x05\x11\x22\x33\x44\xaa\xbb\xcc\xdd\x01\x00\x07\xff\xfe\x00\x0a",
    ),
];

// Each packet in its line; the filled ones each on a fresh pointer.
pub fn run(rt: &HostRuntime) {
    printed(rt);
    for (name, packet) in FILLED {
        position(rt, name, &mut Host::new(0, 0), packet);
    }
}
