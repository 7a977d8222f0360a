// The messages of section 4 of 000 and 001, and P1 to P6 of 01.
use crate::refused;
use print::hex::Hex;

// The Source ID in hexadecimal digits, or `-`.
fn source(rt: &HostRuntime, bytes: &[u8], record: &[u8]) {
    let mut id = [0; 16];
    if message_calls::source_id(bytes, record, &mut id).yes {
        print!(rt; " source {}", Hex(&id)).ok();
    } else {
        print!(rt; " source -").ok();
    }
}

// Whether writing the record gives the bytes back; a refusal writes none.
fn writes_back(bytes: &[u8], record: &[u8]) -> bool {
    let mut out = [0; 128];
    let written = message_calls::write(bytes, record, &mut out);
    out.get(..written.size) == Some(bytes)
}

fn accepted(rt: &HostRuntime, bytes: &[u8], record: &[u8]) {
    let command = message_layout::read(record).command;
    let port = message_calls::rtsp_port(bytes, record).value;
    let options = message_calls::security_options(bytes, record).value;
    print!(rt; " accepted {command} port {port} options {options}").ok();
    source(rt, bytes, record);
    let word = if writes_back(bytes, record) {
        "same"
    } else {
        "other"
    };
    println!(rt; " written {word}").ok();
}

// A message under its name, in one line.
fn show(rt: &HostRuntime, name: &str, bytes: &[u8]) {
    print!(rt; "{name}").ok();
    let mut record = [0; message_layout::LENGTH];
    let answer = message_calls::read(bytes, &mut record);
    if answer.status == 0 {
        accepted(rt, bytes, &record);
    } else {
        refused(rt, answer);
    }
}

// 4.2 and 4.3 print the same bytes in both documents: Source Ready and Stop Projection.
const SOURCE_READY: &[u8] = b"\x00\x3d\x01\x01\
      \x00\x00\x1e\
      \x44\x00\x75\x00\x6d\x00\x6d\x00\x79\x00\x31\x00\x2d\x00\x4b\x00\
      \x61\x00\x62\x00\x79\x00\x6c\x00\x61\x00\x6b\x00\x65\x00\
      \x02\x00\x02\x1c\x44\
      \x03\x00\x10\
      \x91\xf4\xab\xe9\xef\xf5\x46\x4a\xae\xe2\x69\x72\x2a\xed\x11\xb5";

const STOP_PROJECTION: &[u8] = b"\x00\x38\x01\x02\
      \x00\x00\x1e\
      \x44\x00\x75\x00\x6d\x00\x6d\x00\x79\x00\x31\x00\x2d\x00\x4b\x00\
      \x61\x00\x62\x00\x79\x00\x6c\x00\x61\x00\x6b\x00\x65\x00\
      \x03\x00\x10\
      \x91\xf4\xab\xe9\xef\xf5\x46\x4a\xae\xe2\x69\x72\x2a\xed\x11\xb5";

// 4.4 prints neither sizes nor a payload: here with a payload of one byte, 16.
const HANDSHAKE: &[u8] = b"\x00\x08\x01\x03\
      \x04\x00\x01\x16";

// Session Request as printed, with Size 003A over 60 bytes.
const SESSION_REQUEST: &[u8; 60] = b"\x00\x3a\x01\x04\
      \x05\x00\x01\x03\
      \x00\x00\x1e\
      \x44\x00\x75\x00\x6d\x00\x6d\x00\x79\x00\x31\x00\x2d\x00\x4b\x00\
      \x61\x00\x62\x00\x79\x00\x6c\x00\x61\x00\x6b\x00\x65\x00\
      \x03\x00\x10\
      \x91\xf4\xab\xe9\xef\xf5\x46\x4a\xae\xe2\x69\x72\x2a\xed\x11\xb5";

const PIN_CHALLENGE: &[u8] = b"\x00\x3a\x01\x05\
      \x06\x00\x20\
      \x60\x54\x09\xf8\x32\x30\x8a\xd0\xb8\x93\xa7\xf9\x1b\xe4\x2b\x26\
      \x4c\x73\x72\xb3\x6e\x90\x77\x50\x6e\x1b\x4c\xc1\x83\xde\x79\xda\
      \x03\x00\x10\
      \x91\xf4\xab\xe9\xef\xf5\x46\x4a\xae\xe2\x69\x72\x2a\xed\x11\xb5";

// PIN Response, without the Source ID that 2.2.6 lists.
const PIN_RESPONSE: &[u8] = b"\x00\x2b\x01\x06\
      \x06\x00\x20\
      \x18\xd8\xd8\xaf\xdb\xd0\xd0\x2b\x0c\x0d\x5d\x27\xed\x05\x8f\x8d\
      \xf3\xaf\xd8\x60\xa4\x5e\xf1\x37\xed\x25\x79\x15\xa8\xbb\x2d\xf7\
      \x07\x00\x01\x00";

// 01, "Proved table of small examples".
const P1: &[u8; 33] = b"\x00\x21\x01\x01\
      \x00\x00\x02\x41\x00\
      \x02\x00\x02\x1c\x44\
      \x03\x00\x10\x07\x07\x07\x07\x07\x07\x07\x07\x07\x07\x07\x07\x07\x07\x07\x07";

const P6: &[u8] = b"\x00\x1c\x01\x01\
      \x00\x00\x02\x41\x00\
      \x03\x00\x10\x07\x07\x07\x07\x07\x07\x07\x07\x07\x07\x07\x07\x07\x07\x07\x07";

// Each message in its line.
pub fn run(rt: &HostRuntime) {
    let mut resized = *SESSION_REQUEST;
    resized[1] = 0x3c;
    // P2 is P1 with Size 0022, and P3 is P1 with a byte more.
    let mut p2 = *P1;
    p2[1] = 0x22;
    let mut p3 = [0; 34];
    p3[..33].copy_from_slice(P1);
    let messages: [(&str, &[u8]); 15] = [
        ("000-4.2", SOURCE_READY),
        ("000-4.3", STOP_PROJECTION),
        ("001-4.2", SOURCE_READY),
        ("001-4.3", STOP_PROJECTION),
        ("001-4.4-payload-16", HANDSHAKE),
        ("001-4.5-printed", SESSION_REQUEST),
        ("001-4.5-size-003C", &resized),
        ("001-4.6", PIN_CHALLENGE),
        ("001-4.7", PIN_RESPONSE),
        ("P1", P1),
        ("P2", &p2),
        ("P3", &p3),
        ("P4", b""),
        ("P5", b"\x00\x03\x01\x01"),
        ("P6", P6),
    ];
    for (name, bytes) in messages {
        show(rt, name, bytes);
    }
}
