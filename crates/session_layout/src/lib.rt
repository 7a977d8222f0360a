// The session as 19 bytes that a host keeps and lends. A flag is one byte, 0 for no and any other for yes, written as 1.
//
//   place  bytes
//       0      1  the state: 0 Waiting, 1 Handshake, 2 PinWait, 3 ReadyWait, 4 Projecting, any other Closed (written as 5)
//       1      1  the options
//       2      1  whether a Source ID is kept
//       3     16  the Source ID; where none is kept, not looked at
#![tactic(auto)]

ghost use Rattle.std.specs.Prelude.{◌≡◌, ◌≤◌, length};
ghost use Rattle.wire.specs.Splice.{splice};
ghost use Rattle.wire.specs.Laid.{laid};
ghost use Rattle.session_layout.specs.SessionLayout.{id_at, source_at, session_bytes, session_of};

use message_rules::accessors::SourceId;
use session_table::record::{Session, State};
use wire::little_endian;

pub const LENGTH: usize = 19;

// The 16 bytes of a Source ID from a place on; a byte past the end counts as 0. Copied here and not by `scan::bytes::copy`, which stays a function
// apart: a record has them all, and that they are 16 is then known (docs/MEASURED.md).
#[tactic(auto, unfolding(crate::specs::SessionLayout::id_at, scan::specs::Bytes::copied))]
fn id_at(bytes: &[u8], at: usize) -> [u8; 16]
    ensures { result ≡ id_at at bytes.now }
{
    let mut id = [0u8; 16];
    if at <= bytes.len() {
        let rest = &bytes[at..];
        let there = rest.len().min(16);
        id[..there].copy_from_slice(&rest[..there]);
    }
    id
}

// A Source ID from a place on, and whether there is one.
pub fn source_at(present: bool, bytes: &[u8], at: usize) -> SourceId
    ensures { result ≡ source_at present at bytes.now }
{
    SourceId {
        present,
        bytes: id_at(bytes, at),
    }
}

// The session in the bytes.
#[tactic(auto, unfolding(crate::specs::SessionLayout::session_of))]
pub fn read(record: &[u8]) -> Session
    ensures { result ≡ session_of «record».now }
{
    Session {
        state: State::from(little_endian::read::<u8>(record, 0)),
        options: little_endian::read(record, 1),
        source: source_at(little_endian::read::<u8>(record, 2) != 0, record, 3),
    }
}

// Writes the session in the first 19 bytes; a shorter slice is left alone.
pub fn write(record: &mut [u8], session: Session)
    ensures { «record».new ≡ laid (session_bytes session) «record».old }
{
    if record.len() < LENGTH {
        return;
    }
    little_endian::write(record, 0, u8::from(session.state));
    little_endian::write(record, 1, session.options);
    little_endian::write(record, 2, u8::from(session.source.present));
    record[3..LENGTH].copy_from_slice(&session.source.bytes);
}
