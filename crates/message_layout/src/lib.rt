// The record of a message as 64 bytes that a host keeps and lends. Numbers are little-endian: the least significant byte first. A flag is one
// byte, 0 for no and any other for yes, written as 1.
//
//   place  bytes
//       0      1  the command
//       1      9  Friendly Name        a field: whether it is there (1), the place (4) and the length (4) of its value in the lent bytes
//      10      9  RTSP Port
//      19      9  Source ID
//      28      9  Security Token
//      37      9  Security Options
//      46      9  PIN Challenge
//      55      9  PIN Response Reason
#![tactic(auto)]

ghost use Rattle.std.specs.Prelude.{◌≡◌, ◌+◌, ◌≤◌, length};
ghost use Rattle.wire.specs.Splice.{splice};
ghost use Rattle.wire.specs.Laid.{laid};
ghost use Rattle.message_layout.specs.MessageLayout.{field_bytes, field_in, message_bytes, message_in};

use message_rules::record::{Field, Message};
use wire::little_endian;

pub const LENGTH: usize = 64;

// The field in the 9 bytes from `at`.
#[tactic(auto, unfolding(crate::specs::MessageLayout::field_in))]
fn field_at(record: &[u8], at: usize) -> Field
    requires { at ≤ 55 }
    ensures { result ≡ field_in «record».now at }
{
    Field {
        present: little_endian::read::<u8>(record, at) != 0,
        at: little_endian::read(record, at + 1),
        len: little_endian::read(record, at + 5),
    }
}

// The record in the bytes; a number whose bytes are not all there counts as 0.
#[tactic(auto, unfolding(crate::specs::MessageLayout::message_in))]
pub fn read(record: &[u8]) -> Message
    ensures { result ≡ message_in «record».now }
{
    Message {
        command: little_endian::read(record, 0),
        friendly_name: field_at(record, 1),
        rtsp_port: field_at(record, 10),
        source_id: field_at(record, 19),
        security_token: field_at(record, 28),
        security_options: field_at(record, 37),
        pin_challenge: field_at(record, 46),
        pin_reason: field_at(record, 55),
    }
}

// Writes the field in the 9 bytes from `at`.
#[tactic(auto, using(crate::proofs::Laws::MessageLayout::field_written, wire::proofs::Laws::Layout::flag_byte))]
fn write_field(record: &mut [u8], at: usize, field: Field)
    requires { at + 9 ≤ length «record».old }
    ensures { «record».new ≡ splice at (field_bytes field) «record».old }
{
    little_endian::write(record, at, field.present as u8);
    little_endian::write(record, at + 1, field.at);
    little_endian::write(record, at + 5, field.len);
}

// Writes the record; where the bytes are fewer than its layout's, nothing changes.
#[tactic(auto, using(crate::proofs::Laws::MessageLayout::message_written_lem, crate::proofs::Laws::MessageLayout::length_message, wire::proofs::Laws::Laid::laid_short))]
pub fn write(record: &mut [u8], message: Message)
    ensures { «record».new ≡ laid (message_bytes message) «record».old }
{
    if record.len() < LENGTH {
        return;
    }
    little_endian::write(record, 0, message.command);
    write_field(record, 1, message.friendly_name);
    write_field(record, 10, message.rtsp_port);
    write_field(record, 19, message.source_id);
    write_field(record, 28, message.security_token);
    write_field(record, 37, message.security_options);
    write_field(record, 46, message.pin_challenge);
    write_field(record, 55, message.pin_reason);
}
