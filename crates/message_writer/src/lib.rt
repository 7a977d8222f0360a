// Writes a connection message from its record: the header, then its TLVs by rising type.
#![tactic(auto)]

ghost use Rattle.std.specs.Prelude.{◌≡◌, true, cond, Some, None, ◌+◌, ◌≤◌, length};
ghost use Rattle.wire.specs.Splice.{splice};
ghost use Rattle.wire.specs.Below.{all_below};
ghost use Rattle.message_rules.specs.Record.{size_to};
ghost use Rattle.message_writer.specs.Writing.{field_ok, writable, tlv_bytes, body_to, head_bytes, write_answer, output};

use message_rules::record::{Field, Message};
use message_rules::role::Role;
use message_rules::{record, rules};
use scan::bytes;
use wire::number;
use wire::status::{Refusal, Refused};

// Whether the record's field of this type can be written from n lent bytes.
#[tactic(auto, unfolding(crate::specs::Writing::field_ok))]
fn field_ok(n: usize, message: Message, kind: u8) -> bool
    ensures { result ≡ field_ok n message kind }
{
    let part = rules::role(message.command, kind);
    let value = record::field_of(message, kind);
    if !value.present {
        return part != Role::Needed;
    }
    if part == Role::Foreign {
        return false;
    }
    let at = value.at as usize;
    let len = value.len as usize;
    if n < at + len {
        return false;
    }
    rules::length_ok(kind, len)
}

// The size of the header and of the record's TLVs, if each of its fields can be written.
fn size_of_fields(n: usize, message: Message) -> Option<usize>
    ensures { result ≡ cond (all_below 8 (field_ok n message)) (Some (size_to message 8)) None }
{
    let mut size: usize = 4;
    for kind in 0..8 {
        if !field_ok(n, message, kind) {
            return None;
        }
        let value = record::field_of(message, kind);
        if value.present {
            size = size + 3 + value.len as usize;
        }
    }
    Some(size)
}

// The size of the record's message, if it can be written.
#[tactic(auto, unfolding(crate::specs::Writing::writable), using(crate::proofs::Laws::Writing::no_size, std::proofs::lemmas::Option::cond_some))]
fn size_of(n: usize, message: Message) -> Option<usize>
    ensures { result ≡ cond (writable n message) (Some (size_to message 8)) None }
{
    if !rules::known_command(message.command) {
        return None;
    }
    let size = size_of_fields(n, message)?;
    if 65535 < size {
        return None;
    }
    Some(size)
}

// Writes a TLV at `at`, and answers the place after it.
fn put_tlv(bytes: &[u8], kind: u8, value: Field, out: &mut [u8], at: usize) -> usize
    requires { (value.at + value.len ≤ length bytes.now) × (value.len ≤ 65535) × (at + 3 + value.len ≤ length out.old) }
    ensures { (result ≡ at + 3 + value.len) × (out.new ≡ splice at (tlv_bytes bytes.now kind value) out.old) }
{
    let from = value.at as usize;
    let len = value.len as usize;
    let to = from + len;
    let start = at + 3;
    let end = start + len;
    number::write(out, at, kind);
    number::write(out, at + 1, len as u16);
    bytes::copy(&mut out[start..end], &bytes[from..to]);
    end
}

// Writes the TLVs after the header, by rising type.
fn put_tlvs(bytes: &[u8], message: Message, out: &mut [u8])
    requires { (all_below 8 (field_ok (length bytes.now) message) ≡ true) × (size_to message 8 ≤ length out.old) }
    ensures { out.new ≡ splice 4 (body_to bytes.now message 8) out.old }
{
    let mut at: usize = 4;
    for kind in 0..8 {
        let value = record::field_of(message, kind);
        if value.present {
            at = put_tlv(bytes, kind, value, out, at);
        }
    }
}

// Writes the header: Size, Version 1 and Command.
fn put_head(size: usize, command: u8, out: &mut [u8])
    requires { (size ≤ 65535) × (4 ≤ length out.old) }
    ensures { out.new ≡ splice 0 (head_bytes size command) out.old }
{
    number::write(out, 0, size as u16);
    number::write(out, 2, 1u8);
    number::write(out, 3, command);
}

// Writes the message of a record, whose values stand in the lent bytes, and answers its size. A refusal changes no output byte.
pub fn write(bytes: &[u8], message: Message, out: &mut [u8]) -> Result<usize, Refused>
    ensures answer { result ≡ write_answer bytes.now message out.old }
    ensures bytes { out.new ≡ output bytes.now message out.old }
{
    let size = size_of(bytes.len(), message).ok_or(Refusal::NotWritable)?;
    if out.len() < size {
        return Err(Refusal::NoRoom.into());
    }
    put_head(size, message.command, out);
    put_tlvs(bytes, message, out);
    Ok(size)
}
