// One TLV of a message (001 section 2.2.7).
ghost use Rattle.std.specs.Prelude.{◌≡◌, ◌≤◌, length};
ghost use Rattle.message_reader.specs.Reading.{tlv_at};
ghost use Rattle.message_reader.specs.Values.{message_from};

use crate::walk::Values;
use message_rules::role::Role;
use message_rules::rules;
use wire::number;
use wire::status::Refusal;

// A TLV: its type and the length of its value.
#[derive(Clone, Copy)]
pub(crate) struct Tlv {
    pub kind: u8,
    pub len: usize,
}

// The TLV at `at`, in a message of that command. `values` has the values of the TLVs before it. The place of a refusal is that of the TLV.
#[tactic(auto, unfolding(wire::specs::Checks::first_of, crate::specs::Reading::tlv_at, crate::specs::Values::message_from), using(crate::proofs::Laws::Values::taken))]
pub(crate) fn tlv_at(bytes: &[u8], at: usize, command: u8, values: &Values) -> Result<Tlv, Refusal>
    requires { at ≤ length bytes.now }
    ensures { result ≡ tlv_at bytes.now at (message_from command values.now) }
{
    let start = at + 3;
    if bytes.len() < start {
        return Err(Refusal::TlvTruncated);
    }
    let kind = bytes[at];
    let len = number::read::<u16>(bytes, at + 1) as usize;
    if bytes.len() < start + len {
        return Err(Refusal::TlvTruncated);
    }
    if rules::role(command, kind) == Role::Foreign {
        return Err(Refusal::TlvUnexpected);
    }
    if !rules::length_ok(kind, len) {
        return Err(Refusal::TlvLength);
    }
    if values[kind as usize].present {
        return Err(Refusal::TlvRepeated);
    }
    Ok(Tlv { kind, len })
}
