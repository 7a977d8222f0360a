// The cursor limits value, read (01, "Cursor limits value"; 003 section 1.7).
ghost use Rattle.std.specs.Prelude.{◌≡◌, length};
ghost use Rattle.cursor_limits.specs.Reading.{meaning, read_field, read_limits, read_value};

use crate::value::{Limits, Value, Xor};
use text::{hex, word};
use wire::status::{Refusal, Refused};

// A space and the digits after it.
#[tactic(auto, unfolding(crate::specs::Reading::read_field))]
fn read_field(bytes: &[u8]) -> Option<u16>
    requires { length bytes.now ≡ 5 }
    ensures { result ≡ read_field bytes.now }
{
    if bytes[0] != b' ' {
        return None;
    }
    hex::read(&bytes[1..])
}

// The limits in the 19 bytes of a value with that xor support.
#[tactic(auto, unfolding(crate::specs::Reading::read_limits))]
fn read_limits(bytes: &[u8], xor: Xor) -> Option<Limits>
    requires { length bytes.now ≡ 19 }
    ensures { result ≡ read_limits xor bytes.now }
{
    let width = read_field(&bytes[4..9])?;
    let height = read_field(&bytes[9..14])?;
    let port = read_field(&bytes[14..19])?;
    Some(Limits {
        xor,
        width,
        height,
        port,
    })
}

// What the bytes mean, from the first to the last.
#[tactic(auto, unfolding(crate::specs::Reading::meaning))]
fn meaning(bytes: &[u8]) -> Option<Value>
    ensures { result ≡ meaning bytes.now }
{
    if word::spelled(bytes, b"none") {
        return Some(Value::NotSupported);
    }
    if bytes.len() != 19 {
        return None;
    }
    let support = &bytes[0..4];
    let xor = if word::spelled(support, b"none") {
        Xor::None
    } else if word::spelled(support, b"full") {
        Xor::Full
    } else {
        return None;
    };
    let limits = read_limits(bytes, xor)?;
    Some(Value::Supported(limits))
}

// Reads a value. The bytes must be a value from the first to the last, else the answer is 16.
#[tactic(auto, unfolding(crate::specs::Reading::read_value))]
pub fn read(bytes: &[u8]) -> Result<Value, Refused>
    ensures { result ≡ read_value bytes.now }
{
    meaning(bytes).ok_or(Refusal::NotGrammar.into())
}
