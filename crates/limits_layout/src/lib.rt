// The cursor limits as 8 bytes that a host keeps and lends. Numbers are little-endian: the least significant byte first. A flag is one byte, 0
// for no and any other for yes, written as 1.
//
//   place  bytes
//       0      1  whether the sink supports the extension; where it doesn't, the rest is not looked at, and written as 0
//       1      1  whether it can do the XOR operation
//       2      2  the largest width
//       4      2  the largest height
//       6      2  the UDP port
#![tactic(auto)]

ghost use Rattle.std.specs.Prelude.{◌≡◌};
ghost use Rattle.wire.specs.Laid.{laid};
ghost use Rattle.cursor_limits.specs.Value.{xor_byte};
ghost use Rattle.limits_layout.specs.LimitsLayout.{number_bytes, limits_bytes, limits_in};

use cursor_limits::value::{Limits, Value, Xor};
use wire::little_endian;

pub const LENGTH: usize = 8;

// The value in the bytes; a number whose bytes are not all there counts as 0.
#[tactic(auto, unfolding(crate::specs::LimitsLayout::limits_in))]
pub fn read(record: &[u8]) -> Value
    ensures { result ≡ limits_in «record».now }
{
    if little_endian::read::<u8>(record, 0) == 0 {
        return Value::NotSupported;
    }
    Value::Supported(Limits {
        xor: little_endian::read::<u8>(record, 1).into(),
        width: little_endian::read(record, 2),
        height: little_endian::read(record, 4),
        port: little_endian::read(record, 6),
    })
}

// Writes the numbers of the layout; where the bytes are fewer, nothing changes.
#[tactic(auto, using(crate::proofs::Laws::LimitsLayout::numbers_written, crate::proofs::Laws::LimitsLayout::length_numbers, wire::proofs::Laws::Laid::laid_short))]
fn write_numbers(record: &mut [u8], supported: u8, limits: Limits)
    ensures { «record».new ≡ laid (number_bytes supported (xor_byte limits.xor) limits.width limits.height limits.port) «record».old }
{
    if record.len() < LENGTH {
        return;
    }
    little_endian::write(record, 0, supported);
    little_endian::write(record, 1, u8::from(limits.xor));
    little_endian::write(record, 2, limits.width);
    little_endian::write(record, 4, limits.height);
    little_endian::write(record, 6, limits.port);
}

// What is written where the sink doesn't support the extension.
const NO_LIMITS: Limits = Limits {
    xor: Xor::None,
    width: 0,
    height: 0,
    port: 0,
};

// Writes the value; where the bytes are fewer than its layout's, nothing changes.
pub fn write(record: &mut [u8], value: Value)
    ensures { «record».new ≡ laid (limits_bytes value) «record».old }
{
    match value {
        Value::NotSupported => write_numbers(record, 0, NO_LIMITS),
        Value::Supported(limits) => write_numbers(record, 1, limits),
    }
}
