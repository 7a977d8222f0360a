// Hexadecimal digits, the most significant first (RFC 5234 section B.1: HEXDIG).
ghost use Rattle.std.specs.Prelude.{◌≡◌, ◌<◌, length};
ghost use Rattle.text.specs.Hex.{digit_of, digit_value, read_digits, spell_digits};

// The value of the digit `byte`, in either case; none for a byte that is no hexadecimal digit.
#[tactic(auto, unfolding(crate::specs::Hex::digit_value, crate::specs::Range::within))]
pub fn digit(byte: u8) -> Option<u16>
    ensures { result ≡ digit_value byte }
{
    match byte {
        b'0'..=b'9' => Some(u16::from(byte - b'0')),
        b'A'..=b'F' => Some(u16::from(byte - b'A') + 10),
        b'a'..=b'f' => Some(u16::from(byte - b'a') + 10),
        _ => None,
    }
}

// The number in `bytes`, where they are at most four hexadecimal digits.
pub fn read(bytes: &[u8]) -> Option<u16>
    ensures { result ≡ read_digits bytes.now }
{
    if 4 < bytes.len() {
        return None;
    }
    let mut number: u16 = 0;
    for byte in bytes {
        let value = digit(*byte)?;
        number = number * 16 + value;
    }
    Some(number)
}

// The digit of a value, in capitals. A match, which compiles to a table that is never copied.
#[tactic(auto, unfolding(crate::specs::Hex::digit_of))]
fn capital_digit(value: u8) -> u8
    requires { value < 16 }
    ensures { result ≡ digit_of value }
{
    match value {
        0 => b'0',
        1 => b'1',
        2 => b'2',
        3 => b'3',
        4 => b'4',
        5 => b'5',
        6 => b'6',
        7 => b'7',
        8 => b'8',
        9 => b'9',
        10 => b'A',
        11 => b'B',
        12 => b'C',
        13 => b'D',
        14 => b'E',
        _ => b'F',
    }
}

// Fills `out` with the digits of `number`, in capitals, as many as it has places; what they can't hold is left out. By index: through an adapter
// of `iter_mut`, as `rev`, a proof knows nothing of what was written.
pub fn write(out: &mut [u8], number: u16)
    ensures { out.new ≡ spell_digits (length out.old) number }
{
    let mut rest = number;
    for k in (0..out.len()).rev() {
        out[k] = capital_digit((rest % 16) as u8);
        rest /= 16;
    }
}
