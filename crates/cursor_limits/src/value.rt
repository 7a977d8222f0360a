// What a cursor limits value says (003 section 1.7).
ghost use Rattle.std.specs.Prelude.{◌≡◌, Some};
ghost use Rattle.cursor_limits.specs.Value.{limits_text, xor_byte, xor_of, xor_text};

use std::fmt;

// xor-support: whether the sink can do the XOR operation of monochrome and color mask cursors.
#[derive(Clone, Copy, PartialEq, Eq)]
pub enum Xor {
    None,
    Full,
}

// A host keeps it as a byte: 0 for no, any other for yes, written as 1.
impl From<u8> for Xor {
    ghost from_gives = { λ byte xor. xor ≡ xor_of byte };

    #[tactic(auto, unfolding(crate::specs::Value::xor_of))]
    fn from(byte: u8) -> Xor {
        match byte {
            0 => Xor::None,
            _ => Xor::Full,
        }
    }
}

impl From<Xor> for u8 {
    ghost from_gives = { λ xor byte. byte ≡ xor_byte xor };

    fn from(xor: Xor) -> u8 {
        match xor {
            Xor::None => 0,
            Xor::Full => 1,
        }
    }
}

impl fmt::Display for Xor {
    ghost output = { λ xor. Some (xor_text xor) };

    fn fmt<W: fmt::Write>(&self, f: &mut fmt::Formatter<W>) -> fmt::Result {
        match self {
            Xor::None => f.write_str("none"),
            Xor::Full => f.write_str("full"),
        }
    }
}

// The largest cursor that the sink supports, in pixels (x-max and y-max), and the UDP port that it is sent to.
#[derive(Clone, Copy, PartialEq, Eq)]
pub struct Limits {
    pub xor: Xor,
    pub width: u16,
    pub height: u16,
    pub port: u16,
}

// Each field after its name.
impl fmt::Display for Limits {
    ghost output = { λ limits. Some (limits_text limits) };

    fn fmt<W: fmt::Write>(&self, f: &mut fmt::Formatter<W>) -> fmt::Result {
        let Limits {
            xor,
            width,
            height,
            port,
        } = self;
        write!(f, "xor {xor} width {width} height {height} port {port}")
    }
}

// The record of a value: the sink doesn't support the extension, or its limits. No Option<Limits>: 01 names both cases, and what a text means is
// itself an option of this (`meaning`), of which an option would be no plainer.
#[derive(Clone, Copy, PartialEq, Eq)]
pub enum Value {
    NotSupported,
    Supported(Limits),
}
