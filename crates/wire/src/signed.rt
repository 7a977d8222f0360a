// Two's complement in two bytes (01: "A cursor position and a fragment's offset are two's complement").
ghost use Rattle.std.specs.Prelude.{◌≡◌};
ghost use Rattle.wire.specs.Signed.{signed, unsigned};

// The number whose two's complement in two bytes is x.
pub fn signed16(x: u16) -> i16
    ensures { result ≡ signed 2 x }
{
    x.cast_signed()
}

// The two's complement of z in two bytes.
pub fn unsigned16(z: i16) -> u16
    ensures { result ≡ unsigned 2 z }
{
    z.cast_unsigned()
}
