// The unsigned numbers that stand in bytes: of one, two and four bytes.
ghost use Rattle.std.specs.Prelude.{◌≡◌, ℕ, ◌%◌, ◌^◌, ◌≤◌};
ghost use Rattle.std.proofs.Common.{rules};

pub trait Unsigned: Copy {
    // How many bytes a number has.
    ghost WIDTH: { ℕ };

    // What a value is as a number.
    ghost value: { Self → ℕ };

    const WIDTH: usize;

    // The value of a number; what so many bytes can't hold of it is left out.
    fn narrow(number: u32) -> Self
        ensures { value result ≡ number % 256 ^ WIDTH };

    // The number of a value.
    fn widen(self) -> u32
        ensures { result ≡ value self };

    ghost at_most_four: { WIDTH ≤ 4 };
}

impl Unsigned for u8 {
    ghost WIDTH = { 1 };

    ghost value = { λ n. n };

    ghost at_most_four = { Prim.search rules };

    const WIDTH: usize = 1;

    fn narrow(number: u32) -> u8 {
        (number % 256) as u8
    }

    fn widen(self) -> u32 {
        self.into()
    }
}

impl Unsigned for u16 {
    ghost WIDTH = { 2 };

    ghost value = { λ n. n };

    ghost at_most_four = { Prim.search rules };

    const WIDTH: usize = 2;

    fn narrow(number: u32) -> u16 {
        (number % 65536) as u16
    }

    fn widen(self) -> u32 {
        u32::from(self)
    }
}

impl Unsigned for u32 {
    ghost WIDTH = { 4 };

    ghost value = { λ n. n };

    ghost at_most_four = { Prim.search rules };

    const WIDTH: usize = 4;

    fn narrow(number: u32) -> u32 {
        number
    }

    fn widen(self) -> u32 {
        self
    }
}
