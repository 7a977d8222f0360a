// Writes each of the 65,536 numbers of each field and reads it back; then reads spellings, good and bad, and shows what they mean.
#![tactic(auto)]

ghost use Rattle.std.specs.Prelude.{◌≤◌};

use cursor_limits::value::{Limits, Value, Xor};

// The fields of a value.
#[derive(Clone, Copy)]
enum Field {
    Width,
    Height,
    Port,
}

// Limits with the number in that field.
fn sample(field: Field, number: u16) -> Limits {
    match field {
        Field::Width => Limits {
            xor: Xor::Full,
            width: number,
            height: 128,
            port: 50001,
        },
        Field::Height => Limits {
            xor: Xor::None,
            width: 256,
            height: number,
            port: 50001,
        },
        Field::Port => Limits {
            xor: Xor::Full,
            width: 256,
            height: 128,
            port: number,
        },
    }
}

// Whether the limits, written and read, come back the same.
fn comes_back(limits: Limits) -> bool {
    let value = Value::Supported(limits);
    let mut text = [0; 19];
    cursor_limits::write(value, &mut text).is_ok() && cursor_limits::read(&text) == Ok(value)
}

// How many of the 65,536 numbers of the field come back.
fn count(field: Field) -> usize
    ensures { result ≤ 65536 }
{
    (0..=u16::MAX)
        .filter(|number| comes_back(sample(field, *number)))
        .count()
}

// The text in quotes, and what it means.
fn show(rt: &HostRuntime, text: &str) {
    print!(rt; "\"{text}\" ").ok();
    match cursor_limits::read(text.as_bytes()) {
        Ok(Value::NotSupported) => println!(rt; "not supported"),
        Ok(Value::Supported(limits)) => println!(rt; "{limits}"),
        Err(refused) => println!(rt; "refused {}", u8::from(refused.refusal)),
    }
    .ok();
}

const SPELLINGS: [&str; 26] = [
    // Values.
    "none",
    "NONE",
    "nOnE",
    "full 0100 0080 C351",
    "FULL 0100 0080 c351",
    "none 0000 FFFF ffff",
    "Full aBcD AbCd 1c44",
    // Words.
    "",
    "non",
    "none ",
    " none",
    "full",
    "nonefull 0100 0080 C351",
    "some 0100 0080 C351",
    // Spaces.
    "full  0100 0080 C351",
    "full 0100  080 C351",
    "full\t0100 0080 C351",
    "full 0100 0080 C351 ",
    "full 0100 0080 C351\n",
    // Digits.
    "full 0x0200 0x0200 50001",
    "full 0200 0200 50001",
    "full 100 0080 C351",
    "full 0100 0080 C35G",
    "full 0100 0080 C35g",
    "full 01/0 00:0 C3@1",
    "full 0100 0080",
];

fn run(rt: &HostRuntime) {
    println!(rt; "width {}", count(Field::Width)).ok();
    println!(rt; "height {}", count(Field::Height)).ok();
    println!(rt; "port {}", count(Field::Port)).ok();
    for text in SPELLINGS {
        show(rt, text);
    }
}

// A line that can't be written is passed over, as a later write may succeed; the status is 0.
fn main(rt: HostRuntime) {
    run(&rt);
}
