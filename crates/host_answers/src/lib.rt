// What the calls for hosts answer: the status (0 accepted, else the refusal number of 01), and what belongs to it.
#![tactic(auto)]

ghost use Rattle.std.specs.Prelude.{◌≡◌, length, replicate};
ghost use Rattle.wire.specs.Laid.{laid};
ghost use Rattle.wire.specs.Numbered.{numbered};
ghost use Rattle.host_answers.specs.Answers.{answer_of, written_of, value_of, step_as, yes_of};
ghost use Rattle.host_answers.specs.Fresh.{fresh_answer};

use scan::bytes;
use wire::status::{Refusal, Refused};

// Of a reader and of the calls for cursor packets: the place of a refusal.
#[repr(C)]
#[derive(Clone, Copy)]
pub struct Answer {
    pub status: u8,
    pub place: usize,
}

// Of a writer: the number of bytes written, 0 where it refused.
#[repr(C)]
#[derive(Clone, Copy)]
pub struct Written {
    pub status: u8,
    pub size: usize,
}

// Of a step of the session: whether the host shall check the PIN, and the place of a refusal.
#[repr(C)]
#[derive(Clone, Copy)]
pub struct Step {
    pub status: u8,
    pub check: bool,
    pub place: usize,
}

// A number asked for, 0 where there is none.
#[repr(C)]
#[derive(Clone, Copy)]
pub struct Number {
    pub status: u8,
    pub value: u16,
}

// A question answered by yes or no; no where it is refused.
#[repr(C)]
#[derive(Clone, Copy)]
pub struct Yes {
    pub status: u8,
    pub yes: bool,
}

// The paper's number of an answer: 0 where it accepts.
fn status_of<T: Copy + Drop>(answer: Result<T, Refused>) -> u8
    ensures { result ≡ (numbered answer).number }
{
    match answer {
        Ok(_) => 0,
        Err(refused) => refused.refusal.into(),
    }
}

impl From<Result<(), Refused>> for Answer {
    ghost from_gives = { λ read answer. answer ≡ answer_of read };

    fn from(read: Result<(), Refused>) -> Answer {
        Answer {
            status: status_of(read),
            place: read.err().map_or(0, |refused| refused.place),
        }
    }
}

impl From<Result<usize, Refused>> for Written {
    ghost from_gives = { λ written answer. answer ≡ written_of written };

    fn from(written: Result<usize, Refused>) -> Written {
        Written {
            status: status_of(written),
            size: written.unwrap_or(0),
        }
    }
}

impl From<Result<u16, Refused>> for Number {
    ghost from_gives = { λ asked answer. answer ≡ value_of asked };

    fn from(asked: Result<u16, Refused>) -> Number {
        Number {
            status: status_of(asked),
            value: asked.unwrap_or(0),
        }
    }
}

impl From<Result<bool, Refused>> for Step {
    ghost from_gives = { λ stepped answer. answer ≡ step_as stepped };

    fn from(stepped: Result<bool, Refused>) -> Step {
        Step {
            status: status_of(stepped),
            check: stepped.unwrap_or(false),
            place: stepped.err().map_or(0, |refused| refused.place),
        }
    }
}

impl From<Result<bool, Refused>> for Yes {
    ghost from_gives = { λ asked answer. answer ≡ yes_of asked };

    fn from(asked: Result<bool, Refused>) -> Yes {
        Yes {
            status: status_of(asked),
            yes: asked.unwrap_or(false),
        }
    }
}

// Writes a fresh record, whose bytes are all 0, and answers 0; or 10 where fewer bytes are lent than the record needs, which then stay as they are.
// The answer is the number that the exports hand on to C.
#[tactic(auto, unfolding(crate::specs::Fresh::fresh_answer, wire::specs::Laid::laid, wire::specs::Splice::splice))]
pub fn fresh(record: &mut [u8], needed: usize) -> u8
    ensures answer { result ≡ fresh_answer needed (length «record».old) }
    ensures bytes { «record».new ≡ laid (replicate needed 0) «record».old }
{
    if record.len() < needed {
        return Refusal::NoRoom.into();
    }
    bytes::fill(&mut record[..needed], 0);
    0
}
