// What a call answers: that it accepts, or one of the refusals of 01, "Refusal numbers".
ghost use Rattle.std.specs.Prelude.{◌≡◌};
ghost use Rattle.wire.specs.Status.{refusal_number, number_of, status_for, refused_at};

// The refusals. Code and definitions use these names.
#[derive(Clone, Copy, PartialEq, Eq)]
pub enum Refusal {
    // 1: the bytes end before the fixed header or the declared size.
    Truncated = 1,
    // 2: declared size below the header, not 7 for a position, or bytes left over after it.
    WrongSize,
    // 3: Version not 1, or of a packet's RTP header the first byte not 80 hex or the second not 0 (02 §2).
    WrongHeader,
    // 4: unknown command, message type or session event, or a packet type not taken by that call.
    UnknownKind,
    // 5: fewer than 3 bytes left for a TLV, or its value runs past the message.
    TlvTruncated,
    // 6: TLV length wrong for its type.
    TlvLength,
    // 7: a TLV for the second time.
    TlvRepeated,
    // 8: unknown TLV, one foreign to the command, or one missing.
    TlvUnexpected,
    // 9: negative offset, or offset plus data beyond the total.
    OutsideImage,
    // 10: no room: output shorter than needed, or total above 262,144 or above the lent picture or marks.
    NoRoom,
    // 11: sequence not newer.
    NotNewer,
    // 12: total differs from the opened picture's.
    TotalDiffers,
    // 13: a filled place would get another byte, or a second start differs in its own fields.
    Conflict,
    // 14: unexpected in this session state.
    UnexpectedEvent,
    // 15: message from another source.
    OtherSource,
    // 16: text not of the grammar.
    NotGrammar,
    // 17: opened picture's total above 262,144 or above the lent picture or marks.
    ImageNotHeld,
    // 18: a record that can't be written: a place or length outside the lent bytes, a value of wrong length, no such command, TLVs not
    // those of its command, a declared size above 65,535.
    NotWritable,
}

// The paper's number of a refusal.
impl From<Refusal> for u8 {
    ghost from_gives = { λ refusal number. number ≡ refusal_number refusal };

    fn from(refusal: Refusal) -> u8 {
        refusal as u8
    }
}

// Accepted, or the refusal.
pub type Status = Result<(), Refusal>;

// A refusal and its place: in a message the byte at fault, else 0.
#[derive(Clone, Copy, PartialEq, Eq)]
pub struct Refused {
    pub refusal: Refusal,
    pub place: usize,
}

impl From<Refusal> for Refused {
    ghost from_gives = { λ refusal refused. refused ≡ refused_at refusal 0 };

    fn from(refusal: Refusal) -> Refused {
        Refused { refusal, place: 0 }
    }
}

// The paper's number of a status: 0 where it accepts.
pub fn number(status: Status) -> u8
    ensures { result ≡ number_of status }
{
    match status {
        Ok(()) => 0,
        Err(refusal) => refusal.into(),
    }
}

// The status of a number. No refusal has a number above 18: one is an unknown kind. (No TryFrom: each number has its status, 0 too.)
#[tactic(auto, unfolding(crate::specs::Status::status_for))]
pub fn of_number(number: u8) -> Status
    ensures { result ≡ status_for number }
{
    match number {
        0 => Ok(()),
        1 => Err(Refusal::Truncated),
        2 => Err(Refusal::WrongSize),
        3 => Err(Refusal::WrongHeader),
        4 => Err(Refusal::UnknownKind),
        5 => Err(Refusal::TlvTruncated),
        6 => Err(Refusal::TlvLength),
        7 => Err(Refusal::TlvRepeated),
        8 => Err(Refusal::TlvUnexpected),
        9 => Err(Refusal::OutsideImage),
        10 => Err(Refusal::NoRoom),
        11 => Err(Refusal::NotNewer),
        12 => Err(Refusal::TotalDiffers),
        13 => Err(Refusal::Conflict),
        14 => Err(Refusal::UnexpectedEvent),
        15 => Err(Refusal::OtherSource),
        16 => Err(Refusal::NotGrammar),
        17 => Err(Refusal::ImageNotHeld),
        18 => Err(Refusal::NotWritable),
        _ => Err(Refusal::UnknownKind),
    }
}
