// The events of the session: the commands of messages, 1 to 6, and what the host tells, 7 to 10.
ghost use Rattle.session_table.specs.Event.{Numbered};

#[derive(Clone, Copy, PartialEq, Eq)]
pub enum Event {
    SourceReady,
    StopProjection,
    SecurityHandshake,
    SessionRequest,
    PinChallenge,
    PinResponse,
    HandshakeDone,
    PinRight,
    PinWrong,
    ConnectionLost,
}

// No event has this number.
#[derive(Clone, Copy, PartialEq, Eq)]
pub struct NoSuchEvent;

// A host in C gives an event by its number, and a message by its command: so the public functions take the number, and any number.
impl TryFrom<u8> for Event {
    type Error = NoSuchEvent;

    ghost try_from_gives = { Numbered };

    #[tactic(auto, unfolding(crate::specs::Table::is_event))]
    fn try_from(number: u8) -> Result<Event, NoSuchEvent> {
        match number {
            1 => Ok(Event::SourceReady),
            2 => Ok(Event::StopProjection),
            3 => Ok(Event::SecurityHandshake),
            4 => Ok(Event::SessionRequest),
            5 => Ok(Event::PinChallenge),
            6 => Ok(Event::PinResponse),
            7 => Ok(Event::HandshakeDone),
            8 => Ok(Event::PinRight),
            9 => Ok(Event::PinWrong),
            10 => Ok(Event::ConnectionLost),
            _ => Err(NoSuchEvent),
        }
    }
}
