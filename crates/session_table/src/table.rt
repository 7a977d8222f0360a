// The table of the session: what an event does in a state. Events 1 to 6 are the commands of messages, 7 to 10 are the host's.
ghost use Rattle.std.specs.Prelude.{◌≡◌};
ghost use Rattle.session_table.specs.Table.{table, expected_of};

use crate::event::Event;
use crate::record::State;

// What an event does.
#[derive(Clone, Copy, PartialEq, Eq)]
pub enum Next {
    // No event has this number.
    NoEvent,
    // The table doesn't have the event in this state.
    Unexpected,
    // The state stays, and the host shall check the PIN.
    CheckPin,
    // To PinWait if the kept options ask for a PIN, else to ReadyWait.
    PinOrReady,
    // To this state, which may be the same.
    To(State),
}

// What the event does in the state.
#[tactic(auto, unfolding(crate::specs::Table::expected_of, crate::specs::Table::is_event))]
pub fn expected(event: u8, state: State) -> Next
    ensures { result ≡ expected_of event state }
{
    let Ok(event) = Event::try_from(event) else {
        return Next::NoEvent;
    };
    match (event, state) {
        (_, State::Closed) => Next::Unexpected,
        (Event::SourceReady, State::Waiting | State::ReadyWait) => Next::To(State::Projecting),
        (Event::StopProjection | Event::ConnectionLost, _) => Next::To(State::Closed),
        (Event::SecurityHandshake, State::Waiting | State::Handshake) => Next::To(State::Handshake),
        (Event::SessionRequest, State::Waiting) => Next::To(State::Handshake),
        (Event::PinChallenge, State::PinWait) => Next::CheckPin,
        (Event::HandshakeDone, State::Handshake) => Next::PinOrReady,
        (Event::PinRight, State::PinWait) => Next::To(State::ReadyWait),
        (Event::PinWrong, State::PinWait) => Next::To(State::Closed),
        // A PIN Response too: a sink sends it and gets none.
        _ => Next::Unexpected,
    }
}
