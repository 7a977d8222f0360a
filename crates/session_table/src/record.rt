// The session record that a host keeps for a connection.
ghost use Rattle.std.specs.Prelude.{◌≡◌};
ghost use Rattle.session_table.specs.Record.{fresh_session, state_number, state_of};

use message_rules::accessors::SourceId;

#[derive(Clone, Copy, Debug, PartialEq, Eq)]
pub enum State {
    Waiting,
    Handshake,
    PinWait,
    ReadyWait,
    Projecting,
    Closed,
}

// A host keeps a state by its number: 0 to 4 in the order above, and Closed as 5.
impl From<State> for u8 {
    ghost from_gives = { λ state number. number ≡ state_number state };

    fn from(state: State) -> u8 {
        match state {
            State::Waiting => 0,
            State::Handshake => 1,
            State::PinWait => 2,
            State::ReadyWait => 3,
            State::Projecting => 4,
            State::Closed => 5,
        }
    }
}

// Any greater number is Closed too.
impl From<u8> for State {
    ghost from_gives = { λ number state. state ≡ state_of number };

    #[tactic(auto, unfolding(crate::specs::Record::state_of))]
    fn from(number: u8) -> State {
        match number {
            0 => State::Waiting,
            1 => State::Handshake,
            2 => State::PinWait,
            3 => State::ReadyWait,
            4 => State::Projecting,
            _ => State::Closed,
        }
    }
}

#[derive(Clone, Copy)]
pub struct Session {
    pub state: State,
    // The first Source ID that an accepted event carried, if one did.
    pub source: SourceId,
    // The option byte of the Session Request, or 0. It stands apart from the state: side by side, two bytes that were stored one by one are
    // read as one number, which waits for both.
    pub options: u8,
}

impl Session {
    // The session of a new connection.
    pub fn fresh() -> Session
        ensures { result ≡ fresh_session }
    {
        Session {
            state: State::Waiting,
            options: 0,
            source: SourceId {
                present: false,
                bytes: [0u8; 16],
            },
        }
    }
}
