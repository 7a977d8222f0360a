// One step of the session, by value.
ghost use Rattle.std.specs.Prelude.{◌≡◌};
ghost use Rattle.session_step.specs.Step.{pin_or_ready, options_after, source_after, accepted, refused, closed, follow, step_of};

use message_rules::accessors::SourceId;
use session_table::event::Event;
use session_table::record::{Session, State};
use session_table::table::Next;
use session_table::{source, table};
use wire::status::{Refusal, Refused};

// What an accepted step has the host do.
#[derive(Clone, Copy, PartialEq, Eq)]
pub struct Accepted {
    // Check the PIN.
    pub check: bool,
}

// What a step answers. The place of a refusal is where in the message its cause stands; 0 where it is not the message's.
pub type Answer = Result<Accepted, Refused>;

// The answer, and the session afterwards.
#[derive(Clone, Copy)]
pub struct Stepped {
    pub answer: Answer,
    pub session: Session,
}

// An event by its number, which is what `table::expected` and `source::carries` are asked by, and what comes with it: a Source ID, which may
// be absent, and the option byte. (`step` takes the three apart: docs/PROMISES.md names it, and a host gives each by itself.)
#[derive(Clone, Copy)]
struct Brought {
    event: u8,
    source: SourceId,
    options: u8,
}

// Where a handshake leads: the PIN option is bit 02 hex of the option byte, SinkDisplaysPin (001 section 2.2.7.5).
#[tactic(auto, unfolding(crate::specs::Step::pin_or_ready, crate::specs::Step::wants_pin))]
fn pin_or_ready(options: u8) -> State
    ensures { result ≡ pin_or_ready options }
{
    if options / 2 % 2 == 1 {
        State::PinWait
    } else {
        State::ReadyWait
    }
}

// The options after an accepted event: in Waiting a Session Request brings them and a Security Handshake sets 0, else the kept ones stay.
#[tactic(auto, unfolding(crate::specs::Step::options_from, session_table::specs::Table::is_event))]
fn options_after(session: Session, brought: Brought) -> u8
    ensures { result ≡ options_after session.state brought.event session.options brought.options }
{
    match (session.state, Event::try_from(brought.event)) {
        (State::Waiting, Ok(Event::SecurityHandshake)) => 0,
        (State::Waiting, Ok(Event::SessionRequest)) => brought.options,
        _ => session.options,
    }
}

// The Source ID after an accepted event: the first that one carried.
#[tactic(auto, unfolding(crate::specs::Step::source_after))]
fn source_after(kept: SourceId, brought: Brought) -> SourceId
    ensures { result ≡ source_after kept brought.event brought.source }
{
    if !kept.present && source::carries(brought.event, brought.source) {
        brought.source
    } else {
        kept
    }
}

// An event is accepted and leads to a state.
#[tactic(auto, unfolding(crate::specs::Step::accepted))]
fn accept(session: Session, to: State, check: bool, brought: Brought) -> Stepped
    ensures { result ≡ accepted session to check brought.event brought.source brought.options }
{
    Stepped {
        answer: Ok(Accepted { check }),
        session: Session {
            state: to,
            options: options_after(session, brought),
            source: source_after(session.source, brought),
        },
    }
}

// An event is refused; the session is given.
fn refuse(refusal: Refusal, session: Session) -> Stepped
    ensures { result ≡ refused refusal 0 session }
{
    Stepped {
        answer: Err(refusal.into()),
        session,
    }
}

// The session closed: its state's name changes and nothing else.
fn close(session: Session) -> Session
    ensures { result ≡ closed session }
{
    Session {
        state: State::Closed,
        ..session
    }
}

// Does what the table says.
#[inline(always)]
fn follow(next: Next, session: Session, brought: Brought) -> Stepped
    ensures { result ≡ follow next session brought.event brought.source brought.options }
{
    match next {
        Next::NoEvent => refuse(Refusal::UnknownKind, session),
        Next::Unexpected => refuse(Refusal::UnexpectedEvent, close(session)),
        Next::CheckPin => accept(session, session.state, true, brought),
        Next::PinOrReady => accept(session, pin_or_ready(session.options), false, brought),
        Next::To(state) => accept(session, state, false, brought),
    }
}

// The step. A number that is no event is refused with 4 in any state, a message of another source with 15, and what the table doesn't have with
// 14. (Only a message is ever of another source, so that the first two never meet.) Put into its callers: a refusal that a function hands out
// beside a session goes through memory with its padding (docs/MEASURED.md).
#[inline(always)]
#[tactic(auto, using(crate::proofs::Laws::Step::step_other), unfolding(crate::specs::Step::step_of, session_table::specs::Table::expected_of))]
pub fn step(session: Session, event: u8, source: SourceId, options: u8) -> Stepped
    ensures { result ≡ step_of session event source options }
{
    if source::is_other(session, event, source) {
        return refuse(Refusal::OtherSource, session);
    }
    let brought = Brought {
        event,
        source,
        options,
    };
    follow(table::expected(event, session.state), session, brought)
}
