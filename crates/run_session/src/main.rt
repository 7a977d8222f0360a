// Steps a session in every combination of: its state, an event number from 0 to 11, whether a Source ID is kept, which one the event carries
// (none, the kept one, another), the kept options (without and with the PIN option) and the options that the event brings. Each step is
// made in place, on a session record that is lent. A line each:
//     STATE EVENT KEPT CARRIED OPTIONS BROUGHT: STATUS CHECK STATE OPTIONS FIRST-BYTE-OF-KEPT-ID-OR-0
#![tactic(auto)]

use message_rules::accessors::SourceId;
use session_step::in_place;
use session_table::record::{Session, State};

fn source(present: bool, byte: u8) -> SourceId {
    SourceId {
        present,
        bytes: [byte; 16],
    }
}

// The first byte of a Source ID, or 0 where there is none.
fn first_byte(source: SourceId) -> u8 {
    if source.present { source.bytes[0] } else { 0 }
}

// The Source ID that an event carries.
#[derive(Clone, Copy)]
enum Carried {
    None,
    Kept,
    Another,
}

impl Carried {
    fn source(self) -> SourceId {
        match self {
            Carried::None => source(false, 0),
            Carried::Kept => source(true, 7),
            Carried::Another => source(true, 8),
        }
    }
}

// A step to be made: what the session keeps, and what the event brings.
#[derive(Clone, Copy)]
struct Case {
    state: State,
    event: u8,
    kept: bool,
    carried: Carried,
    options: u8,
    brought: u8,
}

impl Case {
    fn session(&self) -> Session {
        Session {
            state: self.state,
            options: self.options,
            source: source(self.kept, 7),
        }
    }
}

fn line(rt: &HostRuntime, case: Case) {
    let Case {
        state,
        event,
        kept,
        carried,
        options,
        brought,
    } = case;
    print!(rt;
        "{state:?} {event} {} {} {options} {brought}:",
        kept as u8, carried as u8
    )
    .ok();
    let after = in_place::lend_and_step(case.session(), event, carried.source(), brought);
    let (status, check) = match after.answer {
        Ok(accepted) => (0, accepted.check),
        Err(refused) => (u8::from(refused.refusal), false),
    };
    print!(rt; " {status} {}", check as u8).ok();
    let session = after.session;
    let first = first_byte(session.source);
    println!(rt; " {:?} {} {first}", session.state, session.options).ok();
}

// The lines of a state and an event.
fn event_lines(rt: &HostRuntime, state: State, event: u8) {
    for kept in [false, true] {
        for carried in [Carried::None, Carried::Kept, Carried::Another] {
            for options in [0, 2] {
                for brought in [0, 3] {
                    line(
                        rt,
                        Case {
                            state,
                            event,
                            kept,
                            carried,
                            options,
                            brought,
                        },
                    );
                }
            }
        }
    }
}

// From a fresh session's state, Waiting, on.
fn run(rt: &HostRuntime) {
    for state in [
        Session::fresh().state,
        State::Handshake,
        State::PinWait,
        State::ReadyWait,
        State::Projecting,
        State::Closed,
    ] {
        for event in 0..=11 {
            event_lines(rt, state, event);
        }
    }
}

// A line that can't be written is passed over, as a later write may succeed; the status is 0.
fn main(rt: HostRuntime) {
    run(&rt);
}
