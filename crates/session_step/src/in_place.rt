// The step on the session record that the host keeps and lends (01: "The host keeps one session record and lends it to be changed in place").
ghost use Rattle.std.specs.Prelude.{◌≡◌};
ghost use Rattle.session_step.specs.Step.{stepped_to, step_of};

use crate::step::{Answer, Stepped, step};
use message_rules::accessors::SourceId;
use session_table::record::Session;

// Steps, leaves the session afterwards in the lent record, and answers.
pub fn step_in_place(session: &mut Session, event: u8, source: SourceId, options: u8) -> Answer
    ensures { stepped_to result session.new ≡ step_of session.old event source options }
{
    let after = step(*session, event, source, options);
    *session = after.session;
    after.answer
}

// The same for a caller that has the session by value: it goes into a record here, which is lent.
pub fn lend_and_step(session: Session, event: u8, source: SourceId, options: u8) -> Stepped
    ensures { result ≡ step_of session event source options }
{
    let mut kept = session;
    let answer = step_in_place(&mut kept, event, source, options);
    Stepped {
        answer,
        session: kept,
    }
}
