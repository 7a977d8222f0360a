// A step by the bytes of one message.
ghost use Rattle.std.specs.Prelude.{◌≡◌};
ghost use Rattle.session_step.specs.Message.{on_message};

use crate::step;
use crate::step::Stepped;
use message_rules::accessors;
use session_table::record::Session;

// Reads the message in `bytes`, and steps with its command, Source ID and option byte. The reader's refusal is passed on with its place, and
// the session stays.
#[tactic(auto, unfolding(crate::specs::Message::on_message))]
pub fn on_message(session: Session, bytes: &[u8]) -> Stepped
    ensures { result ≡ on_message session bytes.now }
{
    match message_reader::read(bytes) {
        Ok(message) => {
            let source = accessors::source_id(bytes, message);
            let options = accessors::security_options(bytes, message);
            step::step(session, message.command, source, options)
        }
        Err(refused) => Stepped {
            answer: Err(refused),
            session,
        },
    }
}
