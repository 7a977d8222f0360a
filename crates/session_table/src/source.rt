// Which source a message comes from.
ghost use Rattle.std.specs.Prelude.{◌≡◌};
ghost use Rattle.session_table.specs.Source.{carried, other_source};

use crate::record::{Session, State};
use message_rules::accessors::SourceId;
use message_rules::rules;

// Whether the event is a message that carries a Source ID.
#[tactic(auto, unfolding(crate::specs::Source::carried))]
pub fn carries(event: u8, source: SourceId) -> bool
    ensures { result ≡ carried event source }
{
    source.present && rules::known_command(event)
}

// Whether, in an open state, the event is a message that carries another Source ID than the kept one.
#[tactic(auto, using(crate::proofs::Laws::Source::same_compared), unfolding(crate::specs::Source::other_source))]
pub fn is_other(session: Session, event: u8, source: SourceId) -> bool
    ensures { result ≡ other_source session event source }
{
    let kept = session.source;
    session.state != State::Closed
        && carries(event, source)
        && kept.present
        && kept.bytes != source.bytes
}
