// Reads a connection message: a header, then TLVs in any order, in one walk (01, "Connection message"). No value is copied: the record has
// its place and length.
#![tactic(auto)]

pub mod header;
mod tlv;
pub mod walk;

ghost use Rattle.std.specs.Prelude.{◌≡◌};
ghost use Rattle.message_reader.specs.Reading.{read_message};

use message_rules::record::Message;
use wire::status::Refused;

// Reads a message, which is all of the lent bytes: its record, or the refusal and its place.
#[tactic(auto, using(crate::proofs::Laws::Answer::answered))]
pub fn read(bytes: &[u8]) -> Result<Message, Refused>
    ensures { result ≡ read_message bytes.now }
{
    let mut values = walk::NONE;
    let command = walk::locate(bytes, &mut values)?;
    Ok(walk::message_from(command, &values))
}
