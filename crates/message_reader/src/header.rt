// The header of a message: Size, Version and Command (001 section 2.2).
ghost use Rattle.std.specs.Prelude.{◌≡◌, ◌≤◌, length};
ghost use Rattle.message_reader.specs.Reading.{size_in, command_in, read_size, header_status};

use message_rules::rules;
use wire::number;
use wire::status::{Refusal, Status};

// The Size of the message that `bytes` begin with, which counts the header. Bytes after the header are not looked at.
#[tactic(auto, unfolding(wire::specs::Checks::first_of, crate::specs::Reading::read_size))]
pub fn read_size(bytes: &[u8]) -> Result<usize, Refusal>
    ensures { result ≡ read_size bytes.now }
{
    if bytes.len() < 4 {
        return Err(Refusal::Truncated);
    }
    let size = number::read::<u16>(bytes, 0) as usize;
    if size < 4 {
        return Err(Refusal::WrongSize);
    }
    Ok(size)
}

// Whether the header of a message of that Size and command is right, or what it is refused with.
#[tactic(auto, unfolding(wire::specs::Checks::first_of, crate::specs::Reading::header_status))]
fn check_after_size(bytes: &[u8], size: usize, command: u8) -> Status
    requires { (4 ≤ length bytes.now) × (size ≡ size_in bytes.now) × (4 ≤ size) × (command ≡ command_in bytes.now) }
    ensures { result ≡ header_status bytes.now }
{
    if bytes.len() < size {
        return Err(Refusal::Truncated);
    }
    if size < bytes.len() {
        return Err(Refusal::WrongSize);
    }
    if bytes[2] != 1 {
        return Err(Refusal::WrongHeader);
    }
    if !rules::known_command(command) {
        return Err(Refusal::UnknownKind);
    }
    Ok(())
}

// Whether the header of a message of that command is right, or what it is refused with: its size, version or command.
#[tactic(auto, using(crate::proofs::Laws::Header::size_declared, crate::proofs::Laws::Header::size_refused))]
pub(crate) fn check(bytes: &[u8], command: u8) -> Status
    requires { command ≡ command_in bytes.now }
    ensures { result ≡ header_status bytes.now }
{
    let size = read_size(bytes)?;
    check_after_size(bytes, size, command)
}
