// An argument of a program, as text.
ghost use Rattle.std.specs.Prelude.{◌≡◌, take, Some, MatchResult, IsOkAnd, IfOk, IsUtf8};
ghost use Rattle.std.specs.IoError.{raw_os_error};
ghost use Rattle.print.specs.Argument.{refusal_of};

use std::env::FillError;
use std::io::Error;

// The numbers of the system's errors for an argument that is missing, is longer than the bytes lent for it, or is no text.
const EINVAL: i32 = 22;

const ENAMETOOLONG: i32 = 36;

const EILSEQ: i32 = 84;

// The argument that stands at the front of the bytes, if it was got and is text; else why not, in the system's terms.
pub fn text(got: Result<usize, FillError>, bytes: &[u8]) -> Result<&str, Error>
    ensures { MatchResult result
        (λ text. IsOkAnd got (λ n. text.now ≡ take n bytes.now))
        (λ error. (raw_os_error error ≡ Some (refusal_of got)) × IfOk got (λ n. ¬ (IsUtf8 (take n bytes.now)))) }
{
    let why = match got {
        Ok(length) => match std::str::from_utf8(front(bytes, length)) {
            Ok(text) => return Ok(text),
            Err(_) => EILSEQ,
        },
        Err(FillError::TooLong) => ENAMETOOLONG,
        Err(FillError::NotPresent) => EINVAL,
    };
    Err(Error::from_raw_os_error(why))
}

// The first bytes, as many as there are.
fn front(bytes: &[u8], length: usize) -> &[u8]
    ensures { result.now ≡ take length bytes.now }
{
    if length < bytes.len() {
        &bytes[..length]
    } else {
        bytes
    }
}
