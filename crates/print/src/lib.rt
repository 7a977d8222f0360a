// For programs: an argument as text, bytes in hexadecimal digits, and on standard error why something failed.
#![tactic(auto)]

pub mod argument;
pub mod hex;

use std::io::{Eprint, Error};

// The system's words for an error, without its number.
fn without_number(words: &str) -> &str {
    match words.find(" (os error ") {
        Some(end) => &words[..end],
        None => words,
    }
}

// A line on standard error: what failed, a colon and the system's words for why.
pub fn failed(rt: &HostRuntime, what: &str, error: Error) {
    match format!(in rt.alloc(); "{error}") {
        Ok(words) => {
            let why = without_number(words.as_str());
            rt.eprintln(format_args!("{what}: {why}")).ok();
        }
        // There is no memory for the words: with the number, then.
        Err(_) => {
            rt.eprintln(format_args!("{what}: {error}")).ok();
        }
    }
}
