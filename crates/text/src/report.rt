// How a program ends that could not read or write.
ghost use Rattle.std.specs.Prelude.{◌≡◌};

use std::io::{Eprint, Write};
use std::process::ExitCode;
use std::{io, str};

/// The longest text of an error that is told.
const ERROR_MOST: usize = 128;

/// What failed is told on standard error, and why, without the number that errno has; the status of a program that ends so.
pub fn failure<R: Eprint>(rt: &R, what: &str, error: io::Error) -> ExitCode
    ensures { result ≡ ExitCode.FAILURE }
{
    let mut text = [0u8; ERROR_MOST];
    let mut rest = &mut text[..];
    let _ = write!(rest, "{error}");
    let n = ERROR_MOST.saturating_sub(rest.len());
    let why = str::from_utf8(&text[..n]).unwrap_or("");
    let words = match why.split_once(" (os error ") {
        Some((words, _)) => words,
        None => why,
    };
    let _ = eprintln!(rt; "{what}: {words}");
    ExitCode::FAILURE
}
