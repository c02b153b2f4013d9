//! The program: it hands the words of its command line, real files and standard output to the top
//! call, and ends with the status of the answer.
#![tactic(auto)]

ghost use Rattle.std.specs.Prelude.{◌≡◌, ◌≢◌};
ghost use Rattle.std.specs.IoError.{error_kind};

use sb_run::{Answer, run, status};
use sb_shelf::HostShelf;
use std::alloc::Global;
use std::env::args;
use std::io;
use std::io::ErrorKind;
use std::process::ExitCode;

fn main(rt: HostRuntime) -> ExitCode {
    let alloc = rt.alloc();
    let status = match words(&rt, alloc) {
        Ok(words) => status(&run(alloc, words.as_slice(), &mut HostShelf::new(rt))),
        Err(error) => status_without_words(&error),
    };
    ExitCode::from(status)
}

/// The words behind the program's name.
fn words(rt: &HostRuntime, alloc: Global) -> io::Result<Vec<String>> {
    let mut words = Vec::new(alloc);
    for word in args(rt)?.skip(1) {
        words.push(word)?;
    }
    Ok(words)
}

/// The status where there are no words: 11 where there was no memory for them, as of `NoMemory`,
/// and 2 where one of them is not UTF-8, as of `Usage`. Nothing is said.
fn status_without_words(error: &io::Error) -> u8
    ensures no_memory { error_kind error.now ≡ ErrorKind.OutOfMemory → result ≡ 11 }
    ensures no_text { error_kind error.now ≢ ErrorKind.OutOfMemory → result ≡ 2 }
{
    match error.kind() {
        ErrorKind::OutOfMemory => status(&Answer::NoMemory),
        _ => status(&Answer::Usage),
    }
}
