//! The command `dump` alone, over standard input and output: its words, lines and statuses are those of `dump` of `pw_main`. It stands
//! on fewer libraries, so a fresh clone runs it unproved in a quarter of the time.
#![tactic(auto)]

use link_io::{StdIn, StdOut, Why};
use std::process::ExitCode;
use std::{env, io};
use stream_dump::{MethodNames, dump};

const NO_MEMORY: u8 = 1;

const BAD_WORDS: u8 = 2;

fn main(rt: HostRuntime) -> ExitCode {
    let status = match words(&rt) {
        Ok(words) => run(&rt, &words),
        Err(error) if matches!(error.kind(), io::ErrorKind::OutOfMemory) => NO_MEMORY,
        // A word that is no text.
        Err(_) => BAD_WORDS,
    };
    ExitCode::from(status)
}

// The words behind the program's name.
fn words(rt: &HostRuntime) -> io::Result<Vec<String>> {
    let mut words = Vec::new(rt.alloc());
    for word in env::args(rt)?.skip(1) {
        words.push(word)?;
    }
    Ok(words)
}

// Tells what is in the input, where the words are `dump` and the names of methods, and answers the exit status.
fn run(rt: &HostRuntime, words: &[String]) -> u8 {
    let [word, names @ ..] = words else {
        return BAD_WORDS;
    };
    if word.as_str() != "dump" {
        return BAD_WORDS;
    }
    let Some(mut names) = MethodNames::of(names) else {
        return BAD_WORDS;
    };
    names.add_known();
    let mut input = StdIn::new(rt.stdin());
    let mut output = StdOut::new(rt.stdout());
    status_of(dump(names.as_slice(), &mut input, &mut output))
}

// The exit status of a dump that ended for this reason.
fn status_of(why: Why) -> u8 {
    match why {
        Why::Settled => 0,
        Why::Memory => NO_MEMORY,
        Why::Source => 3,
        Why::Sink => 4,
        Why::Store => 5,
        Why::InputLimit | Why::JournalLimit => 8,
    }
}
