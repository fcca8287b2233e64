//! The program over the real ends: the words of the command line, standard input and standard output, the folder `store`, which is
//! made where it isn't there, Unix sockets and the system's clock. All that it does is [`pw_run::run`]; nothing goes to standard
//! error.
#![tactic(auto)]

use link_io::{FolderStore, StdIn, StdOut, UnixLinker, WallClock};
use pw_run::{Outcome, run};
use rpc_crew::Free;
use std::process::ExitCode;
use std::{env, fs, io};

// The folder of the store.
const STORE: &str = "store";

fn main(rt: HostRuntime) -> ExitCode {
    // Without the folder the store can't be listed, which the run tells.
    let _ = fs::create_dir_all(&rt, STORE);
    let words = match words(&rt) {
        Ok(words) => words,
        Err(outcome) => return ExitCode::from(outcome.code()),
    };
    let Ok(mut store) = FolderStore::new(rt.alloc(), &rt, STORE) else {
        return ExitCode::from(Outcome::NoMemory.code());
    };
    let status = run(
        &rt,
        rt.alloc(),
        &words,
        &mut StdIn::new(rt.stdin()),
        &mut StdOut::new(rt.stdout()),
        &mut store,
        &mut UnixLinker::new(rt.alloc(), &rt),
        &mut WallClock::new(&rt),
        &Free,
    );
    ExitCode::from(status)
}

// The words behind the program's name. Words that are no text are no command.
fn words(rt: &HostRuntime) -> Result<Vec<String>, Outcome> {
    let args = env::args(rt).map_err(|error| match error.kind() {
        io::ErrorKind::OutOfMemory => Outcome::NoMemory,
        _ => Outcome::BadWords,
    })?;
    let mut words = Vec::new(rt.alloc());
    for word in args.skip(1) {
        words.push(word).map_err(|_| Outcome::NoMemory)?;
    }
    Ok(words)
}
