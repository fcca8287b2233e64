//! The words of the commands of a client.

use pw_run::{ClientCommand, LiveCommand};
use std::alloc::{AllocError, Global};
use std::process::Abort;

// The words, with a stroke between each two.
fn words_of(alloc: Global, row: &str) -> Result<Vec<String>, AllocError> {
    let mut words = Vec::new(alloc);
    for word in row.split('|') {
        words.push(String::from_str(alloc, word)?)?;
    }
    Ok(words)
}

// These words ask for this command, or for none on threads.
fn asks(
    rt: &impl Abort,
    alloc: Global,
    row: &str,
    command: Option<LiveCommand>,
) -> Result<(), AllocError> {
    let words = words_of(alloc, row)?;
    assert_eq!(rt; LiveCommand::of(&words), command, "{row}");
    Ok(())
}

const GET: ClientCommand = ClientCommand::Get {
    resource: 4_294_967_295,
    offset: 16_777_216,
};

const PUT: ClientCommand = ClientCommand::Put {
    resource: 0,
    offset: 0,
};

const WATCH: ClientCommand = ClientCommand::Watch {
    number: 255,
    limit: 64,
};

fn asks_client(
    rt: &impl Abort,
    alloc: Global,
    row: &str,
    command: ClientCommand,
) -> Result<(), AllocError> {
    asks(rt, alloc, row, Some(LiveCommand::Client(command)))
}

#[test]
fn a_client_is_asked_within_its_bounds(rt: HostRuntime) -> Result<(), AllocError> {
    asks_client(&rt, rt.alloc(), "get|p|4294967295|16777216", GET)?;
    asks_client(&rt, rt.alloc(), "put|p q|0|0", PUT)?;
    asks_client(&rt, rt.alloc(), "watch|p|255|64", WATCH)
}

const OTHERS: &[&str] = &[
    "get",
    "get|p|7",
    "get|p|7|0|0",
    "get||7|0",
    "get|p|07|0",
    "get|p|7|+0",
    "get|p|4294967296|0",
    "get|p|7|16777217",
    "Get|p|7|0",
    "put||7|0",
    "put|p|-7|0",
    "put|p|7|16777217",
    "watch|p|2",
    "watch||2|1",
    "watch|p|256|1",
    "watch|p|2|0",
    "watch|p|2|65",
    "watch|p|2|01",
];

#[test]
fn other_words_ask_nothing_of_a_client(rt: HostRuntime) -> Result<(), AllocError> {
    for &row in OTHERS {
        asks(&rt, rt.alloc(), row, None)?;
    }
    Ok(())
}
