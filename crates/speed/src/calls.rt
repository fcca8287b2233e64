//! What `bench/calls` measures: calls of Chat are opened, and then messages go to them by turns, each followed by a run
//! of its call; and calls of Echo are opened and closed, one behind another.
ghost use Rattle.std.specs.Prelude.{◌≡◌};
ghost use Rattle.speed.specs.Fed.{IsFed, bare_seed};

mod closed;
mod fed;
mod timed;

use closed::Written;
use demo_services::{DemoCall, DemoMaker};
use fed::{bare_maker, open_table};
use rpc_calls::Calls;
use rpc_handlers::Maker;
use std::fs;
use std::time::Instant;
use timed::{Times, close_calls, open_calls, serve};

/// Opens so many calls, lets so many messages go to them, and prints how many entries and calls the table then has, and to standard
/// error the nanoseconds that the openings, all arrivals, starts, handlers and finishes took, and as many readings of the clock.
pub fn measure(rt: &HostRuntime, live: u32, messages: u32) -> anyhow::Result<()> {
    let maker = bare_maker(rt.alloc())?;
    let mut calls = open_table(rt.alloc(), &maker)?;
    time_messages(rt, &mut calls, &maker, live, messages)
}

fn time_messages(
    rt: &HostRuntime,
    calls: &mut Calls<DemoCall>,
    maker: &DemoMaker,
    live: u32,
    messages: u32,
) -> anyhow::Result<()>
    requires seed { ⟦<DemoMaker as Maker>⟧.seed_memo maker.now ≡ bare_seed }
    requires fed { IsFed calls.old }
{
    let begun = Instant::now(rt)?;
    open_calls(calls, maker, live)?;
    let opened = Instant::now(rt)?;
    let mut times = Times::default();
    serve(rt, calls, maker, live, messages, &mut times)?;
    tell_counts(rt, calls.journal().len(), calls.count())?;
    tell_times(rt, opened.duration_since(begun).as_nanos(), &times)
}

/// Opens and closes so many calls of Echo on one table, and prints how many entries and calls it then has, and to standard
/// error the nanoseconds that they took, and what the system tells of the program's memory while the table is there.
pub fn measure_closed(rt: &HostRuntime, count: u32) -> anyhow::Result<()> {
    let maker = bare_maker(rt.alloc())?;
    let mut calls = open_table(rt.alloc(), &maker)?;
    time_closings(rt, &mut calls, &maker, count)
}

fn time_closings(
    rt: &HostRuntime,
    calls: &mut Calls<DemoCall>,
    maker: &DemoMaker,
    count: u32,
) -> anyhow::Result<()>
    requires seed { ⟦<DemoMaker as Maker>⟧.seed_memo maker.now ≡ bare_seed }
    requires fed { IsFed calls.old }
{
    let begun = Instant::now(rt)?;
    close_calls(calls, maker, count)?;
    let closed = Instant::now(rt)?;
    tell_counts(rt, calls.journal().len(), calls.count())?;
    tell_memory(rt, closed.duration_since(begun).as_nanos())
}

/// Writes the entries of so many such calls into a journal, with as much room as a table keeps for them, and prints the same.
pub fn measure_written(rt: &HostRuntime, count: u32) -> anyhow::Result<()> {
    let mut written = Written::new(rt.alloc());
    let begun = Instant::now(rt)?;
    for call in 0..count {
        written.write_call(rt.alloc(), call)?;
    }
    let ended = Instant::now(rt)?;
    tell_counts(rt, written.len(), count)?;
    tell_memory(rt, ended.duration_since(begun).as_nanos())
}

// How many entries and calls there are.
fn tell_counts(rt: &HostRuntime, entries: u64, calls: u32) -> anyhow::Result<()> {
    println!(rt; "entries {} calls {}", entries, calls)?;
    Ok(())
}

// The nanoseconds of the openings, and what the messages took.
fn tell_times(rt: &HostRuntime, openings: u128, times: &Times) -> anyhow::Result<()> {
    eprintln!(rt; "openings {} {}", openings, times)?;
    Ok(())
}

// The nanoseconds, and behind them the sizes in pages that the system tells of this program.
fn tell_memory(rt: &HostRuntime, nanoseconds: u128) -> anyhow::Result<()> {
    let pages = fs::read_to_string(rt, "/proc/self/statm")?;
    eprintln!(rt; "{} {}", nanoseconds, pages)?;
    Ok(())
}
