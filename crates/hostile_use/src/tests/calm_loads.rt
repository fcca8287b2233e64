//! Twenty loads, whose packets are calm: a crew of any size reports what the history of one thread says.

use super::checks::{row_of, told};
use super::{run_on, store};
use demo_services::{DemoMaker, demo_registry};
use link_io::{Fulls, Lefts, Shelf, Why};
use load_stream::LoadSource;
use pw_run::LAST_CHANNEL;
use rpc_channel::Channels;
use rpc_crew::Free;
use rpc_schedule::replay;
use rpc_server::Server;
use run_report::crew_text;
use std::alloc::{AllocError, Global};
use std::process::Abort;
use std::sync::Wait;
use std::thread::Threads;
use transfer_chunk::Tuning;

const SEEDS: &[u64] = &[
    0x9E37_79B9_7F4A_7C15,
    0x3C6E_F372_FE94_F82A,
    3,
    71,
    902,
    5_113,
    60_427,
    718_281,
    8_281_828,
    45_904_523,
    536_028_747,
    1_352_662_497,
    75_724_709_369,
    995_957_496_696,
    7_627_724_076_630,
    35_354_759_457_138,
    217_852_516_642_742,
    7_466_391_932_003_059,
    921_817_413_596_629_043,
    18_446_744_073_709_551_615,
];

// So many calls has each.
const CALLS: u32 = 24;

fn channels(alloc: Global) -> Result<Channels, AllocError> {
    let mut channels = Channels::new(alloc);
    for id in 1..=LAST_CHANNEL {
        channels.add(id).map_err(|_| AllocError)?;
    }
    Ok(channels)
}

// What is reported, call by call, of the history of a server on one thread.
fn by_one_thread(alloc: Global, seed: u64) -> Result<String, AllocError> {
    let shelf = Shelf {
        full: Fulls::new(alloc),
        left: Lefts::new(alloc),
    };
    let tuning = Tuning {
        window: 4,
        chunk: 256,
    };
    let maker = DemoMaker::new(alloc, shelf, tuning)?;
    let mut server = Server::new(alloc, channels(alloc)?, demo_registry(alloc)?, maker)?;
    let mut source = LoadSource::new(alloc, CALLS, seed)?;
    let mut items = Vec::new(alloc);
    replay(&mut server, &mut source, &mut store(alloc, 0)?, &mut items)?;
    crew_text(alloc, server.counts(), server.calls(), &items, Why::Settled)
}

// A crew reports this of the load from this seed.
fn reports<R: Threads + Wait + Sync + Abort>(
    rt: &R,
    alloc: Global,
    line: &str,
    seed: u64,
    report: &str,
) -> Result<(), AllocError> {
    let mut input = LoadSource::new(alloc, CALLS, seed)?;
    let ran = run_on(rt, alloc, line, &mut input, &Free)?;
    let row = row_of(alloc, line, seed)?;
    told(rt, row.as_str(), &ran, 0, report.as_bytes());
    Ok(())
}

#[test]
fn a_crew_of_any_size_reports_as_one_thread(rt: HostRuntime) -> Result<(), AllocError> {
    let alloc = rt.alloc();
    for &seed in SEEDS {
        let report = by_one_thread(alloc, seed)?;
        reports(&rt, alloc, "crew 1", seed, report.as_str())?;
        reports(&rt, alloc, "crew 2", seed, report.as_str())?;
        reports(&rt, alloc, "crew 4", seed, report.as_str())?;
        reports(&rt, alloc, "crew 16", seed, report.as_str())?;
    }
    Ok(())
}
