//! What the benchmarks measure. The first word names it, and the others say how much: `frames FILE TIMES`, `calls LIVE MESSAGES`,
//! `closed CALLS`, `written CALLS` or `crew WORKERS CALLS ROUNDS`. Without words each is run over little.
#![tactic(auto)]

mod calls;
mod crew;
mod frames;

use std::env;

fn main(rt: HostRuntime) -> anyhow::Result<()> {
    let mut words = Vec::new(rt.alloc());
    for word in env::args(&rt)?.skip(1) {
        words.push(word)?;
    }
    match words.as_slice() {
        [] => {
            frames::measure(&rt, "stream", 2)?;
            calls::measure(&rt, 3, 4)?;
            calls::measure_closed(&rt, 3)?;
            calls::measure_written(&rt, 3)?;
            crew::tell(&rt, crew::measure(&rt, rt.alloc(), 2, 3, 10)?)
        }
        [name, file, times] if name.as_str() == "frames" => {
            frames::measure(&rt, file.as_str(), number(times.as_str()))
        }
        [name, live, messages] if name.as_str() == "calls" => {
            calls::measure(&rt, number(live.as_str()), number(messages.as_str()))
        }
        [name, count] if name.as_str() == "closed" => {
            calls::measure_closed(&rt, number(count.as_str()))
        }
        [name, count] if name.as_str() == "written" => {
            calls::measure_written(&rt, number(count.as_str()))
        }
        [name, workers, calls, rounds] if name.as_str() == "crew" => {
            let did = crew::measure(
                &rt,
                rt.alloc(),
                number(workers.as_str()),
                number(calls.as_str()),
                number(rounds.as_str()),
            )?;
            crew::tell(&rt, did)
        }
        _ => Ok(()),
    }
}

// The number that a word writes; 0 for any other word.
fn number(word: &str) -> u32 {
    word.parse::<u32>().unwrap_or(0)
}
