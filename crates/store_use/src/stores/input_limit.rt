//! Inputs of about as many bytes as an input may have.
ghost use Rattle.std.specs.Prelude.{None};

use super::checks::{count_is, told};
use super::run_on;
use link_io::{Failed, Source};
use std::alloc::{AllocError, Global};
use std::process::Abort;

// A source that has so many bytes left, none of them a flag or a newline. It holds none of them.
#[derive(Drop)]
struct Idle {
    left: usize,
}

impl Source for Idle {
    ghost left = { λ _. None };

    ghost faults = { λ _. 0 };

    fn read(&mut self, buf: &mut [u8]) -> Result<usize, Failed> {
        let count = buf.len().min(self.left);
        self.left -= count;
        Ok(count)
    }
}

// The words, the length of the input, the status, and what is written.
type Row = (&'static str, usize, u8, &'static [u8]);

const INPUTS: &[Row] = &[
    (
        "replay",
        67_108_863,
        0,
        b"frames 0 bad 0 other 0 dropped 0\ndone\n",
    ),
    (
        "replay",
        67_108_864,
        8,
        b"frames 0 bad 0 other 0 dropped 0\nlimit input 67108864\n",
    ),
    (
        "replay",
        67_108_865,
        8,
        b"frames 0 bad 0 other 0 dropped 0\nlimit input 67108864\n",
    ),
    ("replay raw", 67_108_864, 8, b""),
    ("replay journal", 67_108_864, 8, b"journal\n0 endin\n"),
    ("check", 67_108_863, 7, b"journal line 1\n"),
    ("check", 67_108_864, 8, b"limit input 67108864\n"),
    ("check", 67_108_865, 8, b"limit input 67108864\n"),
];

const TEXTS: &[Row] = &[
    ("detoken", 1_048_575, 7, b"token line 1\n"),
    ("detoken", 1_048_576, 8, b"limit input 1048576\n"),
    ("detoken", 1_048_577, 8, b"limit input 1048576\n"),
    ("route", 1_048_575, 7, b"route line 1\n"),
    ("route", 1_048_576, 8, b"limit input 1048576\n"),
    ("route", 1_048_577, 8, b"limit input 1048576\n"),
    ("link", 1_048_575, 7, b"script line 1\n"),
    ("link", 1_048_576, 8, b"limit input 1048576\n"),
];

// The command ends so on an input of so many bytes, of which none behind the limit is taken.
fn ends_at(rt: &impl Abort, alloc: Global, limit: usize, row: &Row) -> Result<(), AllocError> {
    let &(line, length, status, written) = row;
    let mut input = Idle { left: length };
    let ran = run_on(alloc, line, &mut input)?;
    let number = length as u64;
    told(rt, line, number, &ran, status, written);
    count_is(rt, line, number, input.left, length.saturating_sub(limit));
    Ok(())
}

#[test]
fn an_input_ends_at_the_limit(rt: HostRuntime) -> Result<(), AllocError> {
    for row in INPUTS {
        ends_at(&rt, rt.alloc(), 67_108_864, row)?;
    }
    Ok(())
}

#[test]
fn a_text_of_lines_ends_at_its_limit(rt: HostRuntime) -> Result<(), AllocError> {
    for row in TEXTS {
        ends_at(&rt, rt.alloc(), 1_048_576, row)?;
    }
    Ok(())
}
