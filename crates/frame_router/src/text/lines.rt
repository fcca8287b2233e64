//! The lines of a router's text.
ghost use Rattle.std.specs.Prelude.{◌≡◌, ℕ, ◌+◌, ◌-◌, ◌<◌, ◌≤◌, ◌^◌, List, [], length, true, false, string_bytes, IfOk, OnOk, Err};
ghost use Rattle.text_fields.specs.Lines.{lines_of};
ghost use Rattle.frame_router.specs.text.Flows.{no_flows};
ghost use Rattle.frame_router.specs.text.Following.{FollowsBoth, RunsAll};
ghost use Rattle.frame_router.specs.text.Lines.{BeginsWithNoRoute, HasBadLine, HasNoStepAt, IsPrinted, MayAdd, MayNotAdd, with_route};

use crate::text::line::{read_route, read_step};
use crate::text::running::{push_end, run_step};
use crate::{Port, RouteRefused, Router, Routes};
use std::alloc::{AllocError, Global};
use text_fields::first_line;
use thiserror::Error;

/// Why nothing was printed of a text.
#[derive(Clone, Copy, Debug, PartialEq, Eq, Error)]
pub enum LinesRefused {
    /// The line of this number, counted from 1, is the first one that is neither a route that may be added nor a step.
    #[error("bad line {0}")]
    Line(usize),
    /// There was no memory.
    #[error("out of memory")]
    Memory,
}

impl From<AllocError> for LinesRefused {
    ghost use Rattle.frame_router.specs.declared.text.lines.LinesRefused.TheVariants.{Memory};

    ghost from_gives = { λ _ e. e ≡ Memory };

    fn from(_: AllocError) -> LinesRefused {
        LinesRefused::Memory
    }
}

/// What is printed of a router by the lines of a text.
///
/// First come lines `to left` or `to right` and an address, at most 64 in all and no address twice. Then come the steps:
/// `left` or `right` and the bytes that come from that side, in lower-case hexadecimal digits; `drain left` or
/// `drain right` and how many frames are handed out for that side, 1 to 256. Each frame gives a line, `left` or `right` and
/// its digits. At the end all that wait are handed out, for the left side first, and a line for each side tells how its
/// segments were counted.
pub fn route_text(alloc: Global, text: &[u8]) -> Result<String, LinesRefused>
    ensures ok { IfOk result (λ out. IsPrinted [] (lines_of text.now) (string_bytes out)) }
    ensures line { (number : ℕ) → result ≡ Err (LinesRefused.Line number) → (1 ≤ number) × HasBadLine [] (lines_of text.now) (number - 1) }
{
    let mut routes = Routes::new(alloc);
    let (rest, number) = read_routes(&mut routes, text)?;
    let mut router = Router::new(alloc, routes)?;
    let mut out = String::new(alloc);
    run_lines(alloc, &mut router, rest, number, &mut out)?;
    push_end(alloc, &mut router, &mut out)?;
    Ok(out)
}

// Adds the routes of the first lines, and gives the lines behind them, with the number of the next one.
fn read_routes<'a>(routes: &mut Routes, text: &'a [u8]) -> Result<(&'a [u8], usize), LinesRefused>
    ensures printed { IfOk result (λ r. (printed : List ℕ) → IsPrinted routes.new (lines_of r.0.now) printed →
        IsPrinted routes.old (lines_of text.now) printed) }
    ensures bad { IfOk result (λ r. (k : ℕ) → HasBadLine routes.new (lines_of r.0.now) k →
        HasBadLine routes.old (lines_of text.now) ((r.1 - 1) + k)) }
    ensures behind { IfOk result (λ r. BeginsWithNoRoute (lines_of r.0.now)) }
    ensures number { IfOk result (λ r. (1 ≤ r.1) × (r.1 + length r.0.now ≤ 1 + length text.now)) }
    ensures line { (number : ℕ) → result ≡ Err (LinesRefused.Line number) → (1 ≤ number) × HasBadLine routes.old (lines_of text.now) (number - 1) }
{
    let mut rest = text;
    let mut number = 1;
    'lines: while let Some((line, behind)) = first_line(rest) {
        let Some((port, address)) = read_route(line) else {
            return Ok((rest, number));
        };
        if !add_route(routes, port, address)? {
            return Err(LinesRefused::Line(number));
        }
        rest = behind;
        number += 1;
    }
    Ok((rest, number))
}

// Adds a route, and answers whether it may be added.
fn add_route(routes: &mut Routes, port: Port, address: u32) -> Result<bool, AllocError>
    ensures may { IfOk result (λ done. done ≡ true → MayAdd routes.old address) }
    ensures added { IfOk result (λ done. done ≡ true → routes.new ≡ with_route routes.old port address) }
    ensures refused { IfOk result (λ done. done ≡ false → MayNotAdd routes.old address) }
{
    match routes.add(address, port) {
        Ok(()) => Ok(true),
        Err(RouteRefused::There) => Ok(false),
        Err(RouteRefused::Full) => Ok(false),
        Err(RouteRefused::Memory) => Err(AllocError),
    }
}

// Runs the steps in lines, of which the first has this number.
fn run_lines(
    alloc: Global,
    router: &mut Router,
    text: &[u8],
    first: usize,
    out: &mut String,
) -> Result<(), LinesRefused>
    requires low { 1 ≤ first }
    requires room { first + length text.now < 2 ^ 64 }
    requires started { FollowsBoth router.old.routes router.old no_flows }
    ensures ok { OnOk result (RunsAll router.old.routes (lines_of text.now) router.new (string_bytes out.old) (string_bytes out.new)) }
    ensures line { (number : ℕ) → result ≡ Err (LinesRefused.Line number) → (k : ℕ) × (number ≡ first + k) × HasNoStepAt (lines_of text.now) k }
{
    let mut rest = text;
    let mut number = first;
    'lines: while let Some((line, behind)) = first_line(rest) {
        let Some(step) = read_step(alloc, line)? else {
            return Err(LinesRefused::Line(number));
        };
        run_step(alloc, router, &step, out)?;
        rest = behind;
        number += 1;
    }
    Ok(())
}
