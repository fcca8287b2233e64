//! Whether a line may stand after those before it, and what it adds to them.
ghost use Rattle.std.specs.Prelude.{◌≡◌, ◌==◌, OnOk, is_some};
ghost use Rattle.std.specs.List.{list_any};
ghost use Rattle.link_script.specs.text.Standing as spec;

use crate::text::line::{Line, LossAt, Setting};
use crate::{Losses, MAX_FULL, Script, Stock, Stocks};
use rpc_ids::Role;
use std::alloc::AllocError;

/// Whether a line may stand after the lines of the script so far.
pub(crate) fn may_stand(script: &Script, line: &Line) -> bool
    ensures { result ≡ spec.may_stand script.now line.now }
{
    match line {
        Line::Setting(setting) => may_set(script, *setting),
        Line::Loss(loss) => {
            script.commands.as_slice().is_empty() && !has_loss(&script.losses, loss.frame)
        }
        Line::Command(_) => true,
    }
}

fn may_set(script: &Script, setting: Setting) -> bool
    ensures { result ≡ spec.may_set script.now setting }
{
    match setting {
        Setting::Chunk(_) => {
            script.chunk.is_none() && script.window.is_none() && !is_past_windows(script)
        }
        Setting::Window(_) => script.window.is_none() && !is_past_windows(script),
        Setting::Full(role, stock) => {
            !is_past_full(script)
                && !has_stock(full_of(script, role), stock.id)
                && full_count(script) < MAX_FULL
        }
        Setting::Left(role, stock) => {
            !is_past_left(script) && !has_stock(left_of(script, role), stock.id)
        }
    }
}

// A line of a kind behind those of chunk and window stands.
fn is_past_windows(script: &Script) -> bool
    ensures { result ≡ spec.is_past_windows script.now }
{
    full_count(script) > 0 || is_past_full(script)
}

fn is_past_full(script: &Script) -> bool
    ensures { result ≡ spec.is_past_full script.now }
{
    !script.left_server.as_slice().is_empty()
        || !script.left_client.as_slice().is_empty()
        || is_past_left(script)
}

fn is_past_left(script: &Script) -> bool
    ensures { result ≡ spec.is_past_left script.now }
{
    !script.losses.as_slice().is_empty() || !script.commands.as_slice().is_empty()
}

fn full_count(script: &Script) -> usize
    ensures { result ≡ spec.full_count script.now }
{
    script.server.as_slice().len() + script.client.as_slice().len()
}

fn full_of(script: &Script, role: Role) -> &Stocks
    ensures { result.now ≡ spec.full_of script.now role }
{
    match role {
        Role::Server => &script.server,
        Role::Client => &script.client,
    }
}

fn left_of(script: &Script, role: Role) -> &Stocks
    ensures { result.now ≡ spec.left_of script.now role }
{
    match role {
        Role::Server => &script.left_server,
        Role::Client => &script.left_client,
    }
}

fn has_stock(stocks: &Stocks, id: u32) -> bool
    ensures { result ≡ spec.has_stock stocks.now id }
{
    stocks.as_slice().iter().any(|stock| stock.id == id)
}

fn has_loss(losses: &Losses, frame: u32) -> bool
    ensures { result ≡ spec.has_loss losses.now frame }
{
    losses.as_slice().iter().any(|loss| loss.0 == frame)
}

/// Adds what a line says, after what the lines before it said.
pub(crate) fn add_line(script: &mut Script, line: Line) -> Result<(), AllocError>
    ensures { OnOk result (script.new ≡ spec.with_line script.old line) }
{
    match line {
        Line::Setting(setting) => add_setting(script, setting),
        Line::Loss(LossAt { frame, loss }) => script.losses.push((frame, loss)),
        Line::Command(command) => script.commands.push(command),
    }
}

fn add_setting(script: &mut Script, setting: Setting) -> Result<(), AllocError>
    ensures { OnOk result (script.new ≡ spec.with_setting script.old setting) }
{
    match setting {
        Setting::Chunk(size) => {
            script.chunk = Some(size);
            Ok(())
        }
        Setting::Window(chunks) => {
            script.window = Some(chunks);
            Ok(())
        }
        Setting::Full(Role::Server, stock) => script.server.push(stock),
        Setting::Full(Role::Client, stock) => script.client.push(stock),
        Setting::Left(Role::Server, stock) => script.left_server.push(stock),
        Setting::Left(Role::Client, stock) => script.left_client.push(stock),
    }
}
