//! The lines in front: how chunks are asked for, and what the stores have.
ghost use Rattle.std.specs.Prelude.{◌≡◌, ◌++◌, codes, IfSome, Some};
ghost use Rattle.link_script.specs.Script.{IsStock};
ghost use Rattle.link_script.specs.text.Lines.{IsSettingLine, stock_text};

use crate::text::fields::number_field;
use crate::text::line::Setting;
use crate::{MAX_STOCK, Stock};
use rpc_ids::Role;
use text_fields::{number, small_number, strip_word};
use transfer_base::{MAX_CHUNK, MAX_WINDOW};

/// What a line in front says.
pub(crate) fn read_setting(text: &[u8]) -> Option<Setting>
    ensures some { IfSome result (λ setting. IsSettingLine text.now setting) }
    ensures only { (setting : Setting) → IsSettingLine text.now setting → result ≡ Some setting }
{
    if let Some(number) = strip_word(text, b"chunk ") {
        return read_chunk(number);
    }
    if let Some(number) = strip_word(text, b"window ") {
        return read_window(number);
    }
    if let Some(stock) = strip_word(text, b"server ") {
        return Some(Setting::Full(Role::Server, read_stock(stock)?));
    }
    if let Some(stock) = strip_word(text, b"client ") {
        return Some(Setting::Full(Role::Client, read_stock(stock)?));
    }
    if let Some(stock) = strip_word(text, b"left server ") {
        return Some(Setting::Left(Role::Server, read_stock(stock)?));
    }
    if let Some(stock) = strip_word(text, b"left client ") {
        return Some(Setting::Left(Role::Client, read_stock(stock)?));
    }
    None
}

fn read_chunk(text: &[u8]) -> Option<Setting>
    ensures some { IfSome result (λ setting. IsSettingLine (codes "chunk " ++ text.now) setting) }
    ensures only { (setting : Setting) → IsSettingLine (codes "chunk " ++ text.now) setting → result ≡ Some setting }
{
    let size = small_number(text)?;
    if size < 1 || size > MAX_CHUNK {
        return None;
    }
    Some(Setting::Chunk(size))
}

fn read_window(text: &[u8]) -> Option<Setting>
    ensures some { IfSome result (λ setting. IsSettingLine (codes "window " ++ text.now) setting) }
    ensures only { (setting : Setting) → IsSettingLine (codes "window " ++ text.now) setting → result ≡ Some setting }
{
    let chunks = small_number(text)?;
    if chunks < 1 || chunks > MAX_WINDOW {
        return None;
    }
    Some(Setting::Window(chunks))
}

// The numbers of a resource.
fn read_stock(text: &[u8]) -> Option<Stock>
    ensures some { IfSome result (λ stock. (text.now ≡ stock_text stock) × IsStock stock) }
    ensures only { (stock : Stock) → text.now ≡ stock_text stock → IsStock stock → result ≡ Some stock }
{
    let (id, rest) = number_field(text)?;
    let (len, seed) = number_field(rest)?;
    let seed = number(seed)?;
    if len > MAX_STOCK {
        return None;
    }
    Some(Stock { id, len, seed })
}
