//! The items that went out: their frames, and their lines.

ghost use Rattle.std.specs.Prelude.{◌≡◌, ◌++◌, IfOk, OnOk, string_bytes};
ghost use Rattle.rpc_frames.specs.Written.{frames_of_packets};
ghost use Rattle.rpc_journal.specs.Items.{packet_of};
ghost use Rattle.rpc_schedule.specs.Kept.{key};
ghost use Rattle.run_report.specs.Items.{frames_of_items, item_lines, lines_of_item, stored_lines};
ghost use Rattle.run_report.specs.Uploads.{behind_item, behind_out};

use crate::lines::{add_out_line, add_stored_line};
use crate::uploads::{Upload, Uploads};
use link_io::StoreKey;
use rpc_frames::write_frame;
use rpc_handlers::Out;
use rpc_journal::{Act, Item};
use std::alloc::{AllocError, Global};

/// The frames of the packets among these items, one after the other, as they stand on the link. An item that acts on
/// the store has none.
pub fn frame_bytes(alloc: Global, items: &[Item]) -> Result<Vec<u8>, AllocError>
    ensures { IfOk result (λ bytes. bytes.items ≡ frames_of_items items.now) }
{
    let mut bytes = Vec::new(alloc);
    for item in items {
        add_frame(alloc, item, &mut bytes)?;
    }
    Ok(bytes)
}

// The frame of an item that is a packet.
fn add_frame(alloc: Global, item: &Item, bytes: &mut Vec<u8>) -> Result<(), AllocError>
    ensures { OnOk result (bytes.new.items ≡ bytes.old.items ++ frames_of_packets (packet_of item.now.act)) }
{
    match &item.act {
        Act::Send(packet) => write_frame(alloc, packet, bytes),
        Act::Keep(_) | Act::LeaveCall => Ok(()),
    }
}

/// The lines of the items that went out: of each packet, and of each upload that ended well.
pub(crate) fn add_item_lines(
    alloc: Global,
    items: &[Item],
    text: &mut String,
) -> Result<(), AllocError>
    ensures { OnOk result (string_bytes text.new ≡ string_bytes text.old ++ item_lines items.now) }
{
    let mut uploads = Uploads::new(alloc);
    for item in items {
        add_line_of(alloc, &uploads, item, text)?;
        go_behind(&mut uploads, item)?;
    }
    Ok(())
}

// The line of an item, where it has one.
fn add_line_of(
    alloc: Global,
    uploads: &Uploads,
    item: &Item,
    text: &mut String,
) -> Result<(), AllocError>
    ensures { OnOk result (string_bytes text.new ≡ string_bytes text.old ++ lines_of_item uploads.now item.now.call item.now.act) }
{
    match &item.act {
        Act::Send(packet) => add_out_line(alloc, packet, text),
        Act::Keep(Out::Commit { session }) => match item.call {
            None => Ok(()),
            Some(call) => add_stored(uploads.get(key(call, *session)), text),
        },
        Act::Keep(_) | Act::LeaveCall => Ok(()),
    }
}

fn add_stored(upload: Option<Upload>, text: &mut String) -> Result<(), AllocError>
    ensures { OnOk result (string_bytes text.new ≡ string_bytes text.old ++ stored_lines upload) }
{
    match upload {
        None => Ok(()),
        Some(Upload { resource, length }) => add_stored_line(resource, length, text),
    }
}

/// What an item does to the uploads under way.
pub(crate) fn go_behind(uploads: &mut Uploads, item: &Item) -> Result<(), AllocError>
    ensures { OnOk result (uploads.new ≡ behind_item item.now.call item.now.act uploads.old) }
{
    let Some(call) = item.call else {
        return Ok(());
    };
    match &item.act {
        Act::Send(_) => Ok(()),
        Act::Keep(out) => go_behind_out(uploads, call, out),
        Act::LeaveCall => {
            uploads.end_call(call);
            Ok(())
        }
    }
}

fn go_behind_out(uploads: &mut Uploads, call: u32, out: &Out) -> Result<(), AllocError>
    ensures { OnOk result (uploads.new ≡ behind_out call out.now uploads.old) }
{
    match out {
        Out::Say(_) => {}
        Out::Begin {
            session,
            resource,
            offset,
        } => uploads.begin(key(call, *session), *resource, *offset)?,
        Out::Append { session, bytes } => uploads.append(key(call, *session), bytes.len()),
        Out::Commit { session } | Out::Leave { session } => uploads.end(key(call, *session)),
    }
    Ok(())
}

pub(crate) fn key(call: u32, session: u32) -> StoreKey
    ensures { result ≡ key call session }
{
    StoreKey { call, session }
}
