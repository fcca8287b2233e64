//! The line of a command that has ended.
ghost use Rattle.std.specs.Prelude.{◌≡◌, if◌then◌else◌, IfOk, None, Some};
ghost use Rattle.rpc_journal.specs.Calls.{end_of};
ghost use Rattle.rpc_schedule.specs.Serving.{deeds};
ghost use Rattle.link_world.specs.client.ClientSide.{ClientRests};
ghost use Rattle.link_world.specs.client.Underway.{plain_of, under_of};
ghost use Rattle.link_laws.specs.world.Lines.{is_still, length_made, length_written, line_of, plain_line};
ghost use Rattle.link_laws.specs.world.World.{Setup, World, calling, transferring};
ghost use Rattle.link_world.specs.Showing.{ClientShows, IsOpen, ServerShows};

use crate::client::{ClientEnd, Plain, Speaker, Under};
use crate::server::ServerEnd;
use link_script::ReportLine;
use rpc_ids::Status;
use std::alloc::AllocError;

/// The line of the command under way, where it has ended: a transfer ends with its task, a plain call with its end in the
/// client's journal, a write of what the client hasn't at once, and the closing of a channel where nothing is on the link.
pub(crate) fn line_of(
    under: &Under,
    server: &ServerEnd,
    client: &ClientEnd,
    still: bool,
) -> Result<Option<ReportLine>, AllocError>
    requires { ClientRests client.now }
    ensures line { IfOk result (λ line. (k : Setup) (w : World) → ServerShows k server.now w.server w.fed_server
        → ClientShows k client.now w.client w.fed_client → still ≡ is_still w → line ≡ line_of k w (under_of under.now)) }
    ensures open { IfOk result (λ line. line ≡ None → IsOpen client.now (Some under.now)) }
{
    match under {
        Under::Transferring(speaker) => Ok(transfer_line(speaker, server, client)),
        Under::Lacking(resource) => Ok(Some(ReportLine::Write {
            resource: *resource,
            from: 0,
            status: Status::NotFound,
            length: 0,
        })),
        Under::Calling(plain, call) => plain_line(*plain, *call, client),
        Under::Closing(channel, ended) => Ok(close_line(*channel, *ended, still)),
    }
}

fn close_line(channel: u32, ended: Option<u32>, still: bool) -> Option<ReportLine>
    ensures { result ≡ (if still then Some (ReportLine.Close channel ended) else None) }
{
    if still {
        Some(ReportLine::Close(channel, ended))
    } else {
        None
    }
}

fn transfer_line(speaker: &Speaker, server: &ServerEnd, client: &ClientEnd) -> Option<ReportLine>
    ensures { (k : Setup) (w : World) → ServerShows k server.now w.server w.fed_server → ClientShows k client.now w.client w.fed_client
        → result ≡ line_of k w (transferring speaker.now.task) }
{
    let status = speaker.end()?;
    let length = length_of(speaker, server, client);
    Some(speaker.line(status, length))
}

// The length that a transfer has made whole: at the client what was read, at the server what was written.
fn length_of(speaker: &Speaker, server: &ServerEnd, client: &ClientEnd) -> u64
    ensures { (k : Setup) (w : World) → ServerShows k server.now w.server w.fed_server → ClientShows k client.now w.client w.fed_client
        → result ≡ length_made k w speaker.now.task speaker.now.task.transfer }
{
    if speaker.reads() {
        client.length_read(speaker.session(), speaker.call())
    } else {
        length_written(speaker, server, client)
    }
}

// What the server has made whole of a session of the client's call.
fn length_written(speaker: &Speaker, server: &ServerEnd, client: &ClientEnd) -> u64
    ensures { (k : Setup) (w : World) → ServerShows k server.now w.server w.fed_server → ClientShows k client.now w.client w.fed_client
        → result ≡ length_written k w speaker.now.task }
{
    match client.name(speaker.call()) {
        Some(name) => server.committed(name, speaker.session()).unwrap_or(0),
        None => 0,
    }
}

fn plain_line(plain: Plain, call: u32, client: &ClientEnd) -> Result<Option<ReportLine>, AllocError>
    requires { ClientRests client.now }
    ensures line { IfOk result (λ line. (k : Setup) (w : World) → ClientShows k client.now w.client w.fed_client
        → line ≡ line_of k w (calling (plain_of plain) call)) }
    ensures open { IfOk result (λ line. line ≡ None → end_of (deeds client.now.end.serving) call ≡ None) }
{
    let Some(status) = client.end_of(call) else {
        return Ok(None);
    };
    Ok(Some(ended_line(plain, status, call, client)?))
}

// The line of a call that has ended so.
fn ended_line(
    plain: Plain,
    status: Status,
    call: u32,
    client: &ClientEnd,
) -> Result<ReportLine, AllocError>
    requires { ClientRests client.now }
    ensures { IfOk result (λ line. (k : Setup) (w : World) → ClientShows k client.now w.client w.fed_client
        → line ≡ plain_line k w (plain_of plain) call status) }
{
    match plain {
        Plain::Echo => Ok(ReportLine::Echo(status, client.first_message(call)?)),
        Plain::Count => Ok(ReportLine::Count(status, client.messages(call))),
        Plain::Sum => Ok(ReportLine::Sum(status, client.first_message(call)?)),
        Plain::Chat => Ok(ReportLine::Chat(status, client.messages(call))),
    }
}
