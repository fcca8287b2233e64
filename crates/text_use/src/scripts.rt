//! Each list keeps what is added, in order.
use link_script::{Command, Loss, Report, ReportLine, ReportLines, Resources, Script, Stock};
use rpc_ids::Status;
use std::alloc::AllocError;
use std::process::Abort;

fn has_so_many(rt: &impl Abort, count: usize, want: usize) {
    assert_eq!(rt; count, want);
}

#[test]
fn a_new_script_says_nothing(rt: HostRuntime) {
    let script = Script::new(rt.alloc());
    assert_eq!(rt; (script.chunk, script.window), (None, None));
    has_so_many(&rt, script.server.as_slice().len(), 0);
    has_so_many(&rt, script.client.as_slice().len(), 0);
    has_so_many(&rt, script.left_server.as_slice().len(), 0);
    has_so_many(&rt, script.left_client.as_slice().len(), 0);
    has_so_many(&rt, script.losses.as_slice().len(), 0);
    has_so_many(&rt, script.commands.as_slice().len(), 0);
}

#[test]
fn a_script_keeps_what_is_added_in_order(rt: HostRuntime) -> Result<(), AllocError> {
    let mut script = Script::new(rt.alloc());
    let first = Stock {
        id: 7,
        len: 1_000,
        seed: 1,
    };
    let second = Stock { id: 6, ..first };
    script.server.push(first)?;
    script.server.push(second)?;
    assert_eq!(rt; script.server.as_slice(), [first, second].as_slice());
    script.losses.push((8, Loss::Lose))?;
    script.losses.push((2, Loss::Flip(9)))?;
    assert_eq!(rt;
        script.losses.as_slice(),
        [(8, Loss::Lose), (2, Loss::Flip(9))].as_slice()
    );
    script.commands.push(Command::Read(7, 0))?;
    script.commands.push(Command::Close(1))?;
    let commands = script.commands.as_slice();
    assert!(rt; matches!(commands, [Command::Read(7, 0), Command::Close(1)]));
    Ok(())
}

#[test]
fn a_report_keeps_what_is_added_in_order(rt: HostRuntime) -> Result<(), AllocError> {
    let mut report = Report {
        lines: ReportLines::new(rt.alloc()),
        frames: 11,
        delivered: 11,
        chunks: 10,
        server: Resources::new(rt.alloc()),
        client: Resources::new(rt.alloc()),
    };
    report.lines.push(ReportLine::Count(Status::Okay, 3))?;
    report.lines.push(ReportLine::Close(1, None))?;
    let lines = report.lines.as_slice();
    assert!(rt;
        matches!(
            lines,
            [
                ReportLine::Count(Status::Okay, 3),
                ReportLine::Close(1, None)
            ]
        )
    );
    report.server.push((7, 1_000))?;
    report.server.push((9, 65_536))?;
    assert_eq!(rt;
        report.server.as_slice(),
        [(7, 1_000), (9, 65_536)].as_slice()
    );
    has_so_many(&rt, report.client.as_slice().len(), 0);
    Ok(())
}
