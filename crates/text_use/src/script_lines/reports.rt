//! Reports as texts.
use bytes::Bytes;
use link_script::text::{add_bad_line, print_report};
use link_script::{Report, ReportLine, ReportLines, Resources};
use rpc_ids::Status;
use std::alloc::{AllocError, Global};

// A report of these lines, with no frame and no resource.
fn report_of(alloc: Global, lines: ReportLines) -> Report {
    Report {
        lines,
        frames: 0,
        delivered: 0,
        chunks: 0,
        server: Resources::new(alloc),
        client: Resources::new(alloc),
    }
}

#[test]
fn a_read_of_a_thousand_bytes(rt: HostRuntime) -> Result<(), AllocError> {
    let mut lines = ReportLines::new(rt.alloc());
    lines.push(ReportLine::Read {
        resource: 7,
        from: 0,
        status: Status::Okay,
        length: 1_000,
    })?;
    let mut report = Report {
        frames: 13,
        delivered: 12,
        chunks: 11,
        ..report_of(rt.alloc(), lines)
    };
    report.server.push((7, 1_000))?;
    report.client.push((6, 3))?;
    report.client.push((7, 1_000))?;
    let mut text = String::new(rt.alloc());
    print_report(rt.alloc(), &report, &mut text)?;
    assert_eq!(rt;
        text.as_str(),
        "read 7 0 OK 1000\nframes 13 delivered 12\nchunks 11\nserver 7 1000\nclient 6 3\nclient 7 1000\n"
    );
    Ok(())
}

#[test]
fn each_kind_of_line(rt: HostRuntime) -> Result<(), AllocError> {
    let mut lines = ReportLines::new(rt.alloc());
    lines.push(ReportLine::Write {
        resource: 7,
        from: 5,
        status: Status::DeadlineExceeded,
        length: 10,
    })?;
    lines.push(ReportLine::Echo(Status::Okay, Bytes::from_static(b"abc")))?;
    lines.push(ReportLine::Count(Status::Okay, 3))?;
    lines.push(ReportLine::Sum(Status::Cancelled, Bytes::new()))?;
    lines.push(ReportLine::Chat(Status::Okay, 2))?;
    lines.push(ReportLine::Close(1, Some(2)))?;
    lines.push(ReportLine::Close(1, None))?;
    let report = report_of(rt.alloc(), lines);
    let mut text = String::new(rt.alloc());
    print_report(rt.alloc(), &report, &mut text)?;
    assert_eq!(rt;
        text.as_str(),
        "write 7 5 DEADLINE_EXCEEDED 10\necho OK 616263\ncount OK 3\nsum CANCELLED -\nchat OK 2\nclose 1 2\nclose 1 NOT_IN\nframes 0 delivered 0\nchunks 0\n"
    );
    Ok(())
}

#[test]
fn a_bad_line_is_told(rt: HostRuntime) -> Result<(), AllocError> {
    let mut text = String::new(rt.alloc());
    add_bad_line(3, &mut text)?;
    assert_eq!(rt; text.as_str(), "script line 3\n");
    Ok(())
}
