//! A call of the log service.

use super::checks::told;
use super::{run, unhex};
use bytes::Bytes;
use rpc_frames::write_frame;
use rpc_packet::{CallName, Packet, PacketType};
use std::alloc::{AllocError, Global};

// A call of Text on channel 1 with the message of -3, and its completion.
const PACKETS: &[(PacketType, &str)] = &[
    (PacketType::Request, ""),
    (PacketType::ClientStream, "8117633105"),
    (PacketType::Completion, ""),
];

fn write_text(
    alloc: Global,
    ptype: PacketType,
    digits: &str,
    stream: &mut Vec<u8>,
) -> Result<(), AllocError> {
    let packet = Packet {
        ptype,
        name: CallName {
            channel: 1,
            service: 0xA9C4_1521,
            method: 0xC85D_1891,
            call: 1,
        },
        payload: Bytes::from_vec(unhex(alloc, digits)?).map_err(|_| AllocError)?,
        status: 0,
    };
    write_frame(alloc, &packet, stream)
}

// A SERVER_STREAM with `-3`, and a RESPONSE.
const REPORT: &str = "frames 3 bad 0 other 0 dropped 0
call 0 1 a9c41521 c85d1891 1 bidi OK
out 7ea503080710011d2115c4a92591185dc82a022d333801d9841e127e
out 7ea503080110011d2115c4a92591185dc83801efc1fdcb7e
done
";

#[test]
fn the_log_service_tells_a_message(rt: HostRuntime) -> Result<(), AllocError> {
    let mut content = Vec::new(rt.alloc());
    for &(ptype, digits) in PACKETS {
        write_text(rt.alloc(), ptype, digits, &mut content)?;
    }
    let ran = run(rt.alloc(), "replay", content)?;
    told(&rt, "-3", &ran, 0, REPORT.as_bytes());
    Ok(())
}
