use proto_wire::Malformed;
use rpc_ids::Role;
use rpc_packet::{CallName, PacketRef, PacketType, PlacedPacket};
use std::alloc::{AllocError, Global};
use std::process::Abort;

// Packets of `demo.Demo`'s `Echo`, with the payload `abc`, on channel 1.
const ECHO: u32 = 0x8B47_0EE9;

const DEMO: u32 = 0x70F4_5CFB;

const REQUEST_1: [u8; 19] = [
    0x10, 0x01, 0x1D, 0xFB, 0x5C, 0xF4, 0x70, 0x25, 0xE9, 0x0E, 0x47, 0x8B, 0x2A, 0x03, 0x61, 0x62,
    0x63, 0x38, 0x01,
];

const RESPONSE_1: [u8; 21] = [
    0x08, 0x01, 0x10, 0x01, 0x1D, 0xFB, 0x5C, 0xF4, 0x70, 0x25, 0xE9, 0x0E, 0x47, 0x8B, 0x2A, 0x03,
    0x61, 0x62, 0x63, 0x38, 0x01,
];

const REQUEST_2: [u8; 19] = [
    0x10, 0x01, 0x1D, 0xFB, 0x5C, 0xF4, 0x70, 0x25, 0xE9, 0x0E, 0x47, 0x8B, 0x2A, 0x03, 0x61, 0x62,
    0x63, 0x38, 0x02,
];

const RESPONSE_2: [u8; 21] = [
    0x08, 0x01, 0x10, 0x01, 0x1D, 0xFB, 0x5C, 0xF4, 0x70, 0x25, 0xE9, 0x0E, 0x47, 0x8B, 0x2A, 0x03,
    0x61, 0x62, 0x63, 0x38, 0x02,
];

fn name(channel: u32, call: u32) -> CallName {
    CallName {
        channel,
        service: DEMO,
        method: ECHO,
        call,
    }
}

fn packet(ptype: u64, name: CallName, payload: &[u8], status: u32) -> PacketRef<'_> {
    PacketRef {
        ptype,
        name,
        payload,
        status,
    }
}

fn are_bytes(rt: &impl Abort, bytes: &[u8], want: &[u8]) {
    assert_eq!(rt; bytes, want);
}

fn reads(rt: &impl Abort, bytes: &[u8], want: Result<PacketRef<'_>, Malformed>) {
    assert_eq!(rt; PacketRef::read(bytes), want, "{bytes:?}");
}

fn hears(rt: &impl Abort, packet: PacketRef<'_>, role: Role, want: Option<PacketType>) {
    assert_eq!(rt; packet.hear(role), want);
}

// The payload `abc` lies five bytes before the end.
fn is_placed(rt: &impl Abort, bytes: &[u8], name: CallName) {
    let placed = match PlacedPacket::read(bytes) {
        Ok(p) => Some((p.name, p.payload_at, p.payload_len)),
        Err(_) => None,
    };
    assert_eq!(rt; placed, Some((name, bytes.len().saturating_sub(5), 3)));
}

fn writes_into(rt: &impl Abort, packet: PacketRef<'_>, room: &mut [u8], want: Option<usize>) {
    assert_eq!(rt; packet.write_into(room), want);
}

// A packet of its own has these bytes.
fn owns(
    rt: &impl Abort,
    alloc: Global,
    packet: PacketRef<'_>,
    ptype: PacketType,
    bytes: &[u8],
) -> Result<(), AllocError> {
    let owned = packet.own(alloc, ptype)?;
    are_bytes(rt, owned.payload.as_slice(), packet.payload);
    let mut out = Vec::new(alloc);
    owned.write(&mut out)?;
    are_bytes(rt, out.as_slice(), bytes);
    Ok(())
}

const ECHOES: &[(&[u8], PacketType, Role, u32)] = &[
    (&REQUEST_1, PacketType::Request, Role::Server, 1),
    (&RESPONSE_1, PacketType::Response, Role::Client, 1),
    (&REQUEST_2, PacketType::Request, Role::Server, 2),
    (&RESPONSE_2, PacketType::Response, Role::Client, 2),
];

fn is_echo(
    rt: &impl Abort,
    alloc: Global,
    row: &(&[u8], PacketType, Role, u32),
) -> Result<(), AllocError> {
    let (bytes, ptype, role, call) = *row;
    let want = packet(ptype.number(), name(1, call), b"abc", 0);
    reads(rt, bytes, Ok(want));
    is_placed(rt, bytes, name(1, call));
    let mut out = vec![in alloc; 0; bytes.len()]?;
    writes_into(rt, want, &mut out, Some(bytes.len()));
    are_bytes(rt, &out, bytes);
    let mut short = vec![in alloc; 0; 18]?;
    writes_into(rt, want, &mut short, None);
    hears(rt, want, role, Some(ptype));
    owns(rt, alloc, want, ptype, bytes)
}

#[test]
fn reads_and_writes_packets_of_echo(rt: HostRuntime) -> Result<(), AllocError> {
    for row in ECHOES {
        is_echo(&rt, rt.alloc(), row)?;
    }
    Ok(())
}

// Call 1, status 5, the method, the service, channel 1, an unknown field 9, and the status again.
const ANY_ORDER: &[u8] = &[
    0x38, 0x01, 0x30, 0x05, 0x25, 0xE9, 0x0E, 0x47, 0x8B, 0x1D, 0xFB, 0x5C, 0xF4, 0x70, 0x10, 0x01,
    0x48, 0x07, 0x30, 0x06,
];

const BY_NUMBER: &[u8] = &[
    0x10, 0x01, 0x1D, 0xFB, 0x5C, 0xF4, 0x70, 0x25, 0xE9, 0x0E, 0x47, 0x8B, 0x30, 0x06, 0x38, 0x01,
];

#[test]
fn reads_fields_in_any_order_and_writes_them_by_number(rt: HostRuntime) -> Result<(), AllocError> {
    let want = packet(0, name(1, 1), b"", 6);
    reads(&rt, ANY_ORDER, Ok(want));
    owns(&rt, rt.alloc(), want, PacketType::Request, BY_NUMBER)
}

// Where the fields of the request begin, and where it ends.
const BEGINS: &[usize] = &[0, 2, 7, 12, 17, 19];

// Where the last of them begins that begins at or before this length.
fn begun_at(len: usize) -> usize {
    let mut begun = 0;
    for at in BEGINS {
        if *at <= len {
            begun = *at;
        }
    }
    begun
}

fn is_cut(rt: &impl Abort, len: usize) {
    let (front, _) = REQUEST_1.split_at(len.min(19));
    let begun = begun_at(len);
    let fault = match PacketRef::read(front) {
        Ok(_) => None,
        Err(Malformed { at }) => Some(at),
    };
    let want = if begun == len { None } else { Some(begun) };
    assert_eq!(rt; fault, want, "cut at {len}");
}

#[test]
fn a_cut_packet_is_malformed_at_the_field_that_is_cut(rt: HostRuntime) {
    for len in 0..20usize {
        is_cut(&rt, len);
    }
}

// The type, the channel, the call and the payload of a packet, or where it is malformed.
type Want = Result<(u64, u32, u32, &'static [u8]), usize>;

const SINGLE: &[(&[u8], Want)] = &[
    (b"", Ok((0, 0, 0, b""))),
    // a uint32 of 2^32, and one below
    (b"\x10\x80\x80\x80\x80\x10", Err(0)),
    (b"\x10\xFF\xFF\xFF\xFF\x0F", Ok((0, 4_294_967_295, 0, b""))),
    (b"\x30\x80\x80\x80\x80\x10", Err(0)),
    (b"\x38\x80\x80\x80\x80\x10", Err(0)),
    // any number is a type, in whatever spelling
    (b"\x08\x80\x80\x80\x80\x10", Ok((4_294_967_296, 0, 0, b""))),
    (b"\x08\x83\x80\x00", Ok((3, 0, 0, b""))),
    // known fields of another wire type
    (b"\x0D\x01\x00\x00\x00", Err(0)),
    (b"\x15\x01\x00\x00\x00", Err(0)),
    (b"\x18\x01", Err(0)),
    (b"\x22\x04\x00\x00\x00\x00", Err(0)),
    (b"\x28\x01", Err(0)),
    (b"\x38\x02\x32\x01\x00", Err(2)),
    (b"\x38\x02\x3D\x00\x00\x00\x00", Err(2)),
    // of a repeated field the last counts; unknown fields are skipped, groups are not
    (b"\x2A\x01a\x38\x01\x2A\x02bc\x38\x02", Ok((0, 0, 2, b"bc"))),
    (
        b"\x4D\x00\x00\x00\x00\x38\x02\x41\x00\x00\x00\x00\x00\x00\x00\x00",
        Ok((0, 0, 2, b"")),
    ),
    (b"\x38\x02\x7B\x7C", Err(2)),
    // the first fault in the order of the bytes
    (b"\x38\x02\x18\x01\x7B", Err(2)),
];

fn is_single(rt: &impl Abort, bytes: &[u8], want: Want) {
    let want = match want {
        Ok((ptype, channel, call, payload)) => {
            let name = CallName {
                channel,
                service: 0,
                method: 0,
                call,
            };
            Ok(packet(ptype, name, payload, 0))
        }
        Err(at) => Err(Malformed { at }),
    };
    reads(rt, bytes, want);
}

#[test]
fn reads_or_refuses_single_fields(rt: HostRuntime) {
    for (bytes, want) in SINGLE {
        is_single(&rt, bytes, *want);
    }
}

// A type, what a server makes of it, and what a client does.
type TypeRow = (u64, Option<PacketType>, Option<PacketType>);

const TYPES: &[TypeRow] = &[
    (0, Some(PacketType::Request), None),
    (1, None, Some(PacketType::Response)),
    (2, Some(PacketType::ClientStream), None),
    (3, None, None),
    (4, Some(PacketType::ClientError), None),
    (5, None, Some(PacketType::ServerError)),
    (6, None, None),
    (7, None, Some(PacketType::ServerStream)),
    (8, Some(PacketType::Completion), None),
    (9, None, None),
    (4_294_967_296, None, None),
];

// Nobody hears a packet of this name.
fn is_dropped(rt: &impl Abort, ptype: u64, name: CallName) {
    let dropped = packet(ptype, name, b"", 0);
    hears(rt, dropped, Role::Server, None);
    hears(rt, dropped, Role::Client, None);
}

fn type_is_heard(rt: &impl Abort, row: &TypeRow) {
    let (ptype, server, client) = *row;
    let heard = packet(ptype, name(1, 0), b"", 0);
    hears(rt, heard, Role::Server, server);
    hears(rt, heard, Role::Client, client);
    let mut nameless = name(1, 4_294_967_295);
    nameless.channel = 0;
    is_dropped(rt, ptype, nameless);
    let mut nameless = name(1, 4_294_967_295);
    nameless.service = 0;
    is_dropped(rt, ptype, nameless);
    let mut nameless = name(1, 4_294_967_295);
    nameless.method = 0;
    is_dropped(rt, ptype, nameless);
}

#[test]
fn hears_the_types_of_its_role(rt: HostRuntime) {
    for row in TYPES {
        type_is_heard(&rt, row);
    }
}
