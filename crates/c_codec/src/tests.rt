use crate::{
    KF_NO_ROOM, KfDecoder, KfPacket, KfPushed, kf_crc32, kf_decoder_push, kf_decoder_start,
    kf_encode_ui, kf_packet_read, kf_packet_write, kf_write_frame,
};
use std::process::Abort;

// A request of `demo.Demo`'s `Echo` with the payload `abc`, on channel 1.
const REQUEST: KfPacket = KfPacket {
    ptype: 0,
    payload_at: 14,
    payload_len: 3,
    channel: 1,
    service: 0x70F4_5CFB,
    method: 0x8B47_0EE9,
    call: 1,
    status: 0,
};

const REQUEST_BYTES: [u8; 19] = [
    0x10, 0x01, 0x1D, 0xFB, 0x5C, 0xF4, 0x70, 0x25, 0xE9, 0x0E, 0x47, 0x8B, 0x2A, 0x03, 0x61, 0x62,
    0x63, 0x38, 0x01,
];

const NOTHING: KfPacket = KfPacket {
    ptype: 0,
    payload_at: 0,
    payload_len: 0,
    channel: 0,
    service: 0,
    method: 0,
    call: 0,
    status: 0,
};

// The frame of the request for address 82.
const REQUEST_FRAME: [u8; 27] = [
    0x7E, 0xA5, 0x03, 0x10, 0x01, 0x1D, 0xFB, 0x5C, 0xF4, 0x70, 0x25, 0xE9, 0x0E, 0x47, 0x8B, 0x2A,
    0x03, 0x61, 0x62, 0x63, 0x38, 0x01, 0x03, 0xED, 0xCE, 0x63, 0x7E,
];

fn code_is(rt: &impl Abort, code: u8, wanted: u8) {
    assert_eq!(rt; code, wanted);
}

fn count_is(rt: &impl Abort, count: usize, wanted: usize) {
    assert_eq!(rt; count, wanted);
}

fn bytes_are(rt: &impl Abort, bytes: &[u8], wanted: &[u8]) {
    assert_eq!(rt; bytes, wanted);
}

fn packet_is(rt: &impl Abort, packet: KfPacket, wanted: KfPacket) {
    assert_eq!(rt; packet, wanted);
}

#[test]
fn a_packet_is_read_and_written(rt: HostRuntime) {
    let mut packet = NOTHING;
    code_is(&rt, kf_packet_read(&REQUEST_BYTES, &mut packet), 0);
    packet_is(&rt, packet, REQUEST);
    code_is(&rt, kf_packet_read(&REQUEST_BYTES[..18], &mut packet), 1);
    packet_is(&rt, packet, REQUEST);
    let mut short = [0; 18];
    count_is(
        &rt,
        kf_packet_write(&packet, b"abc", &mut short),
        KF_NO_ROOM,
    );
    let mut bytes = [0; 19];
    count_is(&rt, kf_packet_write(&packet, b"abc", &mut bytes), 19);
    bytes_are(&rt, &bytes, &REQUEST_BYTES);
}

#[test]
fn a_frame_is_written(rt: HostRuntime) {
    assert_eq!(rt; kf_crc32(b"123456789"), 0xcbf4_3926);
    let mut frame = [0; 27];
    count_is(&rt, kf_encode_ui(82, &REQUEST_BYTES, &mut frame), 27);
    bytes_are(&rt, &frame, &REQUEST_FRAME);
    let mut short = [0; 20];
    count_is(
        &rt,
        kf_encode_ui(82, &REQUEST_BYTES, &mut short),
        KF_NO_ROOM,
    );
    let mut scratch = [0; 19];
    let mut same = [0; 27];
    let written = kf_write_frame(82, &REQUEST, b"abc", &mut scratch, &mut same);
    count_is(&rt, written, 27);
    bytes_are(&rt, &same, &REQUEST_FRAME);
}

// How much of a piece was taken, and what ended.
fn takes(rt: &impl Abort, pushed: KfPushed, wanted: (usize, u8)) {
    assert_eq!(rt; (pushed.taken, pushed.kind), wanted);
}

// What ended, the address and the control byte.
fn frame_is(rt: &impl Abort, pushed: KfPushed, wanted: (u8, u32, u8)) {
    assert_eq!(rt; (pushed.kind, pushed.address, pushed.control), wanted);
}

// Where the payload begins, its length, and whether it lies in the piece.
fn payload_is(rt: &impl Abort, pushed: KfPushed, wanted: (usize, usize, bool)) {
    assert_eq!(rt;
        (pushed.payload_at, pushed.payload_len, pushed.in_piece),
        wanted
    );
}

#[test]
fn a_frame_is_found_in_two_pieces(rt: HostRuntime) {
    let mut decoder = KfDecoder {
        len: 7,
        phase: 9,
        is_long: 1,
    };
    let mut buffer = [0; 64];
    kf_decoder_start(&mut decoder);
    let begun = kf_decoder_push(&mut decoder, &mut buffer, &REQUEST_FRAME[..4]);
    takes(&rt, begun, (4, 0));
    let ended = kf_decoder_push(&mut decoder, &mut buffer, &REQUEST_FRAME[4..]);
    frame_is(&rt, ended, (1, 82, 3));
    payload_is(&rt, ended, (2, 19, false));
    bytes_are(&rt, &buffer[2..21], &REQUEST_BYTES);
}
