//! The recorded commands over devices in memory. What they should write is what a server in plain Rust, with
//! nothing proved, writes of the same bytes (`bench/replay`).

mod checks;
mod cuts;
mod dumps;
mod journal_limit;
mod journals;
mod loads;
mod log_service;
mod methods;
mod other_words;
mod routes;
mod scripts;
mod streams;
mod tokens;

use self::checks::{count_is, status_is, told};
use bytes::Bytes;
use link_io::{Fulls, MemSink, MemSource, MemStore, Source};
use pw_run::run_recorded;
use rpc_frames::write_frame;
use rpc_packet::{CallName, Packet, PacketType};
use std::alloc::{AllocError, Global};
use std::process::Abort;

/// The frame of a REQUEST of Echo with payload `abc` on channel 1, call 1, and what each form of `replay` writes of it.
const FIRST: &str = "7EA50310011DFB5CF47025E90E478B2A03616263380103EDCE637E";

const FIRST_REPORT: &str = "frames 1 bad 0 other 0 dropped 0
call 0 1 70f45cfb 8b470ee9 1 unary OK
out 7ea503080110011dfb5cf47025e90e478b2a0361626338019794283c7e
done
";

const FIRST_FRAME: &str = "7EA503080110011DFB5CF47025E90E478B2A0361626338019794283C7E";

const FIRST_JOURNAL: &str = "journal
0 arrive 10011dfb5cf47025e90e478b2a036162633801
2 start 0
2 finish 0 0:616263
1 flush
0 endin
";

/// The service and the methods by their ids.
const DEMO: u32 = 0x70F4_5CFB;

const ECHO: u32 = 0x8B47_0EE9;

const COUNT: u32 = 0xB636_13B6;

const SUM: u32 = 0x0957_0BB8;

const CHAT: u32 = 0x9BA9_81BC;

/// What a command ended with, and what it wrote.
#[derive(Drop)]
struct Ran {
    status: u8,
    output: Vec<u8>,
}

fn words(alloc: Global, line: &str) -> Result<Vec<String>, AllocError> {
    let mut words = Vec::new(alloc);
    for word in line.split_whitespace() {
        words.push(String::from_str(alloc, word)?)?;
    }
    Ok(words)
}

/// A store without a resource.
fn no_store(alloc: Global) -> Result<MemStore, AllocError> {
    MemStore::new(alloc, Fulls::new(alloc), Fulls::new(alloc), Vec::new(alloc))
}

fn unhex(alloc: Global, digits: &str) -> Result<Vec<u8>, AllocError> {
    hex::decode(alloc, digits).map_err(|_| AllocError)
}

/// Runs the command on this input, with no resource, and with a sink that doesn't fail.
fn run_on<I: Source>(alloc: Global, line: &str, input: &mut I) -> Result<Ran, AllocError> {
    let words = words(alloc, line)?;
    let mut output = MemSink::new(Vec::new(alloc), Vec::new(alloc));
    let mut store = no_store(alloc)?;
    let status = run_recorded(alloc, &words, input, &mut output, &mut store);
    let output = Vec::from_slice(alloc, output.bytes())?;
    Ok(Ran { status, output })
}

/// Runs the command on this content, with devices that don't fail.
fn run(alloc: Global, line: &str, content: Vec<u8>) -> Result<Ran, AllocError> {
    run_on(alloc, line, &mut MemSource::new(content, Vec::new(alloc)))
}

/// The command ends with this status on this text, and writes just this.
fn tells(
    rt: &impl Abort,
    alloc: Global,
    line: &str,
    text: &str,
    status: u8,
    written: &str,
) -> Result<(), AllocError> {
    let ran = run(alloc, line, Vec::from_slice(alloc, text.as_bytes())?)?;
    told(rt, text, &ran, status, written.as_bytes());
    Ok(())
}

/// The command ends with status 3 and writes nothing, where the first read gives the whole text, and the second fails.
fn is_silent_at_a_fault(
    rt: &impl Abort,
    alloc: Global,
    line: &str,
    text: &str,
) -> Result<(), AllocError> {
    let text = Vec::from_slice(alloc, text.as_bytes())?;
    let mut input = MemSource::new(text, Vec::from_slice(alloc, &[2])?);
    let ran = run_on(alloc, line, &mut input)?;
    status_is(rt, line, ran.status, 3);
    count_is(rt, line, ran.output.len(), 0);
    Ok(())
}

/// A packet to the demo service: its type, channel, method, call, payload and status.
type Sent = (PacketType, u32, u32, u32, &'static [u8], u32);

/// The frames of these packets.
fn stream(alloc: Global, packets: &[Sent]) -> Result<Vec<u8>, AllocError> {
    let mut stream = Vec::new(alloc);
    for &(ptype, channel, method, call, payload, status) in packets {
        let name = CallName {
            channel,
            service: DEMO,
            method,
            call,
        };
        let packet = Packet {
            ptype,
            name,
            payload: Bytes::copy_from_slice(alloc, payload)?,
            status,
        };
        write_frame(alloc, &packet, &mut stream)?;
    }
    Ok(stream)
}
