//! Clocks and linkers: in memory, and over the system's own.

ghost use Rattle.std.specs.Prelude.{◌≡◌, true, false};

use super::bytes_are;
use super::places::{is_there, path_of};
use link_io::{
    Clock, Failed, Linker, MemLinker, MemSink, MemSource, Sink, Source, StdIn, StepClock, Still,
    UnixLinker, WallClock, write_whole,
};
use std::alloc::{AllocError, Global};
use std::fs::Files;
use std::net::Net;
use std::os::unix::net::{UnixListener, UnixStream};
use std::process::Abort;
use std::test::Fail;
use std::thread::{Threads, join};
use std::{fs, time};

fn moments_are(rt: &impl Abort, given: &[u64], wanted: &[u64]) {
    assert_eq!(rt; given, wanted);
}

#[test]
fn clocks_never_fall(rt: HostRuntime) -> Result<(), Fail> {
    let mut steps = StepClock::new(Vec::from_slice(rt.alloc(), &[5, 5, 900])?);
    let given = [steps.now(), steps.now(), steps.now(), steps.now()];
    moments_are(&rt, &given, &[5, 5, 900, 900]);
    moments_are(&rt, &[Still::new().now()], &[0]);
    Ok(())
}

#[test]
fn the_clock_of_the_system_goes_on(rt: HostRuntime) {
    let mut wall = WallClock::new(&rt);
    let before = wall.now();
    time::Clock::sleep(&rt, time::Duration::from_millis(20));
    assert!(rt; wall.now() >= before.saturating_add(19));
}

// A linker with one link whose source gives 7 and fails once, and whose own first and third call fail.
fn failing_linker(alloc: Global) -> Result<MemLinker, AllocError> {
    let source = MemSource::new(Vec::from_slice(alloc, &[7])?, Vec::from_slice(alloc, &[1])?);
    let mut ends = Vec::new(alloc);
    ends.push((source, MemSink::new(Vec::new(alloc), Vec::new(alloc))))?;
    MemLinker::new(alloc, ends, Vec::from_slice(alloc, &[1, 3])?)
}

fn ended(rt: &impl Abort, answer: Result<(), Failed>, wanted: Result<(), Failed>) {
    assert_eq!(rt; answer, wanted);
}

fn counted(rt: &impl Abort, answer: Result<usize, Failed>, wanted: Result<usize, Failed>) {
    assert_eq!(rt; answer, wanted);
}

fn failed(rt: &impl Abort, is_err: bool) {
    assert!(rt; is_err);
}

// One link was given back, and these bytes were written to it.
fn link_got(rt: &impl Abort, linker: &MemLinker, wanted: &[u8]) {
    let got = match linker.gone() {
        [ends] => ends.1.bytes(),
        _ => b"not one link",
    };
    assert_eq!(rt; got, wanted);
}

#[test]
fn ends_in_memory_go_out_and_come_back(rt: HostRuntime) -> Result<(), Fail> {
    let mut linker = failing_linker(rt.alloc())?;
    ended(&rt, linker.listen("p"), Err(Failed));
    linker.listen("p")?;
    failed(&rt, linker.accept().is_err());
    let (mut link_in, mut link_out) = linker.accept()?;
    counted(&rt, link_in.read(&mut [0]), Err(Failed));
    write_whole(&mut link_out, &[8, 9])?;
    // All ends are out.
    failed(&rt, linker.connect("p").is_err());
    linker.back(link_in, link_out);
    link_got(&rt, &linker, &[8, 9]);
    Ok(())
}

// What an end reads until the other one is finished.
fn read_all<S: Source>(source: &mut S, buf: &mut [u8]) -> Result<usize, Failed> {
    let mut done = 0;
    for _ in 0..buf.len() {
        if done < buf.len() {
            done += source.read(&mut buf[done..])?;
        }
    }
    Ok(done)
}

// An end hears these bytes, three of them before zeros.
fn hears_three<S: Source>(rt: &impl Abort, source: &mut S, wanted: &[u8; 8]) {
    let mut buf = [0; 8];
    counted(rt, read_all(source, &mut buf), Ok(3));
    bytes_are(rt, &buf, wanted);
}

// Writes all of these bytes, behind which nothing comes.
fn say<S: Sink>(sink: &mut S, bytes: &[u8]) -> Result<(), Failed>
    requires { S.finished sink.old ≡ false }
{
    write_whole(sink, bytes)?;
    sink.finish()
}

// How many bytes an end hears on another thread.
fn heard_elsewhere<R: Threads>(rt: &R, mut source: StdIn<UnixStream>) -> Result<usize, Failed> {
    let (heard, _) = join(
        rt,
        move || {
            let mut buf = [0; 8];
            read_all(&mut source, &mut buf)
        },
        || (),
    );
    heard
}

// Both ways of a connection from a linker that listens at the path. One thread holds both ends, since a connection waits until it is
// accepted.
fn both_ways<R: Net + Files + Threads + Abort>(
    rt: &R,
    path: &str,
    listening: &mut UnixLinker<'_, R>,
    calling: &mut UnixLinker<'_, R>,
) -> Result<(), Fail>
    requires { listening.old.listens ≡ true }
{
    let (client_in, mut client_out) = calling.connect(path)?;
    let (mut link_in, mut link_out) = listening.accept()?;
    say(&mut client_out, &[1, 2, 3])?;
    hears_three(rt, &mut link_in, &[1, 2, 3, 0, 0, 0, 0, 0]);
    // The other way is open still, and the ends may go to other threads.
    say(&mut link_out, &[4])?;
    counted(rt, heard_elsewhere(rt, client_in), Ok(1));
    listening.back(link_in, link_out);
    Ok(())
}

// How an attempt to listen at a path ends.
fn listen_row<R: Net + Files + AllocGlobal + Abort>(
    rt: &R,
    path: &str,
    wanted: Result<(), Failed>,
) {
    let mut linker = UnixLinker::new(rt.alloc(), rt);
    assert_eq!(rt; linker.listen(path), wanted, "{path}");
}

#[test]
fn two_ends_of_a_socket_meet(rt: HostRuntime) -> Result<(), Fail> {
    let folder = path_of(&rt, "link-io-socket")?;
    fs::create_dir(&rt, &folder)?;
    let path = format!(in rt.alloc(); "{folder}/socket")?;
    let mut linker = UnixLinker::new(rt.alloc(), &rt);
    linker.listen(&path)?;
    // A file is there now, so that a second one can't listen at the path.
    listen_row(&rt, &path, Err(Failed));
    let mut client = UnixLinker::new(rt.alloc(), &rt);
    both_ways(&rt, &path, &mut linker, &mut client)?;
    drop(linker);
    // It goes with its listener, and no other file was left beside it.
    is_there(&rt, &path, false)?;
    fs::remove_dir(&rt, &folder)?;
    Ok(())
}

// A path of at least so many bytes, at which nothing stands.
fn long_path(rt: &HostRuntime, length: usize) -> Result<String, Fail> {
    let mut path = path_of(rt, "link-io-long")?;
    for _ in path.len()..length {
        path.push('x')?;
    }
    Ok(path)
}

#[test]
fn a_socket_has_a_path_of_107_bytes_at_most(rt: HostRuntime) -> Result<(), Fail> {
    listen_row(&rt, &long_path(&rt, 100)?, Ok(()));
    listen_row(&rt, &long_path(&rt, 107)?, Ok(()));
    listen_row(&rt, &long_path(&rt, 108)?, Err(Failed));
    Ok(())
}

// A listener of the system leaves its file, which makes way.
fn makes_way<R: Net + Files + AllocGlobal + Abort>(rt: &R, path: &str) -> Result<(), Fail> {
    drop(UnixListener::bind(rt, path)?);
    is_there(rt, path, true)?;
    listen_row(rt, path, Ok(()));
    is_there(rt, path, false)
}

fn file_stays<R: Net + Files + AllocGlobal + Abort>(rt: &R, path: &str) -> Result<(), Fail> {
    fs::write(rt, path, "text")?;
    listen_row(rt, path, Err(Failed));
    assert_eq!(rt; fs::read_to_string(rt, path)?.as_str(), "text");
    fs::remove_file(rt, path)?;
    Ok(())
}

fn folder_stays<R: Net + Files + AllocGlobal + Abort>(rt: &R, path: &str) -> Result<(), Fail> {
    fs::create_dir(rt, path)?;
    listen_row(rt, path, Err(Failed));
    fs::remove_dir(rt, path)?;
    Ok(())
}

#[test]
fn a_socket_that_nobody_listens_at_makes_way(rt: HostRuntime) -> Result<(), Fail> {
    let path = path_of(&rt, "link-io-left")?;
    makes_way(&rt, &path)?;
    // What is no socket is left alone.
    file_stays(&rt, &path)?;
    folder_stays(&rt, &path)
}
