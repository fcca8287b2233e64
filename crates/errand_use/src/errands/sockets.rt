//! A server and a client over a socket of the system.

use super::checks::{is_so, status_is, told};
use super::{Ran, run_over};
use bytes::Bytes;
use link_io::{Fulls, MemStore, UnixLinker, WallClock};
use std::alloc::{AllocError, Global};
use std::env;
use std::fs::{self, Files};
use std::net::Net;
use std::process::Abort;
use std::sync::Wait;
use std::test::Fail;
use std::thread::{self, Threads, join};
use std::time::{self, Duration};

// The client looks at most so often for the socket's file, a millisecond each time.
const LOOKS: u32 = 10_000;

const LENGTH: usize = 3_000;

// The bytes of the resource that is served.
fn resource(alloc: Global) -> Result<Vec<u8>, AllocError> {
    let mut bytes = Vec::new(alloc);
    for place in 0..LENGTH {
        bytes.push((place % 251) as u8)?;
    }
    Ok(bytes)
}

// Runs a command over the sockets of the system.
fn run_at<R: Threads + Wait + Sync + Net + Files + time::Clock>(
    rt: &R,
    alloc: Global,
    line: &str,
    store: &mut MemStore,
) -> Result<Ran, AllocError> {
    let mut net = UnixLinker::new(alloc, rt);
    let mut clock = WallClock::new(rt);
    run_over(rt, alloc, line, store, &mut net, &mut clock, &[])
}

// A store with resource 7, or with none.
fn store_of(alloc: Global, resource: Option<&[u8]>) -> Result<MemStore, AllocError> {
    let mut full = Fulls::new(alloc);
    if let Some(bytes) = resource {
        full.push((7, Bytes::copy_from_slice(alloc, bytes)?))?;
    }
    MemStore::new(alloc, full, Fulls::new(alloc), Vec::new(alloc))
}

// Serves one client the resource.
fn serve_one<R: Threads + Wait + Sync + Net + Files + time::Clock>(
    rt: &R,
    alloc: Global,
    path: &str,
) -> Result<u8, AllocError> {
    let mut store = store_of(alloc, Some(&resource(alloc)?))?;
    let line = format!(in alloc; "serve {path} 2 1")?;
    Ok(run_at(rt, alloc, line.as_str(), &mut store)?.status)
}

// Waits until the file stands, and not for ever.
fn await_file<R: Files + time::Clock>(rt: &R, path: &str) {
    for _ in 0..LOOKS {
        if matches!(fs::exists(rt, path), Ok(true)) {
            return;
        }
        thread::sleep(rt, Duration::from_millis(1));
    }
}

fn has_all(store: &MemStore, wanted: &[u8]) -> bool {
    match store.full(7) {
        Some(bytes) => bytes.as_slice() == wanted,
        None => false,
    }
}

// Fetches the resource once the socket's file stands. Whether all of it came.
fn fetch<R: Threads + Wait + Sync + Net + Files + time::Clock>(
    rt: &R,
    alloc: Global,
    path: &str,
) -> Result<(Ran, bool), AllocError> {
    await_file(rt, path);
    let mut store = store_of(alloc, None)?;
    let line = format!(in alloc; "get {path} 7 0")?;
    let ran = run_at(rt, alloc, line.as_str(), &mut store)?;
    let came = has_all(&store, &resource(alloc)?);
    Ok((ran, came))
}

// Calls a method once the socket's file stands.
fn call<R: Threads + Wait + Sync + Net + Files + time::Clock>(
    rt: &R,
    alloc: Global,
    path: &str,
    words: &str,
) -> Result<Ran, AllocError> {
    await_file(rt, path);
    let mut store = store_of(alloc, None)?;
    let line = format!(in alloc; "call {path} {words}")?;
    run_at(rt, alloc, line.as_str(), &mut store)
}

// The path of a socket in the folder for temporary files. Each test has a name of its own.
fn socket_path(rt: &HostRuntime, name: &str) -> Result<String, Fail> {
    let now = time::Clock::since_1970(rt)?.as_nanos();
    let base = env::temp_dir(rt)?;
    let base = base.as_str();
    Ok(format!(in rt.alloc(); "{base}/pw-run-{name}-{now}")?)
}

#[test]
fn a_resource_is_fetched_over_a_socket(rt: HostRuntime) -> Result<(), Fail> {
    let alloc = rt.alloc();
    let path = socket_path(&rt, "socket")?;
    let path = path.as_str();
    let (served, got) = join(
        &rt,
        || serve_one(&rt, alloc, path),
        || fetch(&rt, alloc, path),
    );
    let (ran, came) = got?;
    status_is(&rt, "serve", served?, 0);
    told(&rt, "get", &ran, 0, b"get 7 0 OK 3000\ndone\n");
    is_so(&rt, "all came", came);
    Ok(())
}

// A server ended well, and a client that called a method ended with this status and wrote this.
fn is_called(
    rt: &impl Abort,
    served: Result<u8, AllocError>,
    called: Result<Ran, AllocError>,
    status: u8,
    written: &[u8],
) -> Result<(), AllocError> {
    status_is(rt, "serve", served?, 0);
    told(rt, "call", &called?, status, written);
    Ok(())
}

#[test]
fn a_unary_method_is_called_over_a_socket(rt: HostRuntime) -> Result<(), Fail> {
    let alloc = rt.alloc();
    let path = socket_path(&rt, "unary")?;
    let path = path.as_str();
    let (served, called) = join(
        &rt,
        || serve_one(&rt, alloc, path),
        || call(&rt, alloc, path, "demo.Demo Echo unary 616263"),
    );
    is_called(&rt, served, called, 0, b"message 616263\ncall OK 1\ndone\n")?;
    Ok(())
}

#[test]
fn a_stream_of_a_server_is_called_over_a_socket(rt: HostRuntime) -> Result<(), Fail> {
    let alloc = rt.alloc();
    let path = socket_path(&rt, "server")?;
    let path = path.as_str();
    let (served, called) = join(
        &rt,
        || serve_one(&rt, alloc, path),
        || call(&rt, alloc, path, "demo.Demo Count server 03 within 60000"),
    );
    is_called(
        &rt,
        served,
        called,
        0,
        b"message 01\nmessage 02\nmessage 03\ncall OK 3\ndone\n",
    )?;
    Ok(())
}

#[test]
fn a_stream_of_a_client_is_called_over_a_socket(rt: HostRuntime) -> Result<(), Fail> {
    let alloc = rt.alloc();
    let path = socket_path(&rt, "client")?;
    let path = path.as_str();
    let (served, called) = join(
        &rt,
        || serve_one(&rt, alloc, path),
        || call(&rt, alloc, path, "demo.Demo Sum client 0102 ff"),
    );
    is_called(
        &rt,
        served,
        called,
        0,
        b"message 0000000000000102\ncall OK 1\ndone\n",
    )?;
    Ok(())
}

#[test]
fn both_streams_are_called_over_a_socket(rt: HostRuntime) -> Result<(), Fail> {
    let alloc = rt.alloc();
    let path = socket_path(&rt, "bidi")?;
    let path = path.as_str();
    let (served, called) = join(
        &rt,
        || serve_one(&rt, alloc, path),
        || call(&rt, alloc, path, "0x70f45cfb 0x9ba981bc bidi 0102 - ff"),
    );
    is_called(
        &rt,
        served,
        called,
        0,
        b"message 0102\nmessage -\nmessage ff\ncall OK 3\ndone\n",
    )?;
    Ok(())
}

#[test]
fn an_unknown_method_is_called_over_a_socket(rt: HostRuntime) -> Result<(), Fail> {
    let alloc = rt.alloc();
    let path = socket_path(&rt, "unknown")?;
    let path = path.as_str();
    let (served, called) = join(
        &rt,
        || serve_one(&rt, alloc, path),
        || call(&rt, alloc, path, "demo.Demo Reboot client 00"),
    );
    is_called(&rt, served, called, 9, b"call NOT_FOUND 0\ndone\n")?;
    Ok(())
}
