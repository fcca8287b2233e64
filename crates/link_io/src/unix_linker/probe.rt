//! Whether anybody listens at a socket.

use std::io;
use std::net::Net;
use std::os::fd::AsRawFd;
use std::os::unix::net::UnixStream;

// The bytes of an address of the system: its kind, then the path and a zero.
const ADDRESS: usize = 128;

// Where the path stands, and how long it may be.
const PATH_AT: usize = 2;

const PATH_LENGTH: usize = 107;

/// Whether nobody listens at the socket of a path. No connection is made: a socket that has its other end already asks
/// for one, which the system refuses in words of its own where nobody listens.
pub(crate) fn is_deserted(rt: &impl Net, path: &str) -> io::Result<bool> {
    let path = path.as_bytes();
    if path.len() > PATH_LENGTH {
        return Ok(false);
    }
    let mut address = [0; ADDRESS];
    address[..PATH_AT].copy_from_slice(&(libc::net::AF_UNIX as u16).to_ne_bytes());
    address[PATH_AT..PATH_AT + path.len()].copy_from_slice(path);
    let length = (PATH_AT + path.len() + 1) as u32;
    let (near, _far) = UnixStream::pair(rt)?;
    // Where many wait there already, it isn't to wait with them.
    near.set_nonblocking(true)?;
    let status = unsafe { libc::net::connect(near.as_raw_fd(), &address, length) };
    Ok(status != 0 && os::errno() == libc::ECONNREFUSED)
}
