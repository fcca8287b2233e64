use super::probe::is_deserted;
use std::alloc::Global;
use std::fs::Files;
use std::net::Net;
use std::os::unix::fs::{FileTypeExt, MetadataExt};
use std::os::unix::net::{UnixListener, UnixStream};
use std::{fs, io};

/// A listener and the file that it made. The file is removed when it is let go.
pub(crate) struct Bound<'a, R: Net + Files> {
    rt: &'a R,
    path: String,
    listener: UnixListener,
    made: Option<Place>,
}

// Where a file stands: the device and its number there.
type Place = (u64, u64);

impl<'a, R: Net + Files> Bound<'a, R> {
    /// Listens at a path. A socket that nobody listens at makes way for the new one.
    /// A file stands there only once it can be connected to.
    pub(crate) fn new(alloc: Global, rt: &'a R, path: &str) -> io::Result<Bound<'a, R>> {
        let copy = String::from_str(alloc, path)?;
        if is_left_over(rt, path) {
            fs::remove_file(rt, path)?;
        }
        let listener = listener_at(alloc, rt, path)?;
        Ok(Bound {
            rt,
            path: copy,
            listener,
            made: place_of(rt, path),
        })
    }

    /// Waits for a connection.
    pub(crate) fn accept(&self) -> io::Result<UnixStream> {
        let (stream, _) = self.listener.accept()?;
        Ok(stream)
    }
}

impl<'a, R: Net + Files> Drop for Bound<'a, R> {
    fn drop(self) {
        let Self {
            rt,
            path,
            listener,
            made,
        } = self;
        drop(listener);
        // Another file that stands there by now is left alone.
        if made.is_some() && place_of(rt, path.as_str()) == made {
            let _ = fs::remove_file(rt, &path);
        }
    }
}

// The system makes a socket's file before anybody listens at it. So it is made beside the path, and gets its name when it listens.
// Where that can't be, or a file stands at the path, the system is asked for the path itself.
fn listener_at(alloc: Global, rt: &(impl Net + Files), path: &str) -> io::Result<UnixListener> {
    let pid = libc::getpid();
    let aside = format!(in alloc; "{path}.{pid}")?;
    let Ok(listener) = UnixListener::bind(rt, &aside) else {
        return UnixListener::bind(rt, path);
    };
    let named = fs::hard_link(rt, &aside, path);
    fs::remove_file(rt, &aside)?;
    match named {
        Ok(()) => Ok(listener),
        Err(_) => UnixListener::bind(rt, path),
    }
}

// A socket stands at the path that nobody listens at.
fn is_left_over(rt: &(impl Net + Files), path: &str) -> bool {
    match fs::symlink_metadata(rt, path) {
        Ok(data) => data.file_type().is_socket() && is_deserted(rt, path).unwrap_or(false),
        Err(_) => false,
    }
}

fn place_of(rt: &impl Files, path: &str) -> Option<Place> {
    let data = fs::symlink_metadata(rt, path).ok()?;
    Some((data.dev(), data.ino()))
}
