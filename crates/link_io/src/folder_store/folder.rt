//! The uploads of a store in a folder.
ghost use Rattle.std.specs.Prelude.{IfOk};
ghost use Rattle.link_io.specs.Stored.{Rises};

use super::place::Place;
use crate::{Shelf, StoreKey, StoreRefused};
use bytes::Bytes;
use std::alloc::{AllocError, Global};
use std::collections::BTreeMap;
use std::fs::{File, Files};
use std::io::Write;

// An upload under way.
#[derive(Clone, Copy)]
struct Upload {
    resource: u32,
    // How many bytes it has, with those of what was left.
    length: u64,
    // Its file stands in the folder, with these bytes. Before the first append it has none.
    is_made: bool,
    is_appended: bool,
}

/// A folder of resources, and the uploads under way there. Those are left when it is let go.
pub(crate) struct Folder<'a, F: Files<File = File>> {
    place: Place<'a, F>,
    uploads: BTreeMap<StoreKey, Upload>,
    // How long what is left of resources was when it was listed, without those of which uploads ended since.
    listed: BTreeMap<u32, u64>,
    // The folder, locked from the first upload on.
    lock: Option<File>,
    // The file of the upload that was appended to last.
    open: Option<(StoreKey, File)>,
}

impl<'a, F: Files<File = File>> Folder<'a, F> {
    pub(crate) fn new(
        alloc: Global,
        files: &'a F,
        path: &str,
    ) -> Result<Folder<'a, F>, AllocError> {
        Ok(Folder {
            place: Place::new(alloc, files, path)?,
            uploads: BTreeMap::new(alloc),
            listed: BTreeMap::new(alloc),
            lock: None,
            open: None,
        })
    }

    pub(crate) fn begin(
        &mut self,
        key: StoreKey,
        resource: u32,
        offset: u64,
    ) -> Result<(), StoreRefused> {
        self.hold()?;
        let length = self.left_before(resource, offset)?;
        self.remove_file_of(key)?;
        let upload = Upload {
            resource,
            length,
            is_made: false,
            is_appended: false,
        };
        self.uploads.insert(key, upload)?;
        Ok(())
    }

    pub(crate) fn append(&mut self, key: StoreKey, bytes: &Bytes) -> Result<(), StoreRefused> {
        let Some(upload) = self.uploads.get(&key).copied() else {
            return Ok(());
        };
        if bytes.is_empty() {
            return Ok(());
        }
        let mut file = self.file_of(key, upload)?;
        if let Err(error) = file.write_all(bytes.as_slice()) {
            // What was written of the piece goes again, as far as the device allows.
            let _ = file.set_len(upload.length);
            return Err(StoreRefused::from(error));
        }
        self.open = Some((key, file));
        if let Some(upload) = self.uploads.get_mut(&key) {
            upload.length = upload.length.saturating_add(bytes.len() as u64);
            upload.is_appended = true;
        }
        Ok(())
    }

    pub(crate) fn commit(&mut self, key: StoreKey) -> Result<(), StoreRefused> {
        let Some(upload) = self.uploads.get(&key).copied() else {
            return Ok(());
        };
        self.close(key, upload)?;
        self.keep_left(key, upload.resource)?;
        self.place.remove_left(upload.resource)?;
        self.place.make_full(key, upload.resource)?;
        self.forget(key, upload.resource);
        self.sync()
    }

    pub(crate) fn leave(&mut self, key: StoreKey) -> Result<(), StoreRefused> {
        let Some(upload) = self.uploads.get(&key).copied() else {
            return Ok(());
        };
        if !upload.is_appended {
            self.remove_file_of(key)?;
            self.uploads.remove(&key);
            return Ok(());
        }
        self.close(key, upload)?;
        self.keep_left(key, upload.resource)?;
        self.place.make_left(key, upload.resource)?;
        self.forget(key, upload.resource);
        self.sync()
    }

    pub(crate) fn leave_call(&mut self, call: u32) -> Result<(), StoreRefused> {
        for key in self.uploads_of(call)? {
            self.leave(key)?;
        }
        Ok(())
    }

    pub(crate) fn list(&mut self) -> Result<Shelf, StoreRefused>
        ensures { IfOk result Rises }
    {
        let mut found = self.place.found()?;
        if self.lock.is_none() && self.place.take_up_where_free(found.works())? {
            found = self.place.found()?;
        }
        let shelf = Shelf {
            full: found.fulls(&self.place)?,
            left: found.lefts(self.place.alloc())?,
        };
        self.listed = found.into_left();
        Ok(shelf)
    }

    // Locks the folder for the rest of the run, and takes up what runs that were killed have left there.
    fn hold(&mut self) -> Result<(), StoreRefused> {
        if self.lock.is_some() {
            return Ok(());
        }
        let Some(lock) = self.place.locked()? else {
            return Err(StoreRefused::Failed);
        };
        let found = self.place.found()?;
        self.place.take_up(&lock, found.works())?;
        self.lock = Some(lock);
        Ok(())
    }

    // How many bytes before an offset are left of a resource. Where they are fewer than was listed, another run has ended
    // an upload of it before this one held the folder, and the new upload would lack them.
    fn left_before(&self, resource: u32, offset: u64) -> Result<u64, StoreRefused> {
        let left = self.place.left(resource)?;
        let length = self.place.length(&left)?.unwrap_or(0).min(offset);
        let listed = self.listed.get(&resource).copied().unwrap_or(0);
        if length < listed.min(offset) {
            return Err(StoreRefused::Failed);
        }
        Ok(length)
    }

    // An upload of a resource has ended.
    fn forget(&mut self, key: StoreKey, resource: u32) {
        self.uploads.remove(&key);
        self.listed.remove(&resource);
    }

    // The file of an upload, open behind its bytes. It is made where it isn't there yet.
    fn file_of(&mut self, key: StoreKey, upload: Upload) -> Result<File, StoreRefused> {
        if let Some((last, file)) = self.open.take() {
            if last == key {
                return Ok(file);
            }
        }
        if upload.is_made {
            return self.place.open_work(key, upload.resource, upload.length);
        }
        self.make(key, upload)
    }

    // Makes the file of an upload, with the bytes that it has of what was left.
    fn make(&mut self, key: StoreKey, upload: Upload) -> Result<File, StoreRefused> {
        let file = self.place.make_work(key, upload.resource, upload.length)?;
        if let Some(upload) = self.uploads.get_mut(&key) {
            upload.is_made = true;
        }
        Ok(file)
    }

    // Closes the file of an upload with just its bytes in it, on the device.
    fn close(&mut self, key: StoreKey, upload: Upload) -> Result<(), StoreRefused> {
        let file = self.file_of(key, upload)?;
        file.set_len(upload.length)?;
        file.sync_all()?;
        Ok(())
    }

    // Makes the files of other uploads of a resource, before what is left of it changes.
    fn keep_left(&mut self, key: StoreKey, resource: u32) -> Result<(), StoreRefused> {
        for other in self.waiting(key, resource)? {
            if let Some(upload) = self.uploads.get(&other).copied() {
                self.make(other, upload)?;
            }
        }
        Ok(())
    }

    // The file of an upload goes, if it was made.
    fn remove_file_of(&mut self, key: StoreKey) -> Result<(), StoreRefused> {
        let Some(upload) = self.uploads.get(&key).copied() else {
            return Ok(());
        };
        if matches!(&self.open, Some((last, _)) if *last == key) {
            self.open = None;
        }
        if upload.is_made {
            self.place.remove_work(key, upload.resource)?;
        }
        Ok(())
    }

    // What was renamed is so on the device, too.
    fn sync(&self) -> Result<(), StoreRefused> {
        if let Some(folder) = &self.lock {
            folder.sync_all()?;
        }
        Ok(())
    }

    // The uploads of a call, by rising session.
    fn uploads_of(&self, call: u32) -> Result<Vec<StoreKey>, AllocError> {
        let mut keys = Vec::new(self.place.alloc());
        for key in self.uploads.keys() {
            if key.call == call {
                keys.push(*key)?;
            }
        }
        Ok(keys)
    }

    // The uploads of a resource, but this one, that have bytes of what was left and no file yet.
    fn waiting(&self, key: StoreKey, resource: u32) -> Result<Vec<StoreKey>, AllocError> {
        let mut keys = Vec::new(self.place.alloc());
        for (other, upload) in &self.uploads {
            let waits = upload.resource == resource && upload.length > 0 && !upload.is_made;
            if waits && *other != key {
                keys.push(*other)?;
            }
        }
        Ok(keys)
    }

    // Leaves what is still under way, as far as the device allows.
    fn leave_all(&mut self) -> Result<(), AllocError> {
        let mut keys = Vec::new(self.place.alloc());
        for key in self.uploads.keys() {
            keys.push(*key)?;
        }
        for key in keys {
            let _ = self.leave(key);
        }
        Ok(())
    }
}

impl<'a, F: Files<File = File>> Drop for Folder<'a, F> {
    fn drop(mut self) {
        let _ = self.leave_all();
        let Folder {
            place: _place,
            uploads: _uploads,
            listed: _listed,
            lock: _lock,
            open: _open,
        } = self;
    }
}
