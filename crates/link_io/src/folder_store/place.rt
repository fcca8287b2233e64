//! A folder, and what is done with single files there.

use super::found::Found;
use super::names::Name;
use crate::{StoreKey, StoreRefused};
use bytes::Bytes;
use std::alloc::{AllocError, Global};
use std::fs::{File, Files, OpenOptions, TryLockError};
use std::io::{Read, Seek, SeekFrom};
use std::path::AsPath;
use std::{fs, io};

/// How much of a file is read at most: a byte more than a resource may have, which tells that it is too long.
const MOST_READ: u64 = 16_777_217;

/// The folder of a store.
#[derive(Drop)]
pub(crate) struct Place<'a, F: Files<File = File>> {
    alloc: Global,
    files: &'a F,
    path: String,
}

impl<'a, F: Files<File = File>> Place<'a, F> {
    pub(crate) fn new(alloc: Global, files: &'a F, path: &str) -> Result<Place<'a, F>, AllocError> {
        Ok(Place {
            alloc,
            files,
            path: String::from_str(alloc, path)?,
        })
    }

    pub(crate) fn alloc(&self) -> Global {
        self.alloc
    }

    /// The file of a whole resource.
    pub(crate) fn full(&self, resource: u32) -> Result<String, AllocError> {
        let folder = &self.path;
        format!(in self.alloc; "{folder}/full-{resource}")
    }

    /// The file of what is left of a resource.
    pub(crate) fn left(&self, resource: u32) -> Result<String, AllocError> {
        let folder = &self.path;
        format!(in self.alloc; "{folder}/left-{resource}")
    }

    /// The file of an upload of a resource.
    pub(crate) fn work(&self, key: StoreKey, resource: u32) -> Result<String, AllocError> {
        let folder = &self.path;
        let call = key.call;
        let session = key.session;
        format!(in self.alloc; "{folder}/work-{call}-{session}-{resource}")
    }

    /// How long a plain file is, also one behind a link. Another thing of that name is none.
    pub(crate) fn length<P: AsPath>(&self, path: P) -> Result<Option<u64>, StoreRefused> {
        match fs::metadata(self.files, path) {
            Ok(data) if data.is_file() => Ok(Some(data.len())),
            Ok(_) => Ok(None),
            Err(error) => match error.kind() {
                io::ErrorKind::NotFound
                | io::ErrorKind::NotADirectory
                | io::ErrorKind::FilesystemLoop => Ok(None),
                _ => Err(StoreRefused::from(error)),
            },
        }
    }

    /// The plain files of the store.
    pub(crate) fn found(&self) -> Result<Found, StoreRefused> {
        let mut found = Found::new(self.alloc);
        for entry in fs::read_dir(&(self.files, self.alloc), self.path.as_str())? {
            match entry {
                Ok(entry) => {
                    if let Some(name) = Name::read(entry.file_name()) {
                        if let Some(length) = self.length(entry.path())? {
                            found.add(name, length)?;
                        }
                    }
                }
                // A name that isn't text is no file of a store.
                Err(error) if error.kind() == io::ErrorKind::InvalidFilename => {}
                Err(error) => return Err(StoreRefused::from(error)),
            }
        }
        Ok(found)
    }

    /// The bytes of a whole resource, of a file that was so long when it was found.
    pub(crate) fn read_full(&self, resource: u32, length: u64) -> Result<Bytes, StoreRefused> {
        let name = self.full(resource)?;
        let mut bytes = Vec::with_capacity(self.alloc, length.min(MOST_READ) as usize)?;
        fs::open(self.files, &name)?
            .take(MOST_READ)
            .read_to_end(&mut bytes)?;
        Ok(Bytes::from_vec(bytes)?)
    }

    /// The folder, locked until it is let go, or None where another holds it. The system lets it go with the process.
    pub(crate) fn locked(&self) -> Result<Option<File>, StoreRefused> {
        let folder = fs::open(self.files, self.path.as_str())?;
        match folder.try_lock() {
            Ok(()) => Ok(Some(folder)),
            Err(TryLockError::WouldBlock) => Ok(None),
            Err(TryLockError::Error(error)) => Err(StoreRefused::from(error)),
        }
    }

    /// Makes the file of an upload, with so many first bytes of what is left of its resource, and opens it behind them.
    pub(crate) fn make_work(
        &self,
        key: StoreKey,
        resource: u32,
        length: u64,
    ) -> Result<File, StoreRefused> {
        let mut file = fs::create(self.files, &self.work(key, resource)?)?;
        if length > 0 {
            let left = fs::open(self.files, &self.left(resource)?)?;
            if io::copy(&mut left.take(length), &mut file)? < length {
                return Err(StoreRefused::Failed);
            }
        }
        Ok(file)
    }

    /// Opens the file of an upload behind its bytes.
    pub(crate) fn open_work(
        &self,
        key: StoreKey,
        resource: u32,
        length: u64,
    ) -> Result<File, StoreRefused> {
        let name = self.work(key, resource)?;
        let mut file = OpenOptions::new().write(true).open(self.files, &name)?;
        file.seek(SeekFrom::Start(length))?;
        Ok(file)
    }

    /// Removes the file of an upload.
    pub(crate) fn remove_work(&self, key: StoreKey, resource: u32) -> Result<(), StoreRefused> {
        fs::remove_file(self.files, &self.work(key, resource)?)?;
        Ok(())
    }

    /// An upload is the whole resource now.
    pub(crate) fn make_full(&self, key: StoreKey, resource: u32) -> Result<(), StoreRefused> {
        fs::rename(
            self.files,
            &self.work(key, resource)?,
            &self.full(resource)?,
        )?;
        Ok(())
    }

    /// An upload is what is left of the resource now.
    pub(crate) fn make_left(&self, key: StoreKey, resource: u32) -> Result<(), StoreRefused> {
        fs::rename(
            self.files,
            &self.work(key, resource)?,
            &self.left(resource)?,
        )?;
        Ok(())
    }

    /// Nothing is left of a resource from now on.
    pub(crate) fn remove_left(&self, resource: u32) -> Result<(), StoreRefused> {
        let name = self.left(resource)?;
        if self.length(&name)?.is_some() {
            fs::remove_file(self.files, &name)?;
        }
        Ok(())
    }

    /// Takes up what runs that were killed have left, where nobody holds the folder. Says whether it did.
    pub(crate) fn take_up_where_free(
        &self,
        works: &[(StoreKey, u32)],
    ) -> Result<bool, StoreRefused> {
        if works.is_empty() {
            return Ok(false);
        }
        let Some(lock) = self.locked()? else {
            return Ok(false);
        };
        self.take_up(&lock, works)?;
        Ok(true)
    }

    /// Makes each upload what is left of its resource, where it is longer than that, and removes it else. What the
    /// device doesn't allow stays as it is.
    pub(crate) fn take_up(
        &self,
        folder: &File,
        works: &[(StoreKey, u32)],
    ) -> Result<(), StoreRefused> {
        for (key, resource) in works {
            if self.take_up_work(*key, *resource) == Err(StoreRefused::Memory) {
                return Err(StoreRefused::Memory);
            }
        }
        if !works.is_empty() {
            let _ = folder.sync_all();
        }
        Ok(())
    }

    fn take_up_work(&self, key: StoreKey, resource: u32) -> Result<(), StoreRefused> {
        let Some(length) = self.length(&self.work(key, resource)?)? else {
            return Ok(());
        };
        if length <= self.length(&self.left(resource)?)?.unwrap_or(0) {
            return self.remove_work(key, resource);
        }
        self.open_work(key, resource, length)?.sync_all()?;
        self.make_left(key, resource)
    }
}
