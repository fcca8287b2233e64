ghost use Rattle.std.specs.Prelude.{◌≡◌, ℕ, None};
ghost use Rattle.link_io.specs.Causes.{HasStoreCause, CountsFailure};

mod folder;
mod found;
mod names;
mod place;

use crate::{Shelf, Store, StoreKey, StoreRefused};
use bytes::Bytes;
use folder::Folder;
use std::alloc::{AllocError, Global};
use std::fs::{File, Files};
use std::marker::Model;

/// A store over a folder of files: `full-R` is the whole resource R, `left-R` what is left of it, and `work-C-S-R` the
/// upload of it under way in session S of call C. Only plain files count, and other files there are left alone.
///
/// From its first upload on the store holds the folder until it is let go; where another holds it, in this process or
/// in another one, `begin` fails and changes nothing. A store that is let go leaves what is under way. What a process
/// that was killed had under way is taken up, by the first upload of another store or when it lists, where it is longer
/// than what is left of its resource.
///
/// What was committed or left stands on the device, under its name, when the call returns. A call that fails may leave
/// part of what it did in the folder. Nothing of what the files hold is promised by a contract.
#[derive(Drop)]
pub struct FolderStore<'a, F: Files<File = File>> {
    folder: Folder<'a, F>,
    faults: u64,
}

impl<'a, F: Files<File = File>> Model for FolderStore<'a, F> {
    ghost Value = { ℕ };

    ghost view = { λ s. s.faults };
}

impl<'a, F: Files<File = File>> FolderStore<'a, F> {
    /// A store over the folder at `path`, with no fault counted.
    pub fn new(alloc: Global, files: &'a F, path: &str) -> Result<FolderStore<'a, F>, AllocError> {
        Ok(FolderStore {
            folder: Folder::new(alloc, files, path)?,
            faults: 0,
        })
    }

    // Counts a call that failed, and hands its answer on.
    fn told<T>(&mut self, answer: Result<T, StoreRefused>) -> Result<T, StoreRefused>
        ensures same { result ≡ answer }
        ensures cause { HasStoreCause self.old self.new result }
        ensures counts { CountsFailure self.old self.new result }
    {
        if matches!(&answer, Err(StoreRefused::Failed)) {
            self.faults = self.faults.saturating_add(1);
        }
        answer
    }
}

impl<'a, F: Files<File = File>> Store for FolderStore<'a, F> {
    ghost holds = { λ _. None };

    ghost faults = { λ s. s };

    fn begin(&mut self, key: StoreKey, resource: u32, offset: u64) -> Result<(), StoreRefused> {
        let answer = self.folder.begin(key, resource, offset);
        self.told(answer)
    }

    fn append(&mut self, key: StoreKey, bytes: &Bytes) -> Result<(), StoreRefused> {
        let answer = self.folder.append(key, bytes);
        self.told(answer)
    }

    fn commit(&mut self, key: StoreKey) -> Result<(), StoreRefused> {
        let answer = self.folder.commit(key);
        self.told(answer)
    }

    fn leave(&mut self, key: StoreKey) -> Result<(), StoreRefused> {
        let answer = self.folder.leave(key);
        self.told(answer)
    }

    fn leave_call(&mut self, call: u32) -> Result<(), StoreRefused> {
        let answer = self.folder.leave_call(call);
        self.told(answer)
    }

    fn list(&mut self) -> Result<Shelf, StoreRefused> {
        let answer = self.folder.list();
        self.told(answer)
    }
}
