//! The uploads under way while items go out, for the lines of those that end well.

ghost use Rattle.std.specs.Prelude.{◌≡◌, ℕ, List, [], OnOk, option_map};
ghost use Rattle.std.specs.Option.{option_copied};
ghost use Rattle.std.specs.Map.{lookup};
ghost use Rattle.link_io.specs.declared.store.StoreKey.{StoreKey};
ghost use Rattle.link_io.specs.Stored.{is_key};
ghost use Rattle.run_report.specs.Uploads.{all_ended, with_begun, with_bytes, without};

use link_io::StoreKey;
use std::alloc::{AllocError, Global};
use std::collections::BTreeMap;
use std::marker::Model;

/// An upload under way.
#[derive(Clone, Copy)]
pub(crate) struct Upload {
    pub(crate) resource: u32,
    /// Its offset and all bytes appended to it.
    pub(crate) length: u64,
}

/// The uploads under way, by call and session.
#[derive(Drop)]
pub(crate) struct Uploads {
    under_way: BTreeMap<StoreKey, Upload>,
}

impl Model for Uploads {
    ghost use Rattle.std.specs.Prelude.{List};
    ghost use Rattle.link_io.specs.declared.store.StoreKey.{StoreKey};
    ghost use Rattle.run_report.specs.declared.uploads.Upload.{Upload};

    ghost Value = { List (StoreKey × Upload) };

    ghost view = { λ u. u.under_way.entries };
}

impl Uploads {
    pub(crate) fn new(alloc: Global) -> Uploads
        ensures { result ≡ [] }
    {
        Uploads {
            under_way: BTreeMap::new(alloc),
        }
    }

    pub(crate) fn get(&self, key: StoreKey) -> Option<Upload>
        ensures { result ≡ lookup (is_key key) self.now }
    {
        self.under_way.get(&key).copied()
    }

    pub(crate) fn begin(
        &mut self,
        key: StoreKey,
        resource: u32,
        offset: u64,
    ) -> Result<(), AllocError>
        ensures { OnOk result (self.new ≡ with_begun key resource offset self.old) }
    {
        self.under_way.insert(
            key,
            Upload {
                resource,
                length: offset,
            },
        )?;
        Ok(())
    }

    pub(crate) fn append(&mut self, key: StoreKey, count: usize)
        ensures { self.new ≡ with_bytes key count self.old }
    {
        if let Some(upload) = self.under_way.get_mut(&key) {
            upload.length = upload.length.saturating_add(count as u64);
        }
    }

    pub(crate) fn end(&mut self, key: StoreKey)
        ensures { self.new ≡ without key self.old }
    {
        self.under_way.remove(&key);
    }

    pub(crate) fn end_call(&mut self, call: u32)
        ensures { self.new ≡ all_ended call self.old }
    {
        self.under_way.retain(|key, _upload| key.call != call);
    }
}
