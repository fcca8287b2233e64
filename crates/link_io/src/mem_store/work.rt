ghost use Rattle.std.specs.Prelude.{◌≡◌, OnOk, OnErr, IfOk};
ghost use Rattle.link_io.specs.Stored.{longer};

use bytes::Bytes;
use std::alloc::{AllocError, Global};
use std::marker::Model;

/// An upload under way.
#[derive(Drop)]
pub(crate) struct Work {
    pub(crate) resource: u32,
    pub(crate) offset: u64,
    pub(crate) bytes: Vec<u8>,
    pub(crate) appended: usize,
}

impl Model for Work {
    ghost use Rattle.std.specs.Prelude.{◌≤◌, vec_len};
    ghost use Rattle.link_io.specs.Stored.{Work as Seen};

    ghost Value = { Seen };

    ghost view = { λ w. record {
      resource = w.resource;
      offset = w.offset;
      bytes = w.bytes.items;
      appended = w.appended;
    } };

    ghost invariant = { λ w. w.appended ≤ vec_len w.bytes };
}

impl Work {
    /// Adds bytes.
    pub(crate) fn append(&mut self, bytes: &Bytes) -> Result<(), AllocError>
        ensures ok { OnOk result (self.new ≡ longer bytes.now self.old) }
        ensures err { OnErr result (self.new ≡ self.old) }
    {
        self.bytes.extend_from_slice(bytes.as_slice())?;
        self.appended += bytes.len();
        Ok(())
    }

    /// Its bytes, copied.
    pub(crate) fn copied(&self, alloc: Global) -> Result<Bytes, AllocError>
        ensures { IfOk result (λ bytes. bytes ≡ self.now.bytes) }
    {
        Bytes::copy_from_slice(alloc, self.bytes.as_slice())
    }
}
