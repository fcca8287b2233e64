//! Lists that only grow at their end, seen as the list of their elements.
ghost use Rattle.std.specs.Prelude.{◌≡◌, ℕ, List, [], ◌∷◌, ◌++◌, OnOk, OnErr};
ghost use Rattle.rpc_handlers.specs.Boxed.{items_of};

use crate::answer::Out;
use bytes::Bytes;
use std::alloc::{AllocError, Global};
use std::marker::Model;

/// The items of an answer, in order.
#[derive(Clone, Debug, Drop)]
pub struct Outs {
    outs: Vec<Out>,
}

impl Model for Outs {
    ghost use Rattle.std.specs.Prelude.{List};
    ghost use Rattle.rpc_handlers.specs.declared.answer.Out.{Out};

    ghost Value = { List Out };

    ghost view = { λ l. l.outs.items };
}

impl Outs {
    /// No item.
    pub fn new(alloc: Global) -> Outs
        ensures { result ≡ [] }
    {
        Outs {
            outs: Vec::new(alloc),
        }
    }

    /// Adds an item at the end.
    pub fn push(&mut self, item: Out) -> Result<(), AllocError>
        ensures ok { OnOk result (self.new ≡ self.old ++ item ∷ []) }
        ensures err { OnErr result (self.new ≡ self.old) }
    {
        self.outs.push(item)?;
        Ok(())
    }

    /// The items in order.
    pub fn as_slice(&self) -> &[Out]
        ensures { result.now ≡ self.now }
    {
        self.outs.as_slice()
    }
}

/// The numbers of a state, in order. It is two words long, since each entry of a journal has room for a state.
#[derive(Clone, Debug, Drop)]
pub struct Words {
    words: Option<Box<Vec<u64>>>,
    alloc: Global,
}

impl Model for Words {
    ghost use Rattle.std.specs.Prelude.{ℕ, List};
    ghost use Rattle.rpc_handlers.specs.Boxed.{items_of};

    ghost Value = { List ℕ };

    ghost view = { λ l. items_of l.words };
}

impl Words {
    /// No number.
    pub fn new(alloc: Global) -> Words
        ensures { result ≡ [] }
    {
        Words { words: None, alloc }
    }

    /// Adds a number at the end.
    pub fn push(&mut self, item: u64) -> Result<(), AllocError>
        ensures ok { OnOk result (self.new ≡ self.old ++ item ∷ []) }
        ensures err { OnErr result (self.new ≡ self.old) }
    {
        push_boxed(self.alloc, &mut self.words, item)
    }

    /// The numbers in order.
    pub fn as_slice(&self) -> &[u64]
        ensures { result.now ≡ self.now }
    {
        match &self.words {
            Some(words) => words.as_slice(),
            None => &[],
        }
    }
}

/// The texts of a state, in order. It is as short as `Words`.
#[derive(Clone, Debug, Drop)]
pub struct Parts {
    parts: Option<Box<Vec<Bytes>>>,
    alloc: Global,
}

impl Model for Parts {
    ghost use Rattle.std.specs.Prelude.{ℕ, List};
    ghost use Rattle.rpc_handlers.specs.Boxed.{items_of};

    ghost Value = { List (List ℕ) };

    ghost view = { λ l. items_of l.parts };
}

impl Parts {
    /// No text.
    pub fn new(alloc: Global) -> Parts
        ensures { result ≡ [] }
    {
        Parts { parts: None, alloc }
    }

    /// Adds a text at the end.
    pub fn push(&mut self, item: Bytes) -> Result<(), AllocError>
        ensures ok { OnOk result (self.new ≡ self.old ++ item ∷ []) }
        ensures err { OnErr result (self.new ≡ self.old) }
    {
        push_boxed(self.alloc, &mut self.parts, item)
    }

    /// The texts in order.
    pub fn as_slice(&self) -> &[Bytes]
        ensures { result.now ≡ self.now }
    {
        match &self.parts {
            Some(parts) => parts.as_slice(),
            None => &[],
        }
    }
}

/// Adds an element at the end of a list whose box is made with its first.
fn push_boxed<T: Drop>(
    alloc: Global,
    list: &mut Option<Box<Vec<T>>>,
    item: T,
) -> Result<(), AllocError>
    ensures ok { OnOk result (items_of list.new ≡ items_of list.old ++ item ∷ []) }
    ensures err { OnErr result (items_of list.new ≡ items_of list.old) }
{
    if let Some(items) = list {
        items.push(item)?;
        return Ok(());
    }
    let mut items = Vec::new(alloc);
    items.push(item)?;
    *list = Some(Box::new(alloc, items)?);
    Ok(())
}
