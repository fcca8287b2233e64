ghost use Rattle.std.specs.Prelude.{◌≡◌, [], ◌∷◌, ◌++◌, OnOk, OnErr};

use std::alloc::{AllocError, Global};
use std::marker::Model;
use transfer_base::Piece;

/// The pieces that answer one ask, in the order in which they are to be sent.
#[derive(Debug, Drop)]
pub struct Pieces {
    list: Vec<Piece>,
}

impl Model for Pieces {
    ghost use Rattle.std.specs.Prelude.{List};
    ghost use Rattle.transfer_base.specs.declared.Piece.{Piece};

    ghost Value = { List Piece };

    ghost view = { λ p. p.list.items };
}

impl Pieces {
    /// No pieces. It takes no memory.
    pub fn new(alloc: Global) -> Pieces
        ensures { result ≡ [] }
    {
        Pieces {
            list: Vec::new(alloc),
        }
    }

    /// Adds a piece at the end. The only error is want of memory, and then nothing was added.
    pub fn push(&mut self, item: Piece) -> Result<(), AllocError>
        ensures ok { OnOk result (self.new ≡ self.old ++ item ∷ []) }
        ensures err { OnErr result (self.new ≡ self.old) }
    {
        self.list.push(item)?;
        Ok(())
    }

    /// The pieces, in the order in which they were added.
    pub fn as_slice(&self) -> &[Piece]
        ensures { result.now ≡ self.now }
    {
        self.list.as_slice()
    }
}
