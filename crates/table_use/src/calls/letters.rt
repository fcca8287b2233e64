//! A handler that answers all events alike, and who makes it.
ghost use mathlib.Core.Bool.{false≢true};
ghost use Rattle.std.specs.Prelude.{◌≡◌, [], ◌∷◌, false, Some, None, IfOk, if◌then◌else◌};
ghost use Rattle.rpc_handlers.specs.declared.answer.Out.TheVariants.{Say};
ghost use Rattle.rpc_ids.specs.declared.status.Status.TheVariants.{Okay};

use bytes::Bytes;
use rpc_handlers::{Acts, Answer, End, Event, Handler, Maker, Memo, Out, Outs, Parts, Words};
use rpc_ids::{MethodRef, Status};
use std::alloc::{AllocError, Global};

/// Says its letter at each event, and ends its call with `OK` where it is one that ends.
#[derive(Drop)]
pub struct Letter {
    pub alloc: Global,
    pub letter: u8,
    pub ends: bool,
}

impl Acts for Letter {
    ghost can_act = { λ _. Unit {0} };

    ghost now = { λ x. record { words = []; parts = (x.letter ∷ []) ∷ [] } };

    ghost gives = { λ x _. record { items = Say (x.letter ∷ []) ∷ []; end = if x.ends then Some (record { status = Okay; payload = [] }) else None } };

    ghost moves = { λ x _. record { words = []; parts = (x.letter ∷ []) ∷ [] } };

    fn on(&mut self, ev: &Event) -> Result<Answer, AllocError> {
        let _ = ev;
        let mut items = Outs::new(self.alloc);
        let letter = Bytes::copy_from_slice(self.alloc, &[self.letter])?;
        items.push(Out::Say(letter))?;
        let end = if self.ends {
            Some(End {
                status: Status::Okay,
                payload: Bytes::new(),
            })
        } else {
            None
        };
        Ok(Answer { items, end })
    }

    fn memo(&self) -> Result<Memo, AllocError> {
        letter_memo(self.alloc, self.letter)
    }
}

fn letter_memo(alloc: Global, letter: u8) -> Result<Memo, AllocError>
    ensures { IfOk result (λ m. m ≡ record { words = []; parts = (letter ∷ []) ∷ [] }) }
{
    let mut parts = Parts::new(alloc);
    parts.push(Bytes::copy_from_slice(alloc, &[letter])?)?;
    Ok(Memo {
        words: Words::new(alloc),
        parts,
    })
}

impl Handler for Letter {
    ghost rule = { record { ruled = false; answer = λ _ _. record { items = []; end = None }; next = λ m _. m; first = λ seed _. seed } };

    ghost answers_by_rule = { λ ruled. absurd (false≢true ruled) };

    ghost moves_by_rule = { λ ruled. absurd (false≢true ruled) };
}

/// A handler of this letter, whose call goes on.
pub fn letter_of(alloc: Global, letter: u8) -> Letter {
    Letter {
        alloc,
        letter,
        ends: false,
    }
}

/// Makes handlers of one letter.
#[derive(Drop)]
pub struct Letters {
    pub alloc: Global,
    pub letter: u8,
    pub ends: bool,
}

impl Maker for Letters {
    type H = Letter;

    ghost seed_memo = { λ x. record { words = []; parts = (x.letter ∷ []) ∷ [] } };

    fn seed(&self) -> Result<Memo, AllocError> {
        letter_memo(self.alloc, self.letter)
    }

    fn make(&self, m: MethodRef) -> Result<Letter, AllocError> {
        let _ = m;
        Ok(Letter {
            alloc: self.alloc,
            letter: self.letter,
            ends: self.ends,
        })
    }
}
