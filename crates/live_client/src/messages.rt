//! What a client says in its call.
ghost use Rattle.std.specs.Prelude.{◌≡◌, [], ◌∷◌, ◌++◌, IfOk, OnErr, OnOk};
ghost use Rattle.live_client.specs.Ask.{utterances_asked};

use crate::asks::Utterance;
use bytes::Bytes;
use rpc_handlers::Out;
use rpc_ids::{Kind, Role};
use rpc_journal::streams_out;
use std::alloc::{AllocError, Global};
use std::collections::VecDeque;
use std::marker::Model;

/// The messages that a client streams in its call, in order.
#[derive(Debug, Drop)]
pub struct Messages {
    list: Vec<Bytes>,
}

impl Model for Messages {
    ghost use Rattle.std.specs.Prelude.{ℕ, List};

    ghost Value = { List (List ℕ) };

    ghost view = { λ m. m.list.items };
}

impl Messages {
    /// None yet.
    pub fn new(alloc: Global) -> Messages
        ensures { result ≡ [] }
    {
        Messages {
            list: Vec::new(alloc),
        }
    }

    /// One more, behind the others.
    pub fn push(&mut self, message: Bytes) -> Result<(), AllocError>
        ensures ok { OnOk result (self.new ≡ self.old ++ message ∷ []) }
        ensures err { OnErr result (self.new ≡ self.old) }
    {
        self.list.push(message)?;
        Ok(())
    }

    /// What a call of this kind says that has these messages.
    pub(crate) fn utterances(
        self,
        alloc: Global,
        kind: Kind,
    ) -> Result<VecDeque<Utterance>, AllocError>
        ensures { IfOk result (λ says. says.items ≡ utterances_asked kind self) }
    {
        let mut says = VecDeque::new(alloc);
        if !streams_out(Role::Client, kind) {
            return Ok(says);
        }
        for message in self.list {
            says.push_back(Utterance::Says(Out::Say(message)))?;
        }
        says.push_back(Utterance::Completes)?;
        Ok(says)
    }
}
