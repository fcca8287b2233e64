//! Who makes the calls of the demo service, the log service and the transfer service.
ghost use Rattle.std.specs.Prelude.{◌≡◌, IfOk};
ghost use Rattle.transfer_resume.specs.Book.{new_book};
ghost use Rattle.demo_services.specs.DemoRule.{demo_call, plain_call, transfer_side};
ghost use Rattle.demo_services.specs.Transfer.{demo_seed};

use crate::call::DemoCall;
use crate::chat::Chat;
use crate::count::Count;
use crate::echo::Echo;
use crate::ids;
use crate::log::Log;
use crate::sum::Sum;
use crate::transfer::Transfer;
use link_io::Shelf;
use rpc_handlers::{Maker, Memo};
use rpc_ids::MethodRef;
use std::alloc::{AllocError, Global};
use transfer_chunk::Tuning;
use transfer_resume::Side;

/// Makes the calls of the services `demo.Demo`, `demo.Log` and `pw.transfer.Transfer`, for a server with the methods of
/// `demo_registry`.
///
/// Which call it makes is told by the two ids of the method alone. A method that is of none of them is served as
/// Echo; `demo_registry` has no such method.
#[derive(Debug, Drop)]
pub struct DemoMaker {
    alloc: Global,
    shelf: Shelf,
    tuning: Tuning,
}

impl DemoMaker {
    /// A maker whose transfers are of what the shelf has, and ask as `tuning` says. The only error is want of memory.
    pub fn new(alloc: Global, shelf: Shelf, tuning: Tuning) -> Result<DemoMaker, AllocError>
        ensures { IfOk result (λ maker. ⟦<DemoMaker as Maker>⟧.seed_memo maker ≡ demo_seed shelf tuning.window tuning.chunk) }
    {
        Ok(DemoMaker {
            alloc,
            shelf,
            tuning,
        })
    }

    fn transfer(&self, side: Side) -> Result<Transfer, AllocError>
        ensures { IfOk result (λ t. t ≡ new_book side self.now.shelf self.now.tuning.window self.now.tuning.chunk) }
    {
        Transfer::new(self.alloc, side, self.shelf.clone()?, self.tuning)
    }
}

impl Maker for DemoMaker {
    type H = DemoCall;

    ghost seed_memo = { λ maker. demo_seed maker.shelf maker.tuning.window maker.tuning.chunk };

    fn seed(&self) -> Result<Memo, AllocError> {
        self.transfer(Side::Read)?.memo()
    }

    fn make(&self, m: MethodRef) -> Result<DemoCall, AllocError> {
        match transfer_side(m) {
            Some(side) => Ok(DemoCall::Transfer(self.transfer(side)?)),
            None => plain_call(self.alloc, m),
        }
    }
}

// Which way a method of the transfer service moves resources.
#[tactic(auto, unfolding(rpc_ids::specs::Names::name_id))]
fn transfer_side(m: MethodRef) -> Option<Side>
    ensures { result ≡ transfer_side m }
{
    if m.service != ids::TRANSFER {
        return None;
    }
    match m.method {
        ids::READ => Some(Side::Read),
        ids::WRITE => Some(Side::Write),
        _ => None,
    }
}

// A call of the log service or of the demo service.
#[tactic(auto, unfolding(rpc_ids::specs::Names::name_id))]
fn plain_call(alloc: Global, m: MethodRef) -> Result<DemoCall, AllocError>
    ensures { IfOk result (λ call. call ≡ plain_call m) }
{
    if m.service == ids::LOG && m.method == ids::TEXT {
        return Ok(DemoCall::Log(Log::new(alloc)?));
    }
    Ok(demo_call(alloc, m))
}

#[tactic(auto, unfolding(rpc_ids::specs::Names::name_id))]
fn demo_call(alloc: Global, m: MethodRef) -> DemoCall
    ensures { result ≡ demo_call m }
{
    if m.service != ids::DEMO {
        return DemoCall::Echo(Echo::new(alloc));
    }
    match m.method {
        ids::COUNT => DemoCall::Count(Count::new(alloc)),
        ids::SUM => DemoCall::Sum(Sum::new(alloc)),
        ids::CHAT => DemoCall::Chat(Chat::new(alloc)),
        _ => DemoCall::Echo(Echo::new(alloc)),
    }
}
