//! The calls of a table, each in a record of a slab for as long as it can be used.
ghost use Rattle.std.specs.Prelude.{◌≡◌, [], true, Some};
ghost use Rattle.rpc_journal.specs.table.Agrees.{Agrees};

mod changing;
mod channels;
mod leaving;
mod opening;
mod questions;

use crate::call_place::CallPlace;
use crate::call_record::CallRecord;
use crate::live_names::LiveNames;
use crate::shown_state::ShownState;
use link_io::Why;
use slab::Slab;
use std::alloc::Global;
use std::marker::Model;

/// The calls of a table: a record in a slab for each that can still be used, a list that says where each is found or
/// what is left of it, and the live calls by their names. Contracts see the state and the handler of each call, also of
/// one that has left.
#[derive(Drop)]
pub struct CallRecords<H> {
    records: Slab<CallRecord<H>>,
    /// Where each call is found, at its number.
    places: Vec<CallPlace>,
    names: LiveNames,
    /// The state of each call, for clauses alone.
    shown: Vec<ShownState>,
    /// The channels that were closed.
    closed: Vec<u32>,
    /// How many items wait to be flushed.
    unflushed: u64,
    /// An `EndIn` is there.
    input_ended: bool,
    /// The reason of the `Halt`.
    halted: Option<Why>,
}

impl<H> Model for CallRecords<H> {
    ghost use Rattle.std.specs.Prelude.{map};
    ghost use Rattle.rpc_calls.specs.Numbers.{numbers_of};
    ghost use Rattle.rpc_calls.specs.Roll.{Roll, Stands, handler_in};

    ghost Value = { Roll H };

    ghost view = { λ t. record {
      states = record { calls = t.shown; newest = numbers_of t.shown.items; closed = t.closed; unflushed = t.unflushed; input_ended = t.input_ended; halted = t.halted };
      handlers = map (handler_in t.records) t.places.items;
      places = t.places.items;
    } };

    ghost invariant = { λ t. Stands t.records t.places.items t.shown.items t.names };
}

impl<H> CallRecords<H> {
    /// Without a call.
    pub fn new(alloc: Global) -> CallRecords<H>
        ensures calls { result.states.calls.items ≡ [] }
        ensures closed { result.states.closed.items ≡ [] }
        ensures handlers { result.handlers ≡ [] }
        ensures places { result.places ≡ [] }
        ensures agrees { Agrees [] result.states }
    {
        CallRecords {
            records: Slab::new(alloc),
            places: Vec::new(alloc),
            names: LiveNames::new(alloc),
            shown: Vec::new(alloc),
            closed: Vec::new(alloc),
            unflushed: 0,
            input_ended: false,
            halted: None,
        }
    }

    /// So many items wait to be flushed.
    pub fn set_unflushed(&mut self, items: u64)
        ensures { self.new ≡ record self.old { states = record self.old.states { unflushed = items } } }
    {
        self.unflushed = items;
    }

    /// The input has ended.
    pub fn end_input(&mut self)
        ensures { self.new ≡ record self.old { states = record self.old.states { input_ended = true } } }
    {
        self.input_ended = true;
    }

    /// The table is halted.
    pub fn halt(&mut self, why: Why)
        ensures { self.new ≡ record self.old { states = record self.old.states { halted = Some why } } }
    {
        self.halted = Some(why);
    }
}
