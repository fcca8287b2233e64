//! The judge of a journal: whether it is lawful, and else its first fault.
ghost use Rattle.std.specs.Prelude.{◌≡◌, ◌+◌, ◌<◌, List, length, IfOk, IfSome, IsNone, OnOk, ◌↔◌, None};
ghost use Rattle.rpc_journal.specs.declared.setting.Setting.{Setting};
ghost use Rattle.rpc_journal.specs.Effect.{Deed};
ghost use Rattle.rpc_journal.specs.Faults.{IsAllowedNext, IsFirstFault, IsSettingOf};
ghost use Rattle.rpc_journal.specs.History.{deeds_with};
ghost use Rattle.rpc_journal.specs.Lawful.{IsLawful, broken};
ghost use Rattle.rpc_journal.specs.table.Agrees.{Agrees};

use crate::entry::{Entry, EntryKind};
use crate::fault::Fault;
use crate::journal::Journal;
use crate::judge::broken_rule;
use crate::table::{CallState, CallStates, move_at};
use rpc_channel::Channels;
use rpc_handlers::MAX_ANSWER_ITEMS;
use rpc_ids::{Registry, Role};
use std::alloc::{AllocError, Global};

/// How many items an answer can add: its own, and the packet of its end.
const MAX_ITEMS_GIVEN: u64 = MAX_ANSWER_ITEMS as u64 + 1;

/// How many items a cancel can add.
const MAX_ITEMS_OF_CANCEL: u64 = 2;

/// Judges a journal as the one of an endpoint of this role, with these channels and methods: `None` where it is
/// lawful, and else the first entry that isn't allowed after those before it, with the first rule that it breaks.
pub fn check(
    alloc: Global,
    journal: &Journal,
    role: Role,
    channels: &Channels,
    registry: &Registry,
) -> Result<Option<Fault>, AllocError>
    ensures lawful { IfOk result (λ found. (set : Setting) → IsSettingOf set role channels.now registry.now → IsNone found ↔ IsLawful set journal.now.entries) }
    ensures fault { IfOk result (λ found. IfSome found (λ fault. (set : Setting) → IsSettingOf set role channels.now registry.now → IsFirstFault set journal.now.entries fault)) }
{
    let mut states = CallStates::new(alloc);
    let count = journal.len();
    for at in 0..count {
        let entry = journal.get(at).unwrap();
        if let Some(rule) = broken_rule(&states, entry, role, channels, registry) {
            return Ok(Some(Fault { at, rule }));
        }
        follow(&mut states, alloc, at, entry, role, channels, registry)?;
    }
    Ok(None)
}

/// Lets a table that agrees with a history agree with it and one more entry, which an endpoint of this role with these
/// channels and methods allows. The entry is at this place.
pub fn follow(
    states: &mut CallStates,
    alloc: Global,
    at: u64,
    entry: &Entry,
    role: Role,
    channels: &Channels,
    registry: &Registry,
) -> Result<(), AllocError>
    requires { IsAllowedNext states.old entry.now role channels.now registry.now }
    ensures { OnOk result ((set : Setting) (ds : List Deed) → IsSettingOf set role channels.now registry.now → at ≡ length ds → broken set ds entry.now ≡ None → Agrees ds states.old → Agrees (deeds_with set ds entry.now) states.new) }
{
    match &entry.kind {
        EntryKind::Arrive(p) => {
            let arrival = move_at(role, states, p, channels, registry);
            states.arrive(alloc, at, p, arrival)
        }
        EntryKind::Invoke(p, _) => {
            states.room_for(1)?;
            match registry.find(p.name.service, p.name.method) {
                Some(method) => {
                    let state = CallState::invoked(alloc, p.name, method)?;
                    states.invoke(state)
                }
                // An entry that is allowed names a method that is known.
                None => Ok(()),
            }
        }
        EntryKind::Done(call) => {
            states.room_for(1)?;
            states.done(*call);
            Ok(())
        }
        EntryKind::Say(call, _) => {
            states.room_for(1)?;
            states.say(*call);
            Ok(())
        }
        EntryKind::Start(call) => {
            let _ = states.start(entry.seat, *call);
            Ok(())
        }
        EntryKind::Finish(call, a) => {
            states.room_for(MAX_ITEMS_GIVEN)?;
            states.finish(role, *call, a);
            Ok(())
        }
        EntryKind::Cancel(call) => {
            states.room_for(MAX_ITEMS_OF_CANCEL)?;
            states.cancel(*call);
            Ok(())
        }
        EntryKind::Tick(now) => {
            states.make_room_for_all()?;
            states.tick(at, *now);
            Ok(())
        }
        EntryKind::EndIn => {
            states.make_room_for_all()?;
            states.end_in(at);
            Ok(())
        }
        EntryKind::Flush => {
            states.flush();
            Ok(())
        }
        EntryKind::Halt(why) => {
            states.halt(*why);
            Ok(())
        }
        EntryKind::Close(channel) => {
            states.make_room_to_close(*channel)?;
            states.close_channel(at, *channel);
            Ok(())
        }
        EntryKind::Replace(_, _) => Ok(()),
    }
}
