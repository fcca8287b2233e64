//! What a poll is given.
ghost use Rattle.std.specs.Prelude.{◌≡◌, Bool, true, false, [], ◌∷◌, ◌++◌, Some, None, OnOk, OnErr, IfNone, option_to_list};
ghost use Rattle.task_core.specs.Context.{all_outs, begun, earliest};

use crate::mail::Mail;
use rpc_handlers::Out;
use std::alloc::{AllocError, Global};
use std::collections::VecDeque;
use std::marker::Model;
use std::mem;

/// The context of a poll: the moment, the task's mail, and how the task says something and what it waits for.
#[derive(Drop)]
pub struct Cx {
    key: usize,
    moment: u64,
    mail: VecDeque<Mail>,
    // What all tasks said, and nobody has taken out yet.
    outs: VecDeque<(usize, Out)>,
    // Where that of this poll begins.
    said_from: usize,
    waits_mail: bool,
    alarm: Option<u64>,
}

impl Model for Cx {
    ghost use Rattle.std.specs.Prelude.{◌≤◌, length, take};
    ghost use Rattle.task_core.specs.Context.{Context, said_behind, AreOf};

    ghost Value = { Context };

    ghost view = { λ c. record {
      key = c.key;
      moment = c.moment;
      mail = c.mail.items;
      said = said_behind c.said_from c.outs.items;
      waits_mail = c.waits_mail;
      alarm = c.alarm;
      earlier = take c.said_from c.outs.items;
    } };

    ghost invariant = { λ c. (c.said_from ≤ length c.outs.items) × AreOf c.key c.said_from c.outs.items };
}

impl Cx {
    /// The moment, in milliseconds.
    pub fn now(&self) -> u64
        ensures { result ≡ self.now.moment }
    {
        self.moment
    }

    /// The next piece of the task's mail; `None` where none is left.
    pub fn mail(&mut self) -> Option<Mail>
        ensures mail { self.old.mail ≡ option_to_list result ++ self.new.mail }
        ensures rest { self.new ≡ record self.old { mail = self.new.mail } }
        ensures none { IfNone result (self.old.mail ≡ []) }
    {
        self.mail.pop_front()
    }

    /// The task waits for mail: it is polled again once it has some, also some that is left now.
    pub fn wait_mail(&mut self)
        ensures { self.new ≡ record self.old { waits_mail = true } }
    {
        self.waits_mail = true;
    }

    /// The task sleeps: it is polled again at this moment or later. Of several moments the earliest counts.
    pub fn sleep_until(&mut self, at: u64)
        ensures { self.new ≡ record self.old { alarm = earliest self.old.alarm at } }
    {
        self.alarm = match self.alarm {
            None => Some(at),
            Some(before) => Some(before.min(at)),
        };
    }

    /// The task says something: what tasks say is taken out of the dispatcher in this order.
    pub fn say(&mut self, out: Out) -> Result<(), AllocError>
        ensures ok { OnOk result (self.new ≡ record self.old { said = self.old.said ++ out ∷ [] }) }
        ensures err { OnErr result (self.new ≡ self.old) }
    {
        self.outs.push_back((self.key, out))?;
        Ok(())
    }

    /// At moment 0, with nothing said.
    pub(crate) fn new(alloc: Global) -> Cx
        ensures moment { result.moment ≡ 0 }
        ensures outs { all_outs result ≡ [] }
    {
        Cx {
            key: 0,
            moment: 0,
            mail: VecDeque::new(alloc),
            outs: VecDeque::new(alloc),
            said_from: 0,
            waits_mail: false,
            alarm: None,
        }
    }

    /// A poll of this task begins.
    pub(crate) fn begin(&mut self, key: usize)
        ensures { self.new ≡ begun key self.old }
    {
        self.key = key;
        self.said_from = self.outs.len();
        self.waits_mail = false;
        self.alarm = None;
    }

    /// The mail at hand changes places with that of a task.
    pub(crate) fn swap_mail(&mut self, mail: &mut VecDeque<Mail>)
        ensures at_hand { self.new ≡ record self.old { mail = mail.old.items } }
        ensures other { mail.new.items ≡ self.old.mail }
    {
        mem::swap(&mut self.mail, mail);
    }

    /// The time goes on to this moment.
    pub(crate) fn set_moment(&mut self, now: u64)
        ensures { self.new ≡ record self.old { moment = now } }
    {
        self.moment = now;
    }

    /// Whether the poll has asked to wait for mail.
    pub(crate) fn awaits_mail(&self) -> bool
        ensures { result ≡ self.now.waits_mail }
    {
        self.waits_mail
    }

    /// Until when the poll has asked to sleep.
    pub(crate) fn alarm(&self) -> Option<u64>
        ensures { result ≡ self.now.alarm }
    {
        self.alarm
    }

    /// Takes out the oldest item that a task said, with the task's key.
    pub(crate) fn take_out(&mut self) -> Option<(usize, Out)>
        ensures outs { all_outs self.old ≡ option_to_list result ++ all_outs self.new }
        ensures none { result ≡ None → all_outs self.new ≡ [] }
        ensures moment { self.new.moment ≡ self.old.moment }
    {
        self.said_from = self.said_from.saturating_sub(1);
        self.outs.pop_front()
    }
}
