//! Passes: who may drive which process.

ghost use Rattle.std.specs.Prelude.{◌≡◌, []};
ghost use Rattle.ds_crew.specs.Kept.{HasUsed};
ghost use Rattle.ds_core.specs.declared.event.Event.TheVariants.{Step};
ghost use Rattle.ds_crew.specs.LockedCalls.{step_reply};
ghost use Rattle.ds_crew.specs.Passes.{HaveHappened, asked};
ghost use Rattle.ds_crew.specs.Trails.{and_event};

use crate::steps::reply_to;
use ds_core::ends::CallEnd;
use ds_core::event::Event;
use ds_core::reply::Reply;
use ds_eval::value::Value;
use ds_state::turn::Turn;
use http_server::Log;
use std::marker::Model;
use std::sync::ledger::{Ledger, Share};

/// All that was asked of the sheet by a pass, for proofs alone: each event, with its reply, in order. It takes no memory.
/// Each event under the lock goes on a trail; only a pass has one, and nothing takes from it.
#[derive(Drop)]
pub(crate) struct Trail {
    events: Log<Event, Reply>,
}

impl Model for Trail {
    ghost use Rattle.std.specs.Prelude.{List};
    ghost use Rattle.std.specs.Coded.{codes};
    ghost use Rattle.ds_eval.specs.Code.{plain_code};
    ghost use Rattle.ds_core.specs.declared.event.Event.{Event};
    ghost use Rattle.ds_core.specs.declared.reply.Reply.{Reply};

    ghost Value = { List (Event × Reply) };

    ghost coded = { Prim.hlevel (codes, plain_code) };

    ghost view = { λ t. t.events.items };
}

impl Trail {
    // This event was asked of the sheet, and had this reply.
    pub(crate) fn note(&mut self, event: &Event, reply: &Reply)
        ensures { self.new ≡ and_event self.old event.now reply.now }
    {
        self.events = self.events.and(event, reply);
    }

    // A step of the process was asked for, and did this to its call.
    pub(crate) fn note_step<E: CallEnd>(&mut self, process: usize, turn: Option<Turn<E>>)
        ensures { self.new ≡ and_event self.old (Step process) (step_reply E.kind turn) }
    {
        self.note(&Event::Step(process), &reply_to(turn));
    }
}

/// The right to drive one process of a locked sheet, with its shares of both counts, the values of its
/// last settled show, and two lists, for proofs alone: of the calls that it was used for, of each the event
/// that began it, and its last reply; and of all events that were asked of the sheet by it. They take no memory, and
/// only this crate adds to them.
#[derive(Drop)]
pub struct Pass<L: Ledger, M: Ledger> {
    pub(crate) process: usize,
    pub(crate) last: Vec<Value>,
    pub(crate) dones: Share<L>,
    pub(crate) settleds: Share<M>,
    pub(crate) calls: Log<Event, Reply>,
    pub(crate) trail: Trail,
}

impl<L: Ledger, M: Ledger> Model for Pass<L, M> {
    ghost use Rattle.std.specs.Prelude.{◌≡◌};
    ghost use Rattle.std.specs.Coded.{codes};
    ghost use Rattle.ds_eval.specs.Code.{plain_code};
    ghost use Rattle.ds_crew.specs.Passes.{HaveHappened, PlainPass};

    ghost Value = { PlainPass };

    ghost coded = { Prim.hlevel (codes, plain_code) };

    ghost view = { λ p. record { process = p.process; last = p.last.items; dones = p.dones.amount; settleds = p.settleds.amount; calls = p.calls.items; trail = p.trail } };

    ghost invariant = { λ p. (p.dones.parts ≡ 1) × (p.settleds.parts ≡ 1) × HaveHappened p.process p.calls.items };
}

// A pass of one part of both counts, with no calls yet.
pub(crate) fn pass_of<L: Ledger, M: Ledger>(
    process: usize,
    last: Vec<Value>,
    dones: Share<L>,
    settleds: Share<M>,
) -> Pass<L, M>
    requires { (dones.parts ≡ 1) × (settleds.parts ≡ 1) }
    ensures { result ≡ record { process = process; last = last.items; dones = dones.amount; settleds = settleds.amount; calls = []; trail = [] } }
{
    Pass {
        process,
        last,
        dones,
        settleds,
        calls: Log::new(),
        trail: Trail { events: Log::new() },
    }
}

impl<L: Ledger, M: Ledger> Pass<L, M> {
    /// The process.
    pub fn process(&self) -> usize
        ensures { result ≡ self.now.process }
    {
        self.process
    }

    /// Each call that the pass remembers was one of its process, that began and ended so.
    pub fn has_used(&self)
        ensures { HaveHappened self.now.process self.now.calls }
    {
        let _calls = &self.calls;
    }

    // The pass was used for one call more, which this event began, and which had this as its last reply.
    pub(crate) fn remember(&mut self, begin: &Event, reply: &Reply)
        requires { HasUsed self.old.process begin.now reply.now }
        ensures { self.new ≡ asked self.old begin.now reply.now }
    {
        self.calls = self.calls.and(begin, reply);
    }

    /// The values of the process's last settled show, row by row from the left; none where it has
    /// had none.
    pub fn last(&self) -> &[Value]
        ensures { result.now ≡ self.now.last }
    {
        self.last.as_slice()
    }
}
