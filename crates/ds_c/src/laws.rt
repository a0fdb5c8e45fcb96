//! What is true of the calls of the library, as functions that do nothing.

ghost use Rattle.std.specs.Prelude.{ℕ, List};
ghost use Rattle.ds_layout.specs.declared.place.Edition.{Edition};
ghost use Rattle.ds_state.specs.Value.{WorldValue};
ghost use Rattle.ds_core.specs.declared.event.Event.{Event};
ghost use Rattle.ds_core.specs.declared.reply.Reply.{Reply};
ghost use Rattle.ds_core.specs.Takes.{WorldRun};
ghost use Rattle.ds_core.specs.Headline.{HasHeadline};
ghost use Rattle.ds_core.specs.declared.event.Event.TheVariants.{BeginMigrate, Offer, Evict, Crash};
ghost use Rattle.ds_core.specs.declared.reply.Reply.TheVariants.{Evicted, Crashed};
ghost use Rattle.ds_state.specs.declared.answer.Answer.TheVariants.{Edit, Work, Show, Recovery, Migration};
ghost use Rattle.ds_calls.specs.Traces.{Trace, Leads, both, call_trace, settle_trace};
ghost use Rattle.ds_calls.specs.declared.settle.SettleStage.TheVariants.{Ends};
ghost use Rattle.ds_recalculation.specs.Recalculations.{trace_of};
ghost use Rattle.ds_c.specs.declared.answer.AnswerRow.{AnswerRow};
ghost use Rattle.ds_c.specs.declared.rows.PlaceRow.{PlaceRow};
ghost use Rattle.ds_c.specs.Making.{IsMade};
ghost use Rattle.ds_c.specs.Events.{evaluated, one_event, Replies, Ended, Migrates, Settles, Recalculates, Offers, Evicts, Crashes};

/// What each call of the library does to a world is a run of `ds_core::take`: of just the events and replies that the call
/// consists of, whose last one is what its row reports. So what is proved of runs from a new sheet is true of every
/// program that makes a world and calls on it, in whatever order.
pub fn calls_are_runs()
    ensures events { (event : Event) (old : WorldValue) (row : AnswerRow) (new : WorldValue) (h : Replies event old row new)
        → Leads old (one_event event h.reply) new }
    ensures offers { (p : ℕ) (old : WorldValue) (row : AnswerRow) (new : WorldValue) (h : Offers p old row new)
        → Leads old (one_event (Offer (evaluated h.task)) h.replies.reply) new }
    ensures evictions { (named : PlaceRow) (old : WorldValue) (nothing : Unit {0}) (new : WorldValue) (h : Evicts named old nothing new)
        → Leads old (one_event (Evict h.place) Evicted) new }
    ensures crashes { (old : WorldValue) (nothing : Unit {0}) (new : WorldValue) → Crashes old nothing new
        → Leads old (one_event Crash Crashed) new }
    ensures edits { (p : ℕ) (event : Event) (old : WorldValue) (row : AnswerRow) (new : WorldValue) (h : Ended Edit p event old row new)
        → Leads old (call_trace Edit p event old h.came_to new h.whole.whole) new }
    ensures works { (p : ℕ) (event : Event) (old : WorldValue) (row : AnswerRow) (new : WorldValue) (h : Ended Work p event old row new)
        → Leads old (call_trace Work p event old h.came_to new h.whole.whole) new }
    ensures reports { (p : ℕ) (event : Event) (old : WorldValue) (row : AnswerRow) (new : WorldValue) (h : Ended Show p event old row new)
        → Leads old (call_trace Show p event old h.came_to new h.whole.whole) new }
    ensures recoveries { (p : ℕ) (event : Event) (old : WorldValue) (row : AnswerRow) (new : WorldValue) (h : Ended Recovery p event old row new)
        → Leads old (call_trace Recovery p event old h.came_to new h.whole.whole) new }
    ensures migrations { (p : ℕ) (old : WorldValue) (row : AnswerRow) (new : WorldValue) (h : Migrates p old row new)
        → Leads old (call_trace Migration p (BeginMigrate p) old h.came_to new h.whole.whole) new }
    ensures settles { (p : ℕ) (old : WorldValue) (row : AnswerRow) (new : WorldValue) (h : Settles p old row new)
        → Leads old (settle_trace p old (Ends h.end) new h.settles) new }
    ensures recalculations { (p : ℕ) (old : WorldValue) (row : AnswerRow) (new : WorldValue) (h : Recalculates p old row new)
        → Leads old (trace_of p old h.end new h.recalculates) new }
{}

/// Two runs, one after the other, are a run: of the events of the first, then those of the second.
pub fn runs_go_on()
    ensures { (old : WorldValue) (mid : WorldValue) (new : WorldValue) (first : Trace) (next : Trace)
        → Leads old first mid → Leads mid next new → Leads old (both first next) new }
{}

/// A world that `ds_c_world_make` or `ds_c_world_make_first` has made is one from which every run has the headline.
pub fn made_worlds_have_the_headline()
    ensures { (columns : ℕ) (rows : ℕ) (processes : ℕ) (edition : Edition) (old : WorldValue) (events : List Event) (replies : List Reply)
        (new : WorldValue) → IsMade columns rows processes edition old → (run : WorldRun old events replies new)
        → HasHeadline old events replies new run }
{
    ds_core::laws::runs_have_the_headline();
}
