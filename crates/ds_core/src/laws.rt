//! What is true of each run, as functions that do nothing. `run` gives the run that they speak of.

ghost use Rattle.std.specs.Prelude.{◌≡◌, ◌≢◌, ◌<◌, ◌≤◌, ◌+◌, ◌*◌, ◌/◌, ℕ, List, length, Contains, true, false};
ghost use Rattle.ds_state.specs.Edits.{PlainEditCall};
ghost use Rattle.ds_state.specs.World.{PlainEdit, PlainWorld};
ghost use Rattle.ds_state.specs.Fresh.{IsNew};
ghost use Rattle.ds_state.specs.Value.{WorldValue, world_of, IsGood};
ghost use Rattle.ds_state.specs.Sound.{IsSound};
ghost use Rattle.ds_state.specs.declared.stage.Stage.TheVariants.{StoreHeader};
ghost use Rattle.ds_state.specs.declared.situation.Situation.TheVariants.{Editing, Working, Recovering, Showing, Migrating};
ghost use Rattle.ds_core.specs.declared.event.Event.{Event};
ghost use Rattle.ds_core.specs.declared.event.Event.TheVariants.{Step, BeginShow};
ghost use Rattle.ds_state.specs.declared.answer.Other.{Other};
ghost use Rattle.ds_state.specs.declared.recovery.LastEdit.{LastEdit};
ghost use Rattle.ds_state.specs.declared.answer.Answer.{Answer};
ghost use Rattle.ds_state.specs.declared.answer.Answer.TheVariants.{Edit, Work, Recovery, Show};
ghost use Rattle.ds_state.specs.declared.answer.EditEnd.TheVariants.{Done, Overtaken};
ghost use Rattle.ds_state.specs.declared.recovery.RecoveryEnd.{RecoveryEnd};
ghost use Rattle.ds_state.specs.declared.recovery.RecoveryEnd.TheVariants.{Last, Nothing};
ghost use Rattle.ds_state.specs.declared.show.ShowEnd.TheVariants.{Settled};
ghost use Rattle.ds_state.specs.declared.work.WorkEnd.{WorkEnd};
ghost use Rattle.ds_core.specs.declared.reply.Reply.TheVariants.{Answered, Entered};
ghost use Rattle.ds_core.specs.declared.reply.Reply.{Reply};
ghost use Rattle.ds_core.specs.Takes.{Takes, WorldRun};
ghost use Rattle.ds_core.specs.Moments.{Open, Closed, Ledger};
ghost use Rattle.ds_core.specs.LedgerSteps.{Forgets, Resolves};
ghost use Rattle.ds_core.specs.Headline.{Happens, RunFits, Headline, HasHeadline, IsAcknowledged, IsToldDone, HasCause, IsForgotten};
ghost use Rattle.ds_core.specs.Own.{own_steps, steps_left, AreUnanswered, AreUnhalted, IsInCall, WorkGoesOn};
ghost use Rattle.ds_core.specs.Kinds.{AnswersTo};
ghost use Rattle.ds_state.specs.Spent.{IsSpent};
ghost use Rattle.ds_core.specs.SpentNumbers.{IsOut};
ghost use Rattle.ds_core.specs.BitFirst.{HasNoBit, TakesOver, IsRecoveryOf, FindsNeither};
ghost use Rattle.ds_core.specs.Solo.{IsSolo, AreDoneOnly, IsLone, IsLoneAnswer, AreLoneReplies};
ghost use Rattle.ds_state.specs.Works.{PlainWorkCall, PlainShowCall, PlainRecoverCall, PlainMigrateCall};
ghost use Rattle.ds_state.specs.declared.work.WorkStage.TheVariants.{LoadMark};
ghost use Rattle.ds_layout.specs.Bits.{parts_for};
ghost use Rattle.ds_layout.specs.declared.head.Head.{Head};
ghost use Rattle.ds_layout.specs.Places.{cells_of};
ghost use Rattle.ds_state.specs.Shown.{IsQuiet};
ghost use Rattle.ds_work.specs.WorkAlone.{IsMarkedAt};

/// An edit that is answered Overtaken is not linearized then and never will be: its number is spent, and
/// stays so.
pub fn overtaken_edits_stay_out()
    ensures { (old mid new : WorldValue) (events : List Event) (replies : List Reply)
        (p number : ℕ) (other : Other) → IsSound (world_of old)
        → Takes old (Step p) (Answered (Edit (Overtaken number other))) mid
        → WorldRun mid events replies new
        → IsSpent (world_of new) p number × IsOut (world_of new) p number }
{}

/// From its beginning until it is answered, an edit with r references makes fewer than 3r + 112 steps
/// of its own, and one more that answers, whatever the other processes do between them.
#[tactic(auto, using(crate::proofs::CallSteps::edit_few))]
pub fn own_steps_are_few()
    ensures { (old : WorldValue) (events : List Event) (replies : List Reply) (new : WorldValue)
        (p : ℕ) (e : PlainEditCall) → IsSound (world_of old) → p < old.sheet.layout.processes
        → (world_of old).situation p ≡ Editing e → WorldRun old events replies new
        → AreUnanswered p events replies
        → own_steps p events replies < 112 + 3 * length e.refs }
{}

/// From its beginning until it is answered, work on a sheet of N cells whose content has r references
/// makes fewer than 2r + 3N + 67 steps of its own, and one more that answers, whatever the other
/// processes do between them; 67 stands for the parts of an index row, at most 16, and 51.
#[tactic(auto, using(crate::proofs::WorkOwnSteps::works_go_on))]
pub fn work_own_steps_are_few()
    ensures { (old : WorldValue) (events : List Event) (replies : List Reply) (new : WorldValue)
        (p : ℕ) (e : PlainWorkCall) → IsSound (world_of old)
        → (world_of old).situation p ≡ Working e → e.stage ≡ LoadMark → WorldRun old events replies new
        → AreUnanswered p events replies → WorkGoesOn p e (own_steps p events replies) new }
{}

/// A call that is not answered has made fewer steps of its own than it had left, whatever the other
/// processes do between them; a show has at most 2P + 4N + 1 left, a recovery N(3N + 30) + 23, a
/// migration 15,360P + 5, on a sheet of N cells for P processes.
#[tactic(auto, using(crate::proofs::CallSteps::short, crate::proofs::CallSteps::show_left, crate::proofs::CallSteps::recovery_left, crate::proofs::CallSteps::migration_left))]
pub fn calls_are_short()
    ensures fewer { (old : WorldValue) (events : List Event) (replies : List Reply) (new : WorldValue)
        (p : ℕ) → IsSound (world_of old) → p < old.sheet.layout.processes
        → IsInCall ((world_of old).situation p) → WorldRun old events replies new
        → AreUnanswered p events replies → own_steps p events replies < steps_left p old }
    ensures report { (v : WorldValue) (p : ℕ) (e : PlainShowCall) → (world_of v).situation p ≡ Showing e
        → steps_left p v ≤ 2 * e.processes + 4 * e.cells + 1 }
    ensures recovery { (v : WorldValue) (p : ℕ) (e : PlainRecoverCall) → IsSound (world_of v)
        → p < v.sheet.layout.processes → (world_of v).situation p ≡ Recovering e
        → steps_left p v ≤ e.cells * (3 * e.cells + 30) + 23 }
    ensures migration { (v : WorldValue) (p : ℕ) (e : PlainMigrateCall) → IsSound (world_of v)
        → p < v.sheet.layout.processes → (world_of v).situation p ≡ Migrating e
        → steps_left p v ≤ 15360 * e.processes + 5 }
{}

/// Calls are wait-free (Herlihy, "Wait-Free Synchronization", TOPLAS 1991): one that makes as many
/// steps of its own as it has left is answered, and by an answer of its kind of call, whatever the
/// other processes do between them, but where its process is stopped or a crash comes. Work makes no step while it waits for the entry of
/// its task.
#[tactic(auto, using(crate::proofs::CallSteps::wait_free))]
pub fn calls_are_answered()
    ensures { (old : WorldValue) (events : List Event) (replies : List Reply) (new : WorldValue)
        (p : ℕ) → IsSound (world_of old) → p < old.sheet.layout.processes
        → IsInCall ((world_of old).situation p) → WorldRun old events replies new
        → AreUnhalted p events → steps_left p old ≤ own_steps p events replies
        → (k : ℕ) × (answer : Answer) × Happens events replies k (Step p) (Answered answer)
        × AnswersTo ((world_of old).situation p) answer }
{}

/// An edit that is alone from its beginning on, but for evictions, is done.
#[tactic(auto, using(crate::proofs::Solo::solo_done))]
pub fn solo_edits_are_done()
    ensures { (old : WorldValue) (events : List Event) (replies : List Reply) (new : WorldValue)
        (p : ℕ) (e : PlainEditCall) → IsSound (world_of old)
        → (world_of old).situation p ≡ Editing e → e.stage ≡ StoreHeader
        → WorldRun old events replies new → IsSolo p events → AreDoneOnly e.number replies }
{}

/// The headline, for every list of events, those that can happen and those that cannot: a ledger
/// exists at each moment of the run, which each event moves as it may, with one list of the linearized
/// edits. At each moment no edit stands in it twice, each cell's words have the text of its last
/// edit there, and where no edit is open and no cell is dirty or held they show the values of its
/// sheet from scratch. A recovery's answer closes the edit in doubt as done just where it stands in
/// the list. An edit, once closed, stays in the list or stays out, through stops and crashes, and
/// stands before each edit that is begun later. Each show that is answered fits a moment of its
/// call, and so does each work's answer. No edit that a recovery's answer forgets was ever announced
/// on a persisted side. Detectable execution (Friedman, Herlihy, Marathe, Petrank, PPoPP 2018).
pub fn runs_have_the_headline()
    ensures { (old : WorldValue) (events : List Event) (replies : List Reply) (new : WorldValue)
        → IsNew (world_of old) → IsGood old → (run : WorldRun old events replies new)
        → HasHeadline old events replies new run }
{}

/// A run that fits has the headline: an edit, once closed, stays in the list of the linearized ones or
/// stays out, through stops and crashes, and stands before each edit that is begun later.
#[tactic(auto, using(crate::proofs::Closing::headline))]
pub fn fitting_runs_have_the_headline()
    ensures { (old : WorldValue) (events : List Event) (replies : List Reply) (new : WorldValue)
        → RunFits old events replies new → Headline old events replies new }
{}

/// An edit that was answered Done stands in the last list exactly once, with the cell and the text
/// of its request.
#[tactic(auto, using(crate::proofs::Acknowledged::acknowledged_once))]
pub fn acknowledged_edits_stand_once()
    ensures { (old : WorldValue) (events : List Event) (replies : List Reply) (new : WorldValue)
        (k p number : ℕ) → Headline old events replies new
        → Happens events replies k (Step p) (Answered (Edit (Done number)))
        → IsAcknowledged old events replies k p number new.counted }
{}

/// An edit that a recovery reports as done stands in the last list exactly once, with the cell and the
/// text of its request, and the cell that is reported is that one.
#[tactic(auto, using(crate::proofs::Acknowledged::resolved_once))]
pub fn edits_reported_done_stand_once()
    ensures { (old : WorldValue) (events : List Event) (replies : List Reply) (new : WorldValue)
        (k p : ℕ) (told : LastEdit) → Headline old events replies new
        → Happens events replies k (Step p) (Answered (Recovery (Last told))) → told.counts ≡ true
        → IsToldDone old events replies k p told new.counted }
{}

/// An edit that a recovery reports as not done is not linearized then and never will be: its number is
/// spent, and stays so.
pub fn edits_reported_not_done_stay_out()
    ensures { (old mid new : WorldValue) (events : List Event) (replies : List Reply)
        (p : ℕ) (told : LastEdit) → IsSound (world_of old)
        → Takes old (Step p) (Answered (Recovery (Last told))) mid → told.counts ≡ false
        → WorldRun mid events replies new
        → IsSpent (world_of new) p told.number × IsOut (world_of new) p told.number }
{}

/// What a recovery's answer forgets is an edit that its process was asked for at an earlier place. At
/// no moment of the run up to that answer, or after it, did the persisted side of the process's
/// announcement have its number, in any phase, or a later one, so that no crash could leave word of
/// it; nor does the cached side at that answer. Its number is given to the next edit that the process
/// begins.
pub fn forgotten_edits_were_never_announced()
    ensures { (old : WorldValue) (events : List Event) (replies : List Reply) (new : WorldValue)
        (h : Headline old events replies new) (k p : ℕ) (end : RecoveryEnd)
        → Happens events replies k (Step p) (Answered (Recovery end))
        → (f : Forgets (h.run.moment k).ledger p end (h.run.moment (k + 1)).ledger)
        → IsForgotten h.run.moment events replies k p f.open_edit.it }
{}

/// A work's answer is of the cell of the process's last begin of work, and reports a moment of that
/// call. NotDirty: the cell was clean then. Missed: another process held it then, or its mark was
/// another one than at an earlier moment of the call, at which the cell was marked. Worn: it was
/// marked then, with a generation above 2^58. Published: this process held it then, and at the next
/// moment it was clean. Again, NoMemory: this process held it then, and at the next moment it was
/// marked.
pub fn work_answers_have_causes()
    ensures { (old : WorldValue) (events : List Event) (replies : List Reply) (new : WorldValue)
        (h : Headline old events replies new) (k p : ℕ) (end : WorkEnd)
        → Happens events replies k (Step p) (Answered (Work end))
        → HasCause h.run.moment events replies k p end }
{}

/// A recovery that answered Nothing always would not move the ledger as it may: not where the open
/// edit of its process is linearized, as in a script `begin 0 set A1 5`, `run 0 to swung`, `stop 0`,
/// `recover 0`; and not where an edit of the process was closed before, as in `set 0 A1 5`,
/// `recover 0`.
#[tactic(auto, using(crate::proofs::Refused::nothing_of_counted, crate::proofs::Refused::nothing_of_closed))]
pub fn nothing_is_no_answer()
    ensures counted { (old new : Ledger) (p : ℕ) (o : Open) → old.opens p ≡ Some o
        → Contains old.counted o.it → Resolves old p Nothing new → ⊥ }
    ensures closed { (old new : Ledger) (p : ℕ) (c : Closed) → old.told p ≡ Some c
        → Resolves old p Nothing new → ⊥ }
{}

/// A recovery that looked at the done bit of its edit before the head could report a linearized edit
/// as not done. Between the two loads an edit of another process may take over, by four lawful steps:
/// before them the bit is not set, after them the head is another one, and the edit is linearized all the
/// while. After `begin 0 set A1 5`, `run 0 to swung`, `stop 0`, `begin 1 set A1 7`,
/// `run 1 to indexed` and three times `step 1` the bit of the first edit is not set; after
/// `run 1 to swung` the head is the second one's, and `recover 0` says done.
pub fn bits_read_before_heads_decide_nothing()
    ensures { (e : PlainEditCall) (head : Head) (f : PlainEdit) (r : PlainRecoverCall)
        (first last : PlainWorld) → IsSound first → IsRecoveryOf r f → e.process ≢ f.process
        → e.cell ≡ f.cell → Contains first.counted f → HasNoBit first f
        → TakesOver e head first last → FindsNeither r f first last }
{}

/// An edit that is alone from its beginning on, but for evictions, and makes as many steps as an edit
/// can need, is answered, and the answer is Done.
#[tactic(auto, using(crate::proofs::Alone::solo_answered))]
pub fn solo_edits_are_answered()
    ensures { (old : WorldValue) (events : List Event) (replies : List Reply) (new : WorldValue)
        (p : ℕ) (e : PlainEditCall) → IsSound (world_of old) → p < old.sheet.layout.processes
        → (world_of old).situation p ≡ Editing e → e.stage ≡ StoreHeader
        → WorldRun old events replies new → IsSolo p events
        → 112 + 3 * length e.refs ≤ own_steps p events replies
        → (k : ℕ) × Happens events replies k (Step p) (Answered (Edit (Done e.number))) }
{}

/// A show that begins in a quiescent world, and is alone from its beginning on but for evictions, is
/// answered within 2P + 4N + 1 steps of its own on a sheet of N cells for P processes, and the answer
/// is Settled.
pub fn solo_shows_are_answered()
    ensures { (old mid new : WorldValue) (events : List Event) (replies : List Reply)
        (p : ℕ) → IsSound (world_of old) → IsQuiet (world_of old)
        → Takes old (BeginShow p) Entered mid → WorldRun mid events replies new → IsSolo p events
        → 2 * old.sheet.layout.processes + 4 * cells_of old.sheet.layout + 1 ≤ own_steps p events replies
        → (k : ℕ) × Happens events replies k (Step p) (Answered (Show Settled)) }
{}

/// Work on a marked cell whose mark has generations left, which is alone from its beginning on, but
/// for evictions and offers to it. It is answered Published, and its cell is clean then and at the
/// end: where its answer says that the value changed, the cell shows another value or kind than
/// before, and its bit does not stand in its own index row; else it shows what it did. Or it is
/// answered Again: the cell shows another value or kind, and its bit stands in its own index row,
/// since its text refers to it, or did. Or it is answered NoMemory, and the cell shows what it did.
#[tactic(auto, using(crate::proofs::LoneWork::lone_publishes))]
pub fn lone_works_publish()
    ensures { (old : WorldValue) (events : List Event) (replies : List Reply) (new : WorldValue)
        (p : ℕ) (e : PlainWorkCall) → IsSound (world_of old) → p < old.sheet.layout.processes
        → (world_of old).situation p ≡ Working e → e.stage ≡ LoadMark → IsMarkedAt (world_of old) e
        → WorldRun old events replies new → IsLone p events
        → AreLoneReplies (world_of old) (world_of new) e.cell replies }
{}

/// Work on a marked cell that is alone from its beginning on, and makes as many steps as work on a
/// sheet of N cells can need, 5N and one for each part of an index row and 51, is answered; and the
/// answer is one of `lone_works_publish`.
#[tactic(auto, using(crate::proofs::Alone::lone_answered))]
pub fn lone_works_are_answered()
    ensures { (old : WorldValue) (events : List Event) (replies : List Reply) (new : WorldValue)
        (p : ℕ) (e : PlainWorkCall) → IsSound (world_of old) → p < old.sheet.layout.processes
        → (world_of old).situation p ≡ Working e → e.stage ≡ LoadMark → IsMarkedAt (world_of old) e
        → WorldRun old events replies new → IsLone p events
        → 5 * e.cells + parts_for e.cells + 51 ≤ own_steps p events replies
        → (k : ℕ) × (answer : Answer) × Happens events replies k (Step p) (Answered answer)
        × IsLoneAnswer (world_of old) (world_of new) e.cell answer }
{}
