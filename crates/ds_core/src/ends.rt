//! The kinds of calls: how a process steps in a call of each kind, and how such calls end.

ghost use Rattle.std.specs.Prelude.{◌≡◌, ◌<◌};
ghost use Rattle.ds_core.specs.Ends.{IsOnlyIn, StepsAs, all, all_of};

use ds_state::answer::{Answer, EditEnd};
use ds_state::migration::MigrateEnd;
use ds_state::recovery::RecoveryEnd;
use ds_state::show::ShowEnd;
use ds_state::situation::Situation;
use ds_state::turn::Turn;
use ds_state::work::WorkEnd;
use ds_state::world::World;
use std::alloc::Global;

/// How calls of one kind end: those of edits, of works, of shows, of recoveries, of migrations; and those of any kind,
/// which are answers.
pub trait CallEnd: Copy {
    ghost use Rattle.ds_core.specs.Ends.{Kind, StepsAs};

    /// The answer of each end, and which answers are of such calls.
    ghost kind: { Kind Self };

    /// The answer of a call that ended so.
    fn answer(self) -> Answer
        ensures { result ≡ kind.answer self };

    /// A process makes the next step of its call, and what that did to it. Where it is in no call of this kind, or in
    /// work that waits for an entry, or the sheet has no such process, the step cannot happen and nothing changes. Only
    /// the step of work that reads a content takes memory.
    fn step(alloc: Global, world: &mut World, process: usize) -> Option<Turn<Self>>
        ensures { StepsAs kind world.old process result world.new };
}

impl CallEnd for EditEnd {
    ghost use Rattle.ds_core.specs.Ends.{edits};

    ghost kind = { edits };

    fn answer(self) -> Answer {
        Answer::Edit(self)
    }

    #[tactic(auto, using(crate::proofs::Stepping::of_edit))]
    fn step(alloc: Global, world: &mut World, process: usize) -> Option<Turn<EditEnd>> {
        // The body does not use it: the signature or a clause names it.
        let _alloc = alloc;
        ds_edit::step::step(world, process)
    }
}

impl CallEnd for WorkEnd {
    ghost use Rattle.ds_core.specs.Ends.{works};

    ghost kind = { works };

    fn answer(self) -> Answer {
        Answer::Work(self)
    }

    #[tactic(auto, using(crate::proofs::Stepping::of_work))]
    fn step(alloc: Global, world: &mut World, process: usize) -> Option<Turn<WorkEnd>> {
        ds_work::drive::step(alloc, world, process)
    }
}

impl CallEnd for ShowEnd {
    ghost use Rattle.ds_core.specs.Ends.{reports};

    ghost kind = { reports };

    fn answer(self) -> Answer {
        Answer::Show(self)
    }

    #[tactic(auto, using(crate::proofs::Stepping::of_show))]
    fn step(alloc: Global, world: &mut World, process: usize) -> Option<Turn<ShowEnd>> {
        // The body does not use it: the signature or a clause names it.
        let _alloc = alloc;
        ds_show::step::step(world, process)
    }
}

impl CallEnd for RecoveryEnd {
    ghost use Rattle.ds_core.specs.Ends.{recoveries};

    ghost kind = { recoveries };

    fn answer(self) -> Answer {
        Answer::Recovery(self)
    }

    #[tactic(auto, using(crate::proofs::Stepping::of_recovery))]
    fn step(alloc: Global, world: &mut World, process: usize) -> Option<Turn<RecoveryEnd>> {
        // The body does not use it: the signature or a clause names it.
        let _alloc = alloc;
        ds_recover::step::step(world, process)
    }
}

impl CallEnd for MigrateEnd {
    ghost use Rattle.ds_core.specs.Ends.{migrations};

    ghost kind = { migrations };

    fn answer(self) -> Answer {
        Answer::Migration(self)
    }

    #[tactic(auto, using(crate::proofs::Stepping::of_migration))]
    fn step(alloc: Global, world: &mut World, process: usize) -> Option<Turn<MigrateEnd>> {
        // The body does not use it: the signature or a clause names it.
        let _alloc = alloc;
        ds_recover::migrate_step::step(world, process)
    }
}

// What a step does to a call of one kind, among calls of any kind.
fn among_all<E: CallEnd>(turn: Option<Turn<E>>) -> Option<Turn<Answer>>
    ensures { result ≡ all_of E.kind.answer turn }
{
    match turn? {
        Turn::GoesOn => Some(Turn::GoesOn),
        Turn::Answers(end) => Some(Turn::Answers(end.answer())),
    }
}

// The process is in a call of this kind.
#[tactic(auto, using(crate::proofs::Stepping::among))]
fn step_as<E: CallEnd>(alloc: Global, world: &mut World, process: usize) -> Option<Turn<Answer>>
    requires { IsOnlyIn E.kind world.old process }
    ensures { StepsAs all world.old process result world.new }
{
    among_all(E::step(alloc, world, process))
}

impl CallEnd for Answer {
    ghost use Rattle.ds_core.specs.Ends.{all};

    ghost kind = { all };

    fn answer(self) -> Answer {
        self
    }

    fn step(alloc: Global, world: &mut World, process: usize) -> Option<Turn<Answer>> {
        if process >= world.situations.len() {
            return None;
        }
        match &world.situations[process] {
            Situation::Editing(_) => step_as::<EditEnd>(alloc, world, process),
            Situation::Working(_) => step_as::<WorkEnd>(alloc, world, process),
            Situation::Showing(_) => step_as::<ShowEnd>(alloc, world, process),
            Situation::Recovering(_) => step_as::<RecoveryEnd>(alloc, world, process),
            Situation::Migrating(_) => step_as::<MigrateEnd>(alloc, world, process),
            Situation::Idle(_) | Situation::Stopped => None,
        }
    }
}
