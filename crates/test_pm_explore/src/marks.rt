//! The mark, as it is gone through.

ghost use Rattle.std.specs.Prelude.{◌≡◌, ◌≤◌, IsTrue, MatchOption, None};
ghost use Rattle.ds_words.specs.declared.words.Word.{Word};
ghost use Rattle.pm_explore.specs.Lists.{IsAt};
ghost use Rattle.pm_mark.specs.declared.mark.Doing.TheVariants.{Idle, Raising};
ghost use Rattle.test_pm_explore.specs.Marks.{IsUpForGood, NoRaise, RaiseAsks, RaiseLands};

use ds_words::access::{Access, Class};
use ds_words::words::Word;
use pm_explore::explored::{Explored, Landed};
use pm_explore::judge::Judge;
use pm_explore::position::Position;
use pm_explore::setting::Setting;
use pm_mark::mark::{Doing, Raise, Stage};

/// The mark as pm_mark has it.
pub struct RightMark;

/// The judge of a mark: no answer is above its persisted side.
pub struct MarkJudge;

// Whether both are the same.
fn same_stage(a: Stage, b: Stage) -> bool
    ensures { IsTrue result → a ≡ b }
{
    a == b
}

// Whether both are the same.
fn same_raise(a: &Raise, b: &Raise) -> bool
    ensures { IsTrue result → a.now ≡ b.now }
{
    a.process == b.process && a.value == b.value && same_stage(a.stage, b.stage)
}

// Whether both are the same.
fn same_doing(a: &Doing, b: &Doing) -> bool
    ensures { IsTrue result → a.now ≡ b.now }
{
    match a {
        Doing::Idle => matches!(b, Doing::Idle),
        Doing::Raising(c) => match b {
            Doing::Raising(d) => same_raise(c, d),
            _ => false,
        },
    }
}

// The access of the next step of a process that does this.
fn want(now: Doing) -> Option<Access<usize>>
    ensures { MatchOption result (NoRaise now) (RaiseAsks now) }
{
    let Doing::Raising(call) = now else {
        return None;
    };
    match call.stage {
        Stage::Load => Some(Access::Load(0)),
        Stage::Swap(seen) => Some(Access::SwapIf {
            place: 0,
            expected: seen,
            value: call.value,
        }),
        Stage::Flush => Some(Access::Flush(0)),
        Stage::Back => Some(Access::Back),
        Stage::Done => None,
        Stage::Lost => None,
    }
}

// A process in a raise that has come to this stage.
fn raising(call: Raise, stage: Stage) -> Landed<Doing, u64>
    ensures { (result.doing ≡ Raising (record call { stage = stage })) × (result.says ≡ None) }
{
    Landed {
        doing: Doing::Raising(Raise {
            process: call.process,
            value: call.value,
            stage,
        }),
        says: None,
    }
}

// A process that does nothing, and was answered this.
fn idle(says: Option<u64>) -> Landed<Doing, u64>
    ensures { (result.doing ≡ Idle) × (result.says ≡ says) }
{
    Landed {
        doing: Doing::Idle,
        says,
    }
}

// Where a step leaves a process that does this, by the word that its access answered.
fn got(now: Doing, word: u64) -> Landed<Doing, u64>
    ensures { RaiseLands now word result }
{
    let Doing::Raising(call) = now else {
        return idle(None);
    };
    match call.stage {
        Stage::Load => if word < call.value {
            raising(call, Stage::Swap(word))
        } else {
            raising(call, Stage::Flush)
        },
        Stage::Swap(seen) => if word == seen {
            raising(call, Stage::Flush)
        } else {
            idle(None)
        },
        Stage::Flush => raising(call, Stage::Back),
        Stage::Back => idle(Some(call.value)),
        Stage::Done => idle(None),
        Stage::Lost => idle(None),
    }
}

impl Explored for RightMark {
    type Key = usize;

    type Doing = Doing;

    type Response = u64;

    ghost use Rattle.pm_mark.specs.Marks.{mark};

    ghost structure = { mark };

    fn same_doing(a: &Doing, b: &Doing) -> bool {
        same_doing(a, b)
    }

    fn same_response(a: &u64, b: &u64) -> bool {
        *a == *b
    }

    fn words(key: &usize) -> usize {
        let _key = key;
        1
    }

    fn processes(key: &usize) -> usize {
        *key
    }

    fn first_word(key: &usize, word: usize) -> u64 {
        let (_key, _word) = (key, word);
        0
    }

    fn first() -> Doing {
        Doing::Idle
    }

    fn class(key: &usize, word: usize) -> Class {
        let (_key, _word) = (key, word);
        Class::Stamped
    }

    fn stopped() -> Doing {
        Doing::Idle
    }

    fn may_begin(key: &usize, process: usize, now: Doing, call: Doing) -> bool {
        let (_key, _process, _call) = (key, process, call);
        matches!(now, Doing::Idle)
    }

    fn want(key: &usize, process: usize, now: Doing) -> Option<Access<usize>> {
        let (_key, _process) = (key, process);
        want(now)
    }

    fn got(key: &usize, process: usize, now: Doing, word: u64) -> Landed<Doing, u64> {
        let (_key, _process) = (key, process);
        got(now, word)
    }
}

// Whether an answer is not above the mark's persisted side.
fn is_up(words: &[Word], response: u64) -> bool
    ensures { IsTrue result → (w : Word) × IsAt words.now 0 w × (response ≤ w.persisted) }
{
    if words.is_empty() {
        return false;
    }
    let word = words[0];
    response <= word.persisted
}

// Whether no answer is above the mark's persisted side.
fn is_up_for_good(x: &Position<Doing, u64>) -> bool
    ensures { IsTrue result → IsUpForGood x.now }
{
    for i in 0..x.told.len() {
        let up = is_up(&x.cells.words, x.told[i].response);
        if !up {
            return false;
        }
    }
    true
}

impl Judge<RightMark> for MarkJudge {
    ghost meaning = { λ judge setting x. IsUpForGood x };

    fn is_right(&self, setting: &Setting<usize, Doing>, x: &Position<Doing, u64>) -> bool {
        let _setting = setting;
        is_up_for_good(x)
    }
}
