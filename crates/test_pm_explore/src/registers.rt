//! The registers, as they are gone through.

ghost use Rattle.std.specs.Prelude.{◌≡◌, ◌≢◌, ◌<◌, ◌+◌, ◌*◌, ◌^◌, IsTrue, MatchOption};
ghost use Rattle.ds_words.specs.declared.words.Word.{Word};
ghost use Rattle.pm_explore.specs.Lists.{IsAt, slot};
ghost use Rattle.pm_registers.specs.declared.calls.Doing.TheVariants.{Writing, Recovering};
ghost use Rattle.test_pm_explore.specs.RegisterSteps.{AreRightRecalls, HasReached, IsRightRecall, MayDo, NoRegisterStep, RegisterAsks, RegisterLands};

use ds_words::access::{Access, Class};
use ds_words::words::Word;
use pm_explore::cells::slot_of;
use pm_explore::explored::{Explored, Landed};
use pm_explore::judge::Judge;
use pm_explore::position::Position;
use pm_explore::setting::Setting;
use pm_registers::calls::{
    Doing, RecoverCall, RecoverStage, Response, WriteCall, WriteStage, recall, recover_got,
    recover_want, write_got, write_want,
};

/// The registers as pm_registers has them, of two processes.
pub struct RightRegisters;

/// The judge of registers: what was written stays, and what a recovery says is so.
pub struct RegisterJudge;

// Whether both are the same.
fn same_doing(a: &Doing, b: &Doing) -> bool
    ensures { IsTrue result → a.now ≡ b.now }
{
    a == b
}

// Whether both are the same.
fn same_response(a: &Response, b: &Response) -> bool
    ensures { IsTrue result → a.now ≡ b.now }
{
    a == b
}

// Whether a process that does the one thing may begin the other.
fn may_begin(now: Doing, call: Doing) -> bool
    ensures { MayDo now call → IsTrue result }
{
    match now {
        Doing::Idle(last) => match call {
            Doing::Writing(call) => last < call.value,
            _ => false,
        },
        Doing::Stopped => matches!(call, Doing::Recovering(_)),
        _ => false,
    }
}

// The access of the next step of a process that does this.
fn want(now: Doing) -> Option<Access<usize>>
    ensures { MatchOption result (NoRegisterStep now) (RegisterAsks now) }
{
    match now {
        Doing::Writing(call) => if call.process < 4294967296 && call.stage != WriteStage::Done {
            Some(write_want(&call))
        } else {
            None
        },
        Doing::Recovering(call) => if call.process < 4294967296 {
            Some(recover_want(&call))
        } else {
            None
        },
        _ => None,
    }
}

// Where a step of a write leaves its process.
fn got_write(call: WriteCall, word: u64) -> Landed<Doing, Response>
    ensures { RegisterLands (Writing call) word result }
{
    let mut next = call;
    write_got(&mut next, word);
    match next.stage {
        WriteStage::Done => Landed {
            doing: Doing::Idle(next.value),
            says: Some(Response::Wrote(next.value)),
        },
        _ => Landed {
            doing: Doing::Writing(next),
            says: None,
        },
    }
}

// Where a step of a recovery leaves its process.
fn got_recover(call: RecoverCall, word: u64) -> Landed<Doing, Response>
    ensures { RegisterLands (Recovering call) word result }
{
    let mut next = call;
    recover_got(&mut next, word);
    match next.stage {
        RecoverStage::Done(last, head) => Landed {
            doing: Doing::Idle(last),
            says: Some(recall(last, head)),
        },
        _ => Landed {
            doing: Doing::Recovering(next),
            says: None,
        },
    }
}

// Where a step leaves a process that does this, by the word that its access answered.
fn got(now: Doing, word: u64) -> Landed<Doing, Response>
    ensures { RegisterLands now word result }
{
    match now {
        Doing::Writing(call) => got_write(call, word),
        Doing::Recovering(call) => got_recover(call, word),
        _ => Landed {
            doing: now,
            says: None,
        },
    }
}

impl Explored for RightRegisters {
    type Key = usize;

    type Doing = Doing;

    type Response = Response;

    ghost use Rattle.test_pm_explore.specs.TwoProcesses.{two_registers};

    ghost structure = { two_registers };

    fn same_doing(a: &Doing, b: &Doing) -> bool {
        same_doing(a, b)
    }

    fn same_response(a: &Response, b: &Response) -> bool {
        same_response(a, b)
    }

    fn words(key: &usize) -> usize {
        let _key = key;
        4
    }

    fn processes(key: &usize) -> usize {
        let _key = key;
        2
    }

    fn first_word(key: &usize, word: usize) -> u64 {
        let (_key, _word) = (key, word);
        0
    }

    fn first() -> Doing {
        Doing::Idle(0)
    }

    fn class(key: &usize, word: usize) -> Class {
        let (_key, _word) = (key, word);
        Class::Stamped
    }

    fn stopped() -> Doing {
        Doing::Stopped
    }

    fn may_begin(key: &usize, process: usize, now: Doing, call: Doing) -> bool {
        let (_key, _process) = (key, process);
        may_begin(now, call)
    }

    fn want(key: &usize, process: usize, now: Doing) -> Option<Access<usize>> {
        let (_key, _process) = (key, process);
        want(now)
    }

    fn got(key: &usize, process: usize, now: Doing, word: u64) -> Landed<Doing, Response> {
        let (_key, _process) = (key, process);
        got(now, word)
    }
}

// Whether a register's head has reached a value for good.
fn has_reached(window: &[usize], words: &[Word], process: usize, value: u64) -> bool
    requires { process < 2 ^ 32 }
    ensures { IsTrue result → HasReached window.now words.now process value }
{
    let at = slot_of(window, 2 * process + 1);
    if at >= words.len() {
        return false;
    }
    let word = words[at];
    value <= word.persisted
}

// Whether a register's head is not a value.
fn has_not(window: &[usize], words: &[Word], process: usize, value: u64) -> bool
    requires { process < 2 ^ 32 }
    ensures { IsTrue result → (w : Word) → IsAt words.now (slot window.now (2 * process + 1)) w → w.cached ≢ value }
{
    let at = slot_of(window, 2 * process + 1);
    if at >= words.len() {
        return true;
    }
    let word = words[at];
    word.cached != value
}

// Whether what a process was answered of its register is so.
fn is_right_recall(window: &[usize], words: &[Word], process: usize, response: Response) -> bool
    ensures { IsTrue result → IsRightRecall window.now words.now process response }
{
    if process >= 4294967296 {
        return false;
    }
    match response {
        Response::Wrote(value) => has_reached(window, words, process, value),
        Response::Recalled(last, had) => if had {
            has_reached(window, words, process, last)
        } else {
            has_not(window, words, process, last)
        },
    }
}

// Whether a position is right.
fn are_right_recalls(window: &[usize], x: &Position<Doing, Response>) -> bool
    ensures { IsTrue result → AreRightRecalls window.now x.now }
{
    for i in 0..x.told.len() {
        let told = x.told[i];
        let right = is_right_recall(window, &x.cells.words, told.process, told.response);
        if !right {
            return false;
        }
    }
    true
}

impl Judge<RightRegisters> for RegisterJudge {
    ghost meaning = { λ judge setting x. AreRightRecalls setting.window.items x };

    fn is_right(&self, setting: &Setting<usize, Doing>, x: &Position<Doing, Response>) -> bool {
        are_right_recalls(&setting.window, x)
    }
}
