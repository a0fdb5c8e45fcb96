//! Registers as a structure on persistent words.

use crate::calls::{
    Doing, RecoverCall, RecoverStage, Response, WriteCall, WriteStage, recall, recover_got,
    recover_want, write_got, write_want,
};
use crate::laws::{recoveries_are_calls, registers_are_a_structure, writes_are_calls};
use ds_words::access::{Access, Class};
use pm_base::machine::{Machine, Structured};

/// Registers, one for each process. The key says how many.
pub struct Registers;

impl Structured for Registers {
    type Key = usize;

    type Doing = Doing;

    type Response = Response;

    ghost use Rattle.pm_registers.specs.Registers.{registers};

    ghost structure = { registers };

    fn words(key: &usize) -> usize {
        2 * *key
    }

    fn apart(key: &usize) -> usize {
        Registers::words(key)
    }

    fn first_word(key: &usize, word: usize) -> u64 {
        let (_key, _word) = (key, word);
        0
    }

    fn class(key: &usize, word: usize) -> Class {
        let (_key, _word) = (key, word);
        Class::Stamped
    }

    fn law(key: &usize) {
        registers_are_a_structure(*key);
    }
}

impl Machine<Registers> for WriteCall {
    type End = u64;

    ghost use Rattle.pm_registers.specs.Registers.{writes};

    ghost calls = { writes };

    fn turn(&self, key: &usize) -> Option<u64> {
        let _key = key;
        match self.stage {
            WriteStage::Done => Some(self.value),
            _ => None,
        }
    }

    fn want(&self, key: &usize) -> Access<usize> {
        let _key = *key;
        write_want(self)
    }

    fn got(&mut self, key: &usize, word: u64) {
        let _key = key;
        write_got(self, word);
    }

    fn law(key: &usize) {
        writes_are_calls(*key);
    }
}

impl Machine<Registers> for RecoverCall {
    type End = Response;

    ghost use Rattle.pm_registers.specs.Registers.{recoveries};

    ghost calls = { recoveries };

    fn turn(&self, key: &usize) -> Option<Response> {
        let _key = key;
        match self.stage {
            RecoverStage::Done(last, head) => Some(recall(last, head)),
            _ => None,
        }
    }

    fn want(&self, key: &usize) -> Access<usize> {
        let _key = *key;
        recover_want(self)
    }

    fn got(&mut self, key: &usize, word: u64) {
        let _key = key;
        recover_got(self, word);
    }

    fn law(key: &usize) {
        recoveries_are_calls(*key);
    }
}
