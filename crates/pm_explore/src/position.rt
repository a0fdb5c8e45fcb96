//! A point that a search has come to.

ghost use Rattle.std.specs.Prelude.{◌≡◌, ◌<◌, ◌-◌, ◌^◌, IfOk, IsTrue, length, replicate, slice_index_or};
ghost use Rattle.pm_explore.specs.Changes.{Agrees, HasTold, HasBegun, HasPerformed, HasLanded, HasStopped, HasEvicted, HasCrashed};

use crate::cells::{Cells, Seen};
use crate::explored::{Explored, Landed};
use crate::setting::Turn;
use ds_words::access::{Access, Class};
use std::alloc::{AllocError, Global};

/// What a process was answered.
#[derive(Clone, Copy)]
pub struct Told<T> {
    /// The process.
    pub process: usize,
    /// What it was answered.
    pub response: T,
}

/// A point that a search has come to: the words and buffers, what each process does, how many of its own calls each has
/// begun, and what was answered so far, each answer once.
#[derive(Drop)]
pub struct Position<D, T> {
    /// The words of the window, and the buffers.
    pub cells: Cells,
    /// What each process does.
    pub doing: Vec<D>,
    /// How many of its own calls each process has begun.
    pub begun: Vec<usize>,
    /// What was answered.
    pub told: Vec<Told<T>>,
}

// A list of one value, as many times as this.
pub(crate) fn repeated<X: Copy>(alloc: Global, value: X, count: usize) -> Result<Vec<X>, AllocError>
    ensures { IfOk result (λ v. v.items ≡ replicate count value) }
{
    let mut list = Vec::with_capacity(alloc, count)?;
    for i in 0..count {
        list.push(value)?;
    }
    Ok(list)
}

// Whether both lists have the same values in the same order.
fn same_doings<P: Explored>(a: &[P::Doing], b: &[P::Doing]) -> bool
    ensures { IsTrue result → a.now ≡ b.now }
{
    if a.len() != b.len() {
        return false;
    }
    for i in 0..a.len() {
        if !P::same_doing(&a[i], &b[i]) {
            return false;
        }
    }
    true
}

// Whether both answers are the same.
fn same_told<P: Explored>(a: &Told<P::Response>, b: &Told<P::Response>) -> bool
    ensures { IsTrue result → a.now ≡ b.now }
{
    a.process == b.process && P::same_response(&a.response, &b.response)
}

// Whether both lists have the same answers in the same order.
fn same_tolds<P: Explored>(a: &[Told<P::Response>], b: &[Told<P::Response>]) -> bool
    ensures { IsTrue result → a.now ≡ b.now }
{
    if a.len() != b.len() {
        return false;
    }
    for i in 0..a.len() {
        if !same_told::<P>(&a[i], &b[i]) {
            return false;
        }
    }
    true
}

// Whether both lists have the same numbers in the same order.
fn same_numbers(a: &[usize], b: &[usize]) -> bool
    ensures { IsTrue result → a.now ≡ b.now }
{
    a == b
}

/// Whether both positions are the same.
pub fn is_like<P: Explored>(
    a: &Position<P::Doing, P::Response>,
    b: &Position<P::Doing, P::Response>,
) -> bool
    ensures { IsTrue result → Agrees a.now b.now }
{
    a.cells.is_like(&b.cells)
        && same_doings::<P>(&a.doing, &b.doing)
        && same_numbers(&a.begun, &b.begun)
        && same_tolds::<P>(&a.told, &b.told)
}

// Keeps what a process was answered, unless it is there.
fn tell<P: Explored>(
    list: &mut Vec<Told<P::Response>>,
    told: Told<P::Response>,
) -> Result<(), AllocError>
    ensures { IfOk result (λ _. HasTold told list.old.items list.new.items) }
{
    for i in 0..list.len() {
        if same_told::<P>(&told, &list[i]) {
            return Ok(());
        }
    }
    list.push(told)?;
    Ok(())
}

/// The position in which a process does what comes after its access, and was answered what it was. An error means that an
/// allocation failed.
pub fn landed<P: Explored>(
    mut x: Position<P::Doing, P::Response>,
    process: usize,
    landed: Landed<P::Doing, P::Response>,
) -> Result<Position<P::Doing, P::Response>, AllocError>
    requires { process < length x.doing.items }
    ensures { IfOk result (HasLanded process landed x) }
{
    x.doing[process] = landed.doing;
    if let Some(response) = landed.says {
        tell::<P>(&mut x.told, Told { process, response })?;
    }
    Ok(x)
}

impl<D: Copy, T: Copy> Position<D, T> {
    /// An equal position, in memory of its own. An error means that an allocation failed.
    pub fn copy(&self) -> Result<Position<D, T>, AllocError>
        ensures { IfOk result (Agrees self.now) }
    {
        let alloc = self.doing.allocator();
        Ok(Position {
            cells: self.cells.copy()?,
            doing: Vec::from_slice(*alloc, &self.doing)?,
            begun: Vec::from_slice(*alloc, &self.begun)?,
            told: Vec::from_slice(*alloc, &self.told)?,
        })
    }

    /// The position in which a call of a process has begun. An error means that an allocation failed.
    pub fn begun_with(
        &self,
        process: usize,
        call: D,
        turn: Turn,
    ) -> Result<Position<D, T>, AllocError>
        requires doing { process < length self.now.doing.items }
        requires begun { process < length self.now.begun.items }
        requires room { slice_index_or self.now.begun.items process 0 < 2 ^ 64 - 1 }
        ensures { IfOk result (HasBegun process call turn self.now) }
    {
        let mut next = self.copy()?;
        next.doing[process] = call;
        if let Turn::Own(_number) = turn {
            next.begun[process] += 1;
        }
        Ok(next)
    }

    /// The position in which a process has made an access, and what that came upon; the process still does what it did. An
    /// error means that an allocation failed.
    pub fn performed(
        &self,
        window: &[usize],
        class: Class,
        process: usize,
        access: Access<usize>,
    ) -> Result<(Seen, Position<D, T>), AllocError>
        requires { process < length self.now.cells.buffers.items }
        ensures { IfOk result (λ y. HasPerformed window.now class access process self.now y.0 y.1) }
    {
        let mut next = self.copy()?;
        let seen = next.cells.perform(window, class, process, access)?;
        Ok((seen, next))
    }

    /// The position in which a process has stopped. An error means that an allocation failed.
    pub fn stopped_with(&self, process: usize, stopped: D) -> Result<Position<D, T>, AllocError>
        requires doing { process < length self.now.doing.items }
        requires buffer { process < length self.now.cells.buffers.items }
        ensures { IfOk result (HasStopped process stopped self.now) }
    {
        let mut next = self.copy()?;
        next.doing[process] = stopped;
        next.cells.stop(process);
        Ok(next)
    }

    /// The position in which a word is evicted. An error means that an allocation failed.
    pub fn evicted_with(
        &self,
        window: &[usize],
        number: usize,
    ) -> Result<Position<D, T>, AllocError>
        ensures { IfOk result (HasEvicted window.now number self.now) }
    {
        let mut next = self.copy()?;
        next.cells.evict(window, number);
        Ok(next)
    }

    /// The position in which all has crashed. An error means that an allocation failed.
    pub fn crashed_with(&self, stopped: D) -> Result<Position<D, T>, AllocError>
        ensures { IfOk result (HasCrashed stopped self.now) }
    {
        let alloc = self.doing.allocator();
        let mut cells = self.cells.copy()?;
        cells.crash();
        Ok(Position {
            cells,
            doing: repeated(*alloc, stopped, self.doing.len())?,
            begun: Vec::from_slice(*alloc, &self.begun)?,
            told: Vec::from_slice(*alloc, &self.told)?,
        })
    }
}
