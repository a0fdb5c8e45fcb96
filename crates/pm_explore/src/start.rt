//! The position at which a search begins.

ghost use Rattle.std.specs.Prelude.{◌≡◌, [], IfOk, IfSome, replicate};
ghost use Rattle.pm_explore.specs.Starts.{AreFirst, Starts};

use crate::cells::Cells;
use crate::explored::Explored;
use crate::happen::Came;
use crate::position::{Position, repeated};
use crate::setting::Setting;
use ds_words::access::BufferEntry;
use ds_words::words::Word;
use std::alloc::{AllocError, Global};
use std::collections::LinkedList;

// The number of the first word of a window that the structure does not have.
fn missing<P: Explored>(key: &P::Key, window: &[usize]) -> Option<usize> {
    let words = P::words(key);
    for number in window {
        if *number >= words {
            return Some(*number);
        }
    }
    None
}

// What the words of a window are at first; None where the structure does not have one of them.
fn first_words<P: Explored>(
    alloc: Global,
    key: &P::Key,
    window: &[usize],
) -> Result<Option<Vec<Word>>, AllocError>
    ensures { IfOk result (λ some. IfSome some (λ v. AreFirst P.structure key.now window.now v.items)) }
{
    let words = P::words(key);
    let mut list = Vec::with_capacity(alloc, window.len())?;
    for i in 0..window.len() {
        if window[i] >= words {
            return Ok(None);
        }
        let first = P::first_word(key, window[i]);
        list.push(Word {
            cached: first,
            persisted: first,
        })?;
    }
    Ok(Some(list))
}

// Empty buffers, as many as this.
fn empty_buffers(
    alloc: Global,
    count: usize,
) -> Result<Vec<LinkedList<BufferEntry<usize>>>, AllocError>
    ensures { IfOk result (λ v. v.items ≡ replicate count []) }
{
    let mut list = Vec::with_capacity(alloc, count)?;
    for i in 0..count {
        list.push(LinkedList::new(alloc))?;
    }
    Ok(list)
}

/// The position of a new structure, in which no call has begun. An error means that an allocation failed.
pub fn start_of<P: Explored>(
    alloc: Global,
    setting: &Setting<P::Key, P::Doing>,
) -> Result<Came<P::Doing, P::Response>, AllocError>
    ensures { IfOk result (Starts P.structure setting.now) }
{
    let Some(words) = first_words::<P>(alloc, &setting.key, &setting.window)? else {
        return Ok(Came::Outside(missing::<P>(&setting.key, &setting.window).unwrap_or(0)));
    };
    let processes = P::processes(&setting.key);
    let buffers = empty_buffers(alloc, processes)?;
    Ok(Came::To(Position {
        cells: Cells { words, buffers },
        doing: repeated(alloc, P::first(), processes)?,
        begun: repeated(alloc, 0, processes)?,
        told: Vec::new(alloc),
    }))
}
