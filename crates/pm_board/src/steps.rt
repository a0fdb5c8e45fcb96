//! One access is one step on the table.

ghost use Rattle.std.specs.Prelude.{◌≡◌, ◌+◌, ◌*◌, ◌<◌, ◌^◌, ℕ, length};
ghost use Rattle.atomic_table.specs.Table.{Allows};
ghost use Rattle.ds_words.specs.declared.words.TheConstants.{BUFFER_ENTRIES};
ghost use Rattle.pm_board.specs.Rule.{Ruled};
ghost use Rattle.pm_board.specs.Starts.{start_of};
ghost use Rattle.pm_board.specs.Table.{oldest_of, rest_of, word_of, change, reported, answer, buffer_after, HasRoom};

use crate::board::{Fixed, Landing, Lands, Law, TableSeat, View};
use crate::spacing::cached_at;
use arrayvec::ArrayVec;
use atomic_table::Shared;
use ds_words::access::{Access, BufferEntry, Class};
use ds_words::words::BUFFER_ENTRIES;
use pm_base::machine::Structured;

/// What a process has flushed and not written back.
pub(crate) type Buffer = ArrayVec<BufferEntry<usize>, BUFFER_ENTRIES>;

/// The oldest entry.
#[inline(always)]
fn oldest(buffer: &Buffer) -> Option<BufferEntry<usize>>
    ensures { result ≡ oldest_of buffer.now.items }
{
    if buffer.is_empty() {
        None
    } else {
        Some(buffer[0])
    }
}

/// Makes the access on the table, with the oldest entry of the buffer where it writes that back, and answers what its
/// step reports. This number of first words lies apart. The key, the call and whether it has begun show the proof whose
/// step it is.
#[inline(always)]
pub(crate) fn access<P: Structured, J: Landing<P::Doing, P::Response>, M>(
    shared: &Shared<u8, View<P::Doing, P::Response>, Fixed<P::Key, P::Doing, P::Response>, Law<P>>,
    seat: &mut TableSeat<P::Doing, P::Response>,
    key: &P::Key,
    apart: usize,
    call: &M,
    begun: bool,
    buffer: &Buffer,
    want: Access<usize>,
) -> u64
    requires table { seat.old.table_id ≡ shared.now.table_id }
    requires within { (word_of apart want (oldest_of buffer.now.items) < shared.now.table_id.words) × (shared.now.table_id.words < 2 ^ 32) }
    requires step { Allows (Ruled P.structure shared.now.key.own (start_of shared.now.key)) shared.now.table_id.slots seat.old.id seat.old.me (word_of apart want (oldest_of buffer.now.items)) (change want (oldest_of buffer.now.items)) (λ n m'. (m'.1 ≡ seat.old.me.1) × J.lands (reported want (oldest_of buffer.now.items) n) m'.0) }
    ensures seat { (seat.new.table_id ≡ seat.old.table_id) × (seat.new.id ≡ seat.old.id) }
    ensures landed { (seat.new.me.1 ≡ seat.old.me.1) × J.lands result seat.new.me.0 }
{
    let (_key, _call, _begun) = (key, call, begun);
    match want {
        Access::Nothing => shared.load::<Lands<J>>(seat, 0),
        Access::Load(word) => shared.load::<Lands<J>>(seat, cached_at(apart, word)),
        Access::Store(word, value) => {
            shared.store::<Lands<J>>(seat, cached_at(apart, word), value);
            value
        }
        Access::Or(word, bits) => shared.fetch_or::<Lands<J>>(seat, cached_at(apart, word), bits),
        Access::SwapIf {
            place: word,
            expected,
            value,
        } => { shared.compare_exchange::<Lands<J>>(seat, cached_at(apart, word), expected, value) }
        Access::Flush(word) => shared.load::<Lands<J>>(seat, cached_at(apart, word)),
        Access::Back => match oldest(buffer) {
            None => shared.load::<Lands<J>>(seat, 0),
            Some(entry) => {
                let word = cached_at(apart, entry.place) + 1;
                match entry.class {
                    Class::Stamped => shared.fetch_max::<Lands<J>>(seat, word, entry.value),
                    Class::Bit => shared.fetch_or::<Lands<J>>(seat, word, entry.value),
                    Class::Owned => {
                        shared.store::<Lands<J>>(seat, word, entry.value);
                        entry.value
                    }
                }
            }
        },
    }
}

/// What the access answers, where its step found this number.
#[inline(always)]
pub(crate) fn answer(want: Access<usize>, found: u64) -> u64
    ensures { result ≡ answer want found }
{
    match want {
        Access::Load(_) | Access::SwapIf { .. } => found,
        Access::Nothing | Access::Store(_, _) | Access::Or(_, _) => 0,
        Access::Flush(_) | Access::Back => 0,
    }
}

/// The buffer after an access whose step found this number.
#[inline(always)]
pub(crate) fn keep<P: Structured>(
    buffer: &mut Buffer,
    key: &P::Key,
    want: Access<usize>,
    found: u64,
)
    requires room { HasRoom want buffer.old.items }
    ensures { buffer.new.items ≡ buffer_after (P.structure.class_in key.now) want buffer.old.items found }
{
    match want {
        Access::Flush(word) => buffer.push(BufferEntry {
            place: word,
            class: P::class(key, word),
            value: found,
        }),
        Access::Back => take_oldest(buffer),
        _ => {}
    }
}

// The oldest entry leaves the buffer, if there is one. A buffer mostly has just that one: then no entry moves.
#[inline(always)]
fn take_oldest(buffer: &mut Buffer)
    ensures { buffer.new.items ≡ rest_of buffer.old.items }
{
    if buffer.len() < 2 {
        buffer.clear();
    } else {
        let _entry = buffer.remove(0);
    }
}
