//! The table, its rule, and what a seat knows.

ghost use Rattle.std.specs.Prelude.{◌≡◌, ◌+◌, ◌*◌, ◌<◌, ◌^◌, ◌++◌, [], ℕ, true, false, IfOk, IfErr, length, List, Option, Some};
ghost use Rattle.std.specs.Mem.Slots.{slots_items, slots_len, IsFull};
ghost use Rattle.pm_base.specs.declared.history.Entry.{Entry};
ghost use Rattle.pm_board.specs.Views.{RunsFrom, Sits, HasRest, deeds_at, first_now, first_view, whole_view, lone, newcomer, past_of, bygone, united};
ghost use Rattle.pm_board.specs.Looks.{BeginsWithAll, Looks};
ghost use Rattle.pm_board.specs.Rule.{AreFirst, Closes, HasRun, IsRested};
ghost use Rattle.pm_board.specs.Table.{cached_at};

use crate::closed::ClosedBoard;
use crate::spacing::cached_at;
use atomic_table::{Join, Play, Seat, Split, Table, TableRule};
use ds_words::access::BufferEntry;
use pm_base::history::{Deed, Entry};
use pm_base::machine::Structured;
use std::alloc::{AllocError, Global};
use std::collections::LinkedList;
use std::marker::{Brand, PhantomData};
use std::snapshot::Snapshot;

/// What a process has done. No value of it is made.
pub struct Deeds<D, T> {
    /// The calls that it began, and what it was answered, the last thing first.
    pub done: LinkedList<Deed<D, T>>,
    /// How many steps it took.
    pub steps: usize,
    /// The history up to its last step, the last entry first; none before it has looked.
    pub seen: Option<LinkedList<Entry<D, T>>>,
}

/// A process of a view. No value of it is made.
pub struct Seated<D, T> {
    /// Which process it is.
    pub process: usize,
    /// What it does.
    pub now: D,
    /// What it has flushed.
    pub buffer: [BufferEntry<usize>; 0],
    /// What it has done.
    pub deeds: Deeds<D, T>,
}

/// What a seat knows. No value of it is made.
pub struct View<D, T> {
    /// The processes that it runs.
    pub entries: LinkedList<Seated<D, T>>,
    /// Processes as they were once: when boards before this one were closed, or when another seat handed them over.
    pub past: LinkedList<Seated<D, T>>,
}

/// A seat at a table: the right to act for the processes of its view.
pub type TableSeat<D, T> = Seat<u8, View<D, T>>;

/// What is fixed when the table is made.
#[derive(Drop)]
pub struct Fixed<K: Drop, D, T> {
    /// The layout.
    pub own: K,
    /// Whether every process is stopped at first.
    pub stopped: bool,
    /// A seat of a board before, which remembers what was done.
    pub before: Option<TableSeat<D, T>>,
    /// The words with which it is made, which clauses alone read.
    pub words: Snapshot<Vec<u64>>,
}

/// The rule of the table.
pub struct Law<P> {
    of: PhantomData<P>,
}

impl<P: Structured> TableRule<u8, View<P::Doing, P::Response>, Fixed<P::Key, P::Doing, P::Response>>
    for Law<P> {
    ghost use Rattle.pm_board.specs.Rule.{Ruled};
    ghost use Rattle.pm_board.specs.Starts.{start_of};
    ghost use Rattle.pm_board.specs.Views.{RunsFrom, Sits, first_view, past_of};

    ghost holds = { λ k t. Ruled P.structure k.own (start_of k) t };

    ghost first = { λ k. first_view P.structure k.own k.stopped (past_of k.before) };
}

/// Where a step lands: what is so of the number found and of the view after it.
pub(crate) trait Landing<D, T> {
    ghost use Rattle.std.specs.Prelude.{ℕ};
    ghost use Rattle.pm_board.specs.declared.board.View.{View};

    ghost lands: { ℕ → View D T → Type 0 };
}

impl<D, T> Landing<D, T> for Brand {
    ghost lands = { λ n v. Unit {0} };
}

// What a step of a call is to leave: the clause of its landing.
pub(crate) struct Lands<J> {
    of: PhantomData<J>,
}

impl<D, T, J: Landing<D, T>> Play<u8, View<D, T>> for Lands<J> {
    ghost use Rattle.std.specs.Prelude.{◌≡◌};

    ghost then = { λ st m n m'. (m'.1 ≡ m.1) × J.lands n m'.0 };
}

// A seat looks at the table, and keeps its past.
pub(crate) struct Opens;

impl<D, T> Play<u8, View<D, T>> for Opens {
    ghost use Rattle.std.specs.Prelude.{◌≡◌};
    ghost use Rattle.pm_board.specs.Looks.{Looks};

    ghost then = { λ st m n m'. (m'.1 ≡ m.1) × Looks m.0 m.0.past m'.0 };
}

// A seat looks at the table, and remembers nobody any more.
struct Learns;

impl<D, T> Play<u8, View<D, T>> for Learns {
    ghost use Rattle.std.specs.Prelude.{◌≡◌, []};
    ghost use Rattle.pm_board.specs.Looks.{Looks};

    ghost then = { λ st m n m'. (m'.1 ≡ m.1) × Looks m.0 [] m'.0 };
}

// The first process goes to a seat of its own.
struct Behead<P> {
    of: PhantomData<P>,
}

impl<P: Structured> Split<View<P::Doing, P::Response>> for Behead<P> {
    ghost use Rattle.pm_board.specs.Views.{RunsFrom, Sits, headed, tailed};

    ghost left = { tailed };

    ghost right = { headed P.structure.first };
}

// A seat of no process remembers what another one knows.
pub(crate) struct Remember;

impl<D, T> Split<View<D, T>> for Remember {
    ghost use Rattle.pm_board.specs.Views.{RunsFrom, Sits, bygone};

    ghost left = { λ v. v };

    ghost right = { bygone };
}

// A seat takes in the processes of another one.
struct Unite;

impl<D, T> Join<View<D, T>> for Unite {
    ghost use Rattle.pm_board.specs.Views.{RunsFrom, Sits, united, nobody};

    ghost both = { united };

    ghost spent = { nobody };
}

/// The words of a structure, which threads share. Nothing steps on them but its calls.
pub struct Board<P: Structured>
where
    Law<P>: TableRule<u8, View<P::Doing, P::Response>, Fixed<P::Key, P::Doing, P::Response>>,
{
    pub(crate) table: Table<
        u8,
        View<P::Doing, P::Response>,
        Fixed<P::Key, P::Doing, P::Response>,
        Law<P>,
        Global,
    >,
    /// Its layout.
    pub key: P::Key,
    pub ghost sized: { (table.shared.table_id.words ≡ cached_at (P.structure.apart key) (P.structure.words key)) × (table.shared.key.own ≡ key) × (table.shared.table_id.slots ≡ 0) },
    pub ghost some: { (0 < P.structure.words key) × (P.structure.words key < 2 ^ 28) },
}

// Written out, it has no bound but the structure's: so types that hold a board can be dropped, too.
impl<P: Structured> Drop for Board<P> {
    fn drop(self) {
        let Board { table: _, key: _ } = self;
    }
}

// The words of a new structure: each is on both sides what it is at first.
fn first_words<P: Structured>(alloc: Global, key: &P::Key) -> Result<Vec<u64>, AllocError>
    requires few { P.structure.words key.now < 2 ^ 28 }
    ensures { IfOk result (λ v. AreFirst P.structure key.now (P.structure.words key.now) v.items) }
{
    let count = P::words(key);
    let apart = P::apart(key);
    let mut words: Vec<u64> = Vec::with_capacity(alloc, cached_at(apart, count))?;
    for word in 0..count {
        let first = P::first_word(key, word);
        if word < apart {
            words.extend_from_slice(&[first, first, 0, 0, 0, 0, 0, 0])?;
        } else {
            words.extend_from_slice(&[first, first])?;
        }
    }
    Ok(words)
}

impl<P: Structured> Board<P> {
    ghost use Rattle.pm_board.specs.Starts.{start_of};

    /// A board of a new structure, and a seat that runs each process. An error: out of memory.
    pub fn make(
        alloc: Global,
        key: P::Key,
    ) -> Result<(Board<P>, TableSeat<P::Doing, P::Response>), AllocError>
        requires some { 0 < P.structure.words key }
        requires few { P.structure.words key < 2 ^ 28 }
        ensures key { IfOk result (λ r. r.0.key ≡ key) }
        ensures place { IfOk result (λ r. (r.1.table_id ≡ r.0.table.shared.table_id) × (r.1.me ≡ (first_view P.structure key false [], []))) }
        ensures rest { IfOk result (λ r. RunsFrom P.structure r.0.key false 0 r.1.me) }
        ensures made { IfOk result (λ r. r.0.table.shared.key.stopped ≡ false) }
        ensures words { IfOk result (λ r. AreFirst P.structure key (P.structure.words key) r.0.table.shared.key.words.value.items) }
    {
        P::law(&key);
        let words = first_words::<P>(alloc, &key)?;
        let fixed = Fixed {
            own: key,
            stopped: false,
            before: None,
            words: Snapshot::of(&words),
        };
        let (table, place) = Table::of_words(alloc, words.as_slice(), &fixed)?;
        let Fixed {
            own,
            stopped: _,
            before: _,
            words: _,
        } = fixed;
        Ok((Board { table, key: own }, place))
    }

    /// A seat for the first process of one that runs all from this one on, before their first call: it has done nothing.
    /// `stopped` is false on a board that was made, and true on one that was opened again.
    pub fn deal(
        &self,
        rest: &mut TableSeat<P::Doing, P::Response>,
        process: usize,
        stopped: bool,
    ) -> TableSeat<P::Doing, P::Response>
        requires table { rest.old.table_id ≡ self.now.table.shared.table_id }
        requires low { process < P.structure.processes self.now.key }
        requires rest { RunsFrom P.structure self.now.key stopped process rest.old.me }
        ensures table { (rest.new.table_id ≡ rest.old.table_id) × (result.table_id ≡ rest.old.table_id) }
        ensures rest { RunsFrom P.structure self.now.key stopped (process + 1) rest.new.me }
        ensures past { rest.new.me.0.past ≡ rest.old.me.0.past }
        ensures sits { Sits result.me process (first_now P.structure stopped) }
        ensures new { (deeds_at result.me).done ≡ [] }
        ensures others { (seen : Option (List (Entry P.Doing P.Response))) → HasRest (first_now P.structure stopped) seen process (P.structure.processes self.now.key) rest.old.me.0.past rest.old.me.0 → HasRest (first_now P.structure stopped) seen (process + 1) (P.structure.processes self.now.key) rest.old.me.0.past rest.new.me.0 }
        ensures alone { (seen : Option (List (Entry P.Doing P.Response))) → HasRest (first_now P.structure stopped) seen process (P.structure.processes self.now.key) rest.old.me.0.past rest.old.me.0 → result.me ≡ (lone (newcomer (first_now P.structure stopped) seen process), []) }
    {
        let (_process, _stopped) = (process, stopped);
        let _words = P::words(&self.key);
        self.table.shared.split_seat::<Behead<P>>(rest)
    }

    /// Loads a word, so that it lies in the cache when a call comes to it: the stores of a call wait for one another, such
    /// loads do not. It is no step of a process, so no clause can say that it was made.
    #[inline(always)]
    pub fn fetch(&self, word: usize)
        requires { word < P.structure.words self.now.key }
    {
        let _words = P::words(&self.key);
        let _found = self.table.shared.peek(cached_at(P::apart(&self.key), word));
    }

    /// A seat of no process, which remembers what another one knows. It can go to another thread, whose seat takes it in by
    /// `join` and `look`.
    pub fn note(
        &self,
        place: &mut TableSeat<P::Doing, P::Response>,
    ) -> TableSeat<P::Doing, P::Response>
        requires { (place.old.table_id ≡ self.now.table.shared.table_id) × (place.old.me.1 ≡ []) }
        ensures place { (place.new.table_id ≡ place.old.table_id) × (place.new.me ≡ place.old.me) }
        ensures note { (result.table_id ≡ place.old.table_id) × (result.me ≡ (bygone place.old.me.0, [])) }
    {
        let _words = P::words(&self.key);
        self.table.shared.split_seat::<Remember>(place)
    }

    /// A seat looks at the table, by a load of one word: its processes have then seen all that has happened. It remembers
    /// nobody any more.
    pub fn look(&self, place: &mut TableSeat<P::Doing, P::Response>)
        requires { (place.old.table_id ≡ self.now.table.shared.table_id) × (place.old.me.1 ≡ []) }
        ensures { (place.new.table_id ≡ place.old.table_id) × (place.new.me.1 ≡ []) × Looks place.old.me.0 [] place.new.me.0 }
    {
        let _words = P::words(&self.key);
        let _found = self.table.shared.load::<Learns>(place, 0);
    }

    /// A seat takes in the processes of another one, and what that remembers.
    pub fn join(
        &self,
        place: &mut TableSeat<P::Doing, P::Response>,
        other: TableSeat<P::Doing, P::Response>,
    )
        requires place { place.old.table_id ≡ self.now.table.shared.table_id }
        requires other { (other.table_id ≡ self.now.table.shared.table_id) × (other.me.1 ≡ []) }
        ensures { (place.new.table_id ≡ place.old.table_id) × (place.new.me ≡ (united place.old.me.0 other.me.0, place.old.me.1)) }
    {
        let _words = P::words(&self.key);
        self.table.shared.join_seat::<Unite>(place, other);
    }

    /// Ends the board, with a seat. Its words are those of a world to which a run of the structure leads, in which each
    /// process of the seat does what the seat says; stops alone lead from there to one at rest. What the seat knows is
    /// remembered. What other seats know is lost, but for what this one took in by `join`.
    pub fn close(self, mut place: TableSeat<P::Doing, P::Response>) -> ClosedBoard<P>
        requires { (place.table_id ≡ self.table.shared.table_id) × (place.me.1 ≡ []) }
        ensures key { result.key ≡ self.key }
        ensures past { past_of result.before ≡ place.me.0.past ++ place.me.0.entries }
        ensures stand { Closes P.structure self.key (start_of self.table.shared.key) (slots_items result.table.words) place.me.0.entries (place.me.0.past ++ place.me.0.entries) }
        ensures run { HasRun P.structure self.key (slots_items result.table.words) (place.me.0.past ++ place.me.0.entries) }
        ensures rests { IsRested P.structure result.key (slots_items result.table.words) (past_of result.before) }
    {
        P::law(&self.key);
        let _words = P::words(&self.key);
        let before = self.table.shared.split_seat::<Remember>(&mut place);
        let Board { table, key } = self;
        ClosedBoard {
            table: table.close_with(place),
            key,
            before: Some(before),
        }
    }
}
