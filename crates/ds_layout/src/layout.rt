//! The numbers of the words of a sheet.

ghost use Rattle.std.specs.Prelude.{◌≡◌, ◌*◌, ◌/◌, ◌%◌, ◌<◌, ◌≤◌, ◌-◌, ◌^◌, ◌↔◌, IsTrue, IsSome, IfSome, IfOk};
ghost use Rattle.ds_formula.specs.Limits.{CELLS_MOST, EDITS_MOST, FIRST_TEXT_MOST, PROCESSES_MOST, TEXT_MOST};
ghost use Rattle.ds_layout.specs.Bits.{parts_for};
ghost use Rattle.ds_layout.specs.declared.place.TheConstants as places;
ghost use Rattle.ds_layout.specs.declared.place.TheConstants.{RECORDS, FIRST_PARTS, SECOND_PARTS, DONE_PARTS};
ghost use Rattle.ds_layout.specs.declared.place.Edition.TheVariants as edition;
ghost use Rattle.ds_layout.specs.declared.place.Place.TheVariants as place;
ghost use Rattle.ds_layout.specs.declared.layout.TheConstants as constants;
ghost use Rattle.ds_layout.specs.declared.head.TheConstants as heads;
ghost use Rattle.ds_layout.specs.declared.mark.TheConstants as marks;

use crate::bits;
use crate::place::{DONE_PARTS, Edition, FIRST_PARTS, Place, RECORDS, SECOND_PARTS};
use ds_formula::cells::Shape;
use ds_words::access::{Access, Class};
use std::alloc::{AllocError, Global};

/// How many processes a sheet may have.
pub const PROCESS_LIMIT: usize = 8;

/// What fixes the words of a sheet: its shape, and how many processes it has, from 1 to 8.
#[derive(Clone, Copy, Debug, PartialEq, Eq)]
pub struct Layout {
    /// The shape of the sheet.
    pub shape: Shape,
    /// How many processes there are, from 1 to 8.
    pub processes: usize,
    ghost some: { 1 ≤ processes },
    ghost limited: { processes ≤ PROCESSES_MOST },
}

/// The number of the first word of each kind, and of all words; and how many words an index row has.
#[derive(Clone, Copy)]
pub struct Starts {
    row_parts: usize,
    heads: usize,
    marks: usize,
    values: usize,
    kinds: usize,
    index: usize,
    announcements: usize,
    headers: usize,
    texts: usize,
    done: usize,
    second_texts: usize,
    words: usize,
}

// The word of an index row that stands there among those of all rows.
fn index_place(at: usize, row_parts: usize) -> Place
    requires { 0 < row_parts }
    ensures { result ≡ place.Index (at / row_parts) (at % row_parts) }
{
    Place::Index {
        row: at / row_parts,
        part: at % row_parts,
    }
}

// The header that stands there among all headers.
fn header_place(at: usize) -> Place
    ensures { result ≡ place.Header (at / RECORDS) (at % RECORDS) }
{
    Place::Header {
        process: at / RECORDS,
        number: at % RECORDS,
    }
}

/// The part of a text of the first layout that stands there, from 0, among those of all its texts: by process, then
/// number, then part. It need not be one of a sheet.
pub fn first_text(at: usize) -> Place
    ensures { result ≡ place.Text edition.First (at / FIRST_PARTS / RECORDS) (at / FIRST_PARTS % RECORDS) (at % FIRST_PARTS) }
{
    let record = at / FIRST_PARTS;
    Place::Text {
        edition: Edition::First,
        process: record / RECORDS,
        number: record % RECORDS,
        part: at % FIRST_PARTS,
    }
}

// The part of a text of the second layout that stands there among those of all its texts.
fn second_text(at: usize) -> Place
    ensures { result ≡ place.Text edition.Second (at / SECOND_PARTS / RECORDS) (at / SECOND_PARTS % RECORDS) (at % SECOND_PARTS) }
{
    let record = at / SECOND_PARTS;
    Place::Text {
        edition: Edition::Second,
        process: record / RECORDS,
        number: record % RECORDS,
        part: at % SECOND_PARTS,
    }
}

// The word of done bits that stands there among those of all processes.
fn done_place(at: usize) -> Place
    ensures { result ≡ place.Done (at / DONE_PARTS) (at % DONE_PARTS) }
{
    Place::Done {
        process: at / DONE_PARTS,
        part: at % DONE_PARTS,
    }
}

impl Layout {
    ghost use Rattle.ds_layout.specs.Bits.{parts_for};
    ghost use Rattle.ds_layout.specs.Places.{WORDS_MOST, cells_of, parts_of, IsAscending, AreStartsOf, starts_of, words_of, IsPlace, number_of, place_of};
    ghost use Rattle.ds_layout.specs.declared.place.Place.{Place};
    ghost use Rattle.ds_layout.specs.SheetMemory.{HasClasses, NamesPlace, access_at};

    /// A layout for 1 to 8 processes; `None` for another number.
    pub fn new(shape: Shape, processes: usize) -> Option<Layout>
        ensures within { IsSome result ↔ ((1 ≤ processes) × (processes ≤ PROCESS_LIMIT)) }
        ensures value { IfSome result (λ l. (l.shape ≡ shape) × (l.processes ≡ processes)) }
    {
        if (1..=PROCESS_LIMIT).contains(&processes) {
            Some(Layout { shape, processes })
        } else {
            None
        }
    }

    /// How many cells the sheet has.
    #[inline(always)]
    pub fn cells(&self) -> usize
        ensures value { result ≡ cells_of self.now }
        ensures at_least_one { 1 ≤ result }
        ensures at_most { result ≤ CELLS_MOST }
    {
        self.shape.count()
    }

    /// How many words the index row of a cell has, 64 cells each.
    #[inline(always)]
    pub fn row_parts(&self) -> usize
        ensures value { result ≡ parts_of self.now }
        ensures at_most { result ≤ parts_for CELLS_MOST }
    {
        bits::parts(self.cells())
    }

    /// Where each kind of words begins, by the numbers of words: kept beside a layout, it saves each access the sums.
    pub fn starts(&self) -> Starts
        ensures value { result ≡ starts_of self.now }
        ensures ascending { IsAscending result }
        ensures at_most { result.words ≤ WORDS_MOST }
    {
        let cells = self.cells();
        let heads = 1;
        let marks = heads + cells;
        let values = marks + cells;
        let kinds = values + cells;
        let index = kinds + cells;
        let row_parts = self.row_parts();
        let announcements = index + cells * row_parts;
        let headers = announcements + self.processes;
        let texts = headers + self.processes * RECORDS;
        let done = texts + self.processes * RECORDS * FIRST_PARTS;
        let second_texts = done + self.processes * DONE_PARTS;
        Starts {
            row_parts,
            heads,
            marks,
            values,
            kinds,
            index,
            announcements,
            headers,
            texts,
            done,
            second_texts,
            words: second_texts + self.processes * RECORDS * SECOND_PARTS,
        }
    }

    /// How many words the sheet has, at most 114,729.
    pub fn words(&self) -> usize
        ensures value { result ≡ words_of self.now }
        ensures at_most { result ≤ WORDS_MOST }
    {
        self.starts().words
    }

    // The number of the word at a place, where each kind of words begins there.
    #[tactic(auto, unfolding(crate::specs::Places::number_of, crate::specs::Places::starts_of))]
    #[inline(always)]
    pub(crate) fn number_from(&self, starts: &Starts, place: Place) -> usize
        requires place { IsPlace self.now place }
        requires starts { AreStartsOf self.now starts.now }
        ensures { result ≡ number_of self.now place }
    {
        match place {
            Place::Version => 0,
            Place::Head(cell) => starts.heads + cell,
            Place::Mark(cell) => starts.marks + cell,
            Place::Value(cell) => starts.values + cell,
            Place::Kind(cell) => starts.kinds + cell,
            Place::Index { row, part } => starts.index + (row * starts.row_parts + part),
            Place::Announce(process) => starts.announcements + process,
            Place::Header { process, number } => starts.headers + (process * RECORDS + number),
            Place::Text {
                edition: Edition::First,
                process,
                number,
                part,
            } => { starts.texts + ((process * RECORDS + number) * FIRST_PARTS + part) }
            Place::Text {
                edition: Edition::Second,
                process,
                number,
                part,
            } => { starts.second_texts + ((process * RECORDS + number) * SECOND_PARTS + part) }
            Place::Done { process, part } => starts.done + (process * DONE_PARTS + part),
        }
    }

    #[tactic(auto, unfolding(crate::specs::Places::place_of))]
    fn placed(&self, number: usize) -> Place
        requires { number < words_of self.now }
        ensures { result ≡ place_of self.now number }
    {
        let starts = self.starts();
        if number < starts.heads {
            return Place::Version;
        }
        if number < starts.marks {
            return Place::Head(number - starts.heads);
        }
        if number < starts.values {
            return Place::Mark(number - starts.marks);
        }
        if number < starts.kinds {
            return Place::Value(number - starts.values);
        }
        if number < starts.index {
            return Place::Kind(number - starts.kinds);
        }
        if number < starts.announcements {
            return index_place(number - starts.index, self.row_parts());
        }
        if number < starts.headers {
            return Place::Announce(number - starts.announcements);
        }
        if number < starts.texts {
            return header_place(number - starts.headers);
        }
        if number < starts.done {
            return first_text(number - starts.texts);
        }
        if number < starts.second_texts {
            return done_place(number - starts.done);
        }
        second_text(number - starts.second_texts)
    }

    /// Whether the place is one of the sheet.
    pub fn contains(&self, place: Place) -> bool
        ensures { IsTrue result ↔ IsPlace self.now place }
    {
        let cells = self.cells();
        let processes = self.processes;
        match place {
            Place::Version => true,
            Place::Head(cell) => cell < cells,
            Place::Mark(cell) => cell < cells,
            Place::Value(cell) => cell < cells,
            Place::Kind(cell) => cell < cells,
            Place::Index { row, part } => row < cells && part < self.row_parts(),
            Place::Announce(process) => process < processes,
            Place::Header { process, number } => process < processes && number < RECORDS,
            Place::Text {
                edition,
                process,
                number,
                part,
            } => { process < processes && number < RECORDS && part < edition.parts() }
            Place::Done { process, part } => process < processes && part < DONE_PARTS,
        }
    }

    /// The number of the word at a place of the sheet. Two different places never share a word.
    #[inline(always)]
    pub fn number(&self, place: Place) -> usize
        requires { IsPlace self.now place }
        ensures value { result ≡ number_of self.now place }
        ensures below { result < words_of self.now }
        ensures back { place_of self.now result ≡ place }
        ensures alone { (other : Place) → IsPlace self.now other
            → number_of self.now other ≡ result → other ≡ place }
    {
        self.number_from(&self.starts(), place)
    }

    /// The place of the word with this number.
    pub fn place(&self, number: usize) -> Place
        requires { number < words_of self.now }
        ensures value { result ≡ place_of self.now number }
        ensures inside { IsPlace self.now result }
        ensures back { number_of self.now result ≡ number }
    {
        self.placed(number)
    }

    /// The class of each word, in the order of their numbers. An error means that an allocation failed.
    pub fn classes(&self, alloc: Global) -> Result<Vec<Class>, AllocError>
        ensures { IfOk result (λ v. HasClasses self.now v.items) }
    {
        let count = self.words();
        let mut classes = Vec::new(alloc);
        for number in 0..count {
            classes.push(self.place(number).class())?;
        }
        Ok(classes)
    }

    /// The access by the number of its word, where the kinds of words of the sheet begin there.
    #[inline(always)]
    pub fn numbered(&self, starts: &Starts, access: Access<Place>) -> Access<usize>
        requires place { NamesPlace self.now access }
        requires starts { AreStartsOf self.now starts.now }
        ensures { result ≡ access_at self.now access }
    {
        match access {
            Access::Nothing => Access::Nothing,
            Access::Load(place) => Access::Load(self.number_from(starts, place)),
            Access::Store(place, value) => Access::Store(self.number_from(starts, place), value),
            Access::Or(place, bits) => Access::Or(self.number_from(starts, place), bits),
            Access::SwapIf {
                place,
                expected,
                value,
            } => {
                Access::SwapIf {
                    place: self.number_from(starts, place),
                    expected,
                    value,
                }
            }
            Access::Flush(place) => Access::Flush(self.number_from(starts, place)),
            Access::Back => Access::Back,
        }
    }
}

/// The constants of this crate are the limits of the definitions, the last stamp of a head the last
/// that fits its 48 bits, and the bit that says dirty the lowest of a mark.
pub fn constants_are_limits()
    ensures edits { places.RECORDS ≡ EDITS_MOST }
    ensures first_text { 8 * places.FIRST_PARTS ≡ FIRST_TEXT_MOST }
    ensures text { 8 * places.SECOND_PARTS ≡ TEXT_MOST }
    ensures processes { constants.PROCESS_LIMIT ≡ PROCESSES_MOST }
    ensures row { places.ROW_PARTS ≡ parts_for CELLS_MOST }
    ensures done { places.DONE_PARTS ≡ parts_for EDITS_MOST }
    ensures stamp { heads.LAST_STAMP ≡ 2 ^ 48 - 1 }
    ensures dirty { marks.DIRTY ≡ 1 }
{}
