//! The sheet as a structure on persistent words.

ghost use Rattle.std.specs.Prelude.{◌≡◌, ◌≤◌, ◌<◌};
ghost use Rattle.ds_layout.specs.Places.{AreStartsOf};
ghost use Rattle.ds_structure.specs.Classes.{AreBounds, class_by};

use crate::laws::sheets_are_a_structure;
use crate::response::Response;
use ds_layout::layout::{Layout, Starts};
use ds_layout::place::{Edition, Place};
use ds_state::situation::Situation;
use ds_words::access::{Access, Class};
use pm_base::machine::Structured;

/// Where the version's word is, and where words of another class and records begin, by the numbers of words.
#[derive(Clone, Copy)]
pub struct Bounds {
    version: usize,
    values: usize,
    rows: usize,
    announcements: usize,
    records: usize,
    done: usize,
    texts: usize,
}

/// What fixes the words of a sheet: its layout, and where each kind of words begins, kept beside it.
#[derive(Clone, Copy, Drop)]
pub struct SheetKey {
    /// The layout.
    pub layout: Layout,
    starts: Starts,
    bounds: Bounds,
    pub ghost begin: { AreStartsOf layout starts },
    pub ghost bound: { AreBounds layout bounds },
}

// Where words of another class begin in a sheet of this layout.
fn bounds_of(layout: &Layout) -> Bounds
    ensures { AreBounds layout.now result }
{
    // For the proof: all numbers are small.
    let _words = layout.words();
    let second = Place::Text {
        edition: Edition::Second,
        process: 0,
        number: 0,
        part: 0,
    };
    Bounds {
        version: layout.number(Place::Version),
        values: layout.number(Place::Value(0)),
        rows: layout.number(Place::Kind(0)) + layout.cells(),
        announcements: layout.number(Place::Announce(0)),
        records: layout.number(Place::Header {
            process: 0,
            number: 0,
        }),
        done: layout.number(Place::Done {
            process: 0,
            part: 0,
        }),
        texts: layout.number(second),
    }
}

impl SheetKey {
    ghost use Rattle.ds_layout.specs.SheetMemory.{NamesPlace, access_at, is_place};
    ghost use Rattle.ds_structure.specs.Calls.{names_place, access_in};

    /// The key of the sheets of a layout.
    pub fn new(layout: Layout) -> SheetKey
        ensures { result.layout ≡ layout }
    {
        SheetKey {
            layout,
            starts: layout.starts(),
            bounds: bounds_of(&layout),
        }
    }

    // The class of a word: kept beside the layout, the bounds save each flush the sums.
    #[inline(always)]
    fn class_at(&self, word: usize) -> Class
        ensures { result ≡ class_by self.now.bounds.values self.now.bounds.rows self.now.bounds.announcements self.now.bounds.done self.now.bounds.texts word }
    {
        let bounds = &self.bounds;
        if word < bounds.values {
            Class::Stamped
        } else if word < bounds.rows {
            Class::Owned
        } else if word < bounds.announcements {
            Class::Bit
        } else if word < bounds.done || word >= bounds.texts {
            Class::Owned
        } else {
            Class::Bit
        }
    }

    // Whether the sheet has the place.
    #[inline(always)]
    fn has(&self, place: Place) -> bool
        ensures { result ≡ is_place self.now.layout place }
    {
        self.layout.contains(place)
    }

    // Whether the place that an access names is one of the sheet.
    #[inline(always)]
    fn names(&self, access: Access<Place>) -> bool
        ensures { result ≡ names_place self.now.layout access }
    {
        match access {
            Access::Nothing | Access::Back => true,
            Access::Load(place) | Access::Flush(place) => self.has(place),
            Access::Store(place, _) | Access::Or(place, _) => self.has(place),
            Access::SwapIf {
                place,
                expected: _,
                value: _,
            } => self.has(place),
        }
    }

    // An access by the number of its word, or none where the sheet has no such place.
    #[inline(always)]
    pub(crate) fn numbered_in(&self, access: Access<Place>) -> Access<usize>
        ensures { result ≡ access_in self.now.layout access }
    {
        if self.names(access) {
            self.numbered(access)
        } else {
            Access::Nothing
        }
    }

    // An access by the number of its word.
    #[inline(always)]
    pub(crate) fn numbered(&self, access: Access<Place>) -> Access<usize>
        requires { NamesPlace self.now.layout access }
        ensures { result ≡ access_at self.now.layout access }
    {
        self.layout.numbered(&self.starts, access)
    }
}

/// A sheet in the second layout, which cannot be migrated.
pub struct Sheet;

impl Structured for Sheet {
    type Key = SheetKey;

    type Doing = Situation;

    type Response = Response;

    ghost use Rattle.ds_structure.specs.Sheet.{sheet};

    ghost structure = { sheet };

    fn words(key: &SheetKey) -> usize {
        key.layout.words()
    }

    fn apart(key: &SheetKey) -> usize {
        key.bounds.records
    }

    fn first_word(key: &SheetKey, word: usize) -> u64 {
        if word == key.bounds.version { 1 } else { 0 }
    }

    #[inline(always)]
    fn class(key: &SheetKey, word: usize) -> Class {
        key.class_at(word)
    }

    fn law(key: &SheetKey) {
        sheets_are_a_structure(key);
    }
}
