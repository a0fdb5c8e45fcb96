//! Words brought near before edits store them.

ghost use Rattle.std.specs.Prelude.{◌<◌, ◌≤◌};
ghost use Rattle.ds_layout.specs.Places.{IsPlace};
ghost use Rattle.ds_layout.specs.declared.place.TheConstants.{RECORDS, SECOND_PARTS};

use crate::board::KeptBoard;
use ds_layout::place::{Edition, Place, RECORDS, SECOND_PARTS};
use ds_layout::text::text_parts;

/// For how many records at once their first words are fetched: as many loads wait for memory together.
const FETCHED: usize = 8;

impl KeptBoard {
    // Loads the word at a place. It is no step of a process.
    #[inline(always)]
    fn touch(&self, place: Place)
        requires { IsPlace self.now.layout place }
    {
        self.words.fetch(self.layout.number(place));
    }

    // Loads the words that all edits of the next records store, from this record on.
    fn fetch_records(&self, process: usize, number: usize)
        requires process { process < self.now.layout.processes }
        requires number { number < RECORDS }
    {
        let end = RECORDS.min(number + FETCHED);
        for record in number..end {
            self.touch(Place::Header {
                process,
                number: record,
            });
            self.touch(Place::Text {
                edition: Edition::Second,
                process,
                number: record,
                part: 0,
            });
        }
    }

    // Loads the words of a record that a text of these parts takes beside the first one.
    fn fetch_parts(&self, process: usize, number: usize, parts: usize)
        requires process { process < self.now.layout.processes }
        requires number { number < RECORDS }
        requires parts { parts ≤ SECOND_PARTS }
    {
        for part in 1..parts {
            self.touch(Place::Text {
                edition: Edition::Second,
                process,
                number,
                part,
            });
        }
    }

    /// Loads the words of a process's record that an edit with a text of these bytes is to store, where the record has room
    /// for them, and at each eighth record the first words of the next ones: they lie in the cache when the edit comes to
    /// them. Its stores wait for one another, these loads do not. They are no steps of the process, so no clause can say
    /// whether they were made.
    #[inline(always)]
    pub fn fetch(&self, process: usize, number: usize, bytes: usize)
        requires { process < self.now.layout.processes }
    {
        let parts = text_parts(bytes);
        if number < RECORDS && parts <= SECOND_PARTS {
            if number % FETCHED == 0 {
                self.fetch_records(process, number);
            }
            if parts > 1 {
                self.fetch_parts(process, number, parts);
            }
        }
    }
}
