//! Which side of a word is newer, by the word's class.

use ds_words::access::{Access, Class};
use ds_words::words::Words;
use std::alloc::{AllocError, Global};
use std::test::Fail;

#[derive(Clone, Copy)]
enum Event {
    By(usize, Access<usize>),
    Evict,
    Crash,
}

fn happen(words: &mut Words, event: Event) {
    match event {
        Event::By(process, access) => {
            if words.can_perform(process, access) {
                words.perform(process, access);
            }
        }
        Event::Evict => {
            if words.has_word(0) {
                words.evict(0);
            }
        }
        Event::Crash => words.crash(),
    }
}

// Word 0, of this class, and whether process 0 has nothing buffered, after the events.
fn after(alloc: Global, class: Class, events: &[Event]) -> Result<(u64, u64, bool), AllocError> {
    let mut words = Words::new(alloc, vec![in alloc; class; 1]?, 2)?;
    for event in events {
        happen(&mut words, *event);
    }
    if words.has_word(0) {
        let word = words.word(0);
        Ok((word.cached, word.persisted, !words.has_entry(0)))
    } else {
        Ok((0, 0, false))
    }
}

const STAMPED: [Event; 6] = [
    Event::By(
        0,
        Access::SwapIf {
            place: 0,
            expected: 0,
            value: 5,
        },
    ),
    Event::By(0, Access::Flush(0)),
    Event::By(
        1,
        Access::SwapIf {
            place: 0,
            expected: 5,
            value: 9,
        },
    ),
    Event::By(1, Access::Flush(0)),
    Event::By(1, Access::Back),
    Event::By(0, Access::Back),
];

const BITS: [Event; 5] = [
    Event::By(0, Access::Or(0, 1)),
    Event::By(0, Access::Flush(0)),
    Event::By(0, Access::Or(0, 2)),
    Event::Evict,
    Event::By(0, Access::Back),
];

const OWNED: [Event; 3] = [
    Event::By(0, Access::Store(0, 7)),
    Event::By(0, Access::Flush(0)),
    Event::Crash,
];

#[test]
fn newer_by_class(rt: HostRuntime) -> Result<(), Fail> {
    let alloc = rt.alloc();
    assert_eq!(rt; after(alloc, Class::Stamped, &STAMPED)?, (9, 9, true));
    assert_eq!(rt; after(alloc, Class::Bit, &BITS)?, (3, 3, true));
    assert_eq!(rt; after(alloc, Class::Owned, &OWNED)?, (0, 0, true));
    Ok(())
}
