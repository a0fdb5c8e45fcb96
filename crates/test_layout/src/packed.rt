//! Words by hand, for a sheet of two columns, two rows and two processes.

use ds_formula::cells::Shape;
use ds_layout::announcement::{Announcement, Phase};
use ds_layout::head::Head;
use ds_layout::header::Header;
use ds_layout::layout::Layout;
use ds_layout::mark::{Mark, State};
use ds_layout::place::{Edition, Place};
use ds_layout::sheet_words::SheetWords;
use ds_layout::stored::{Kind, Stored};
use ds_layout::text::{part_bytes, part_word};
use std::test::Fail;

fn layout(columns: usize, rows: usize, processes: usize) -> Option<Layout> {
    Layout::new(Shape::new(columns, rows)?, processes)
}

fn number(columns: usize, rows: usize, processes: usize, place: Place) -> Option<usize> {
    let layout = layout(columns, rows, processes)?;
    if layout.contains(place) {
        Some(layout.number(place))
    } else {
        None
    }
}

#[test]
fn numbers(rt: HostRuntime) {
    let places = [
        (Place::Version, Some(0)),
        (Place::Head(0), Some(1)),
        (Place::Mark(0), Some(5)),
        (Place::Value(3), Some(12)),
        (Place::Kind(0), Some(13)),
        (Place::Index { row: 3, part: 0 }, Some(20)),
        (Place::Announce(1), Some(22)),
        (
            Place::Header {
                process: 1,
                number: 255,
            },
            Some(534),
        ),
        (
            Place::Text {
                edition: Edition::First,
                process: 0,
                number: 1,
                part: 14,
            },
            Some(564),
        ),
        (
            Place::Text {
                edition: Edition::Second,
                process: 0,
                number: 1,
                part: 29,
            },
            Some(8282),
        ),
        (
            Place::Done {
                process: 1,
                part: 3,
            },
            Some(8222),
        ),
        (Place::Head(4), None),
        (Place::Index { row: 0, part: 1 }, None),
        (
            Place::Text {
                edition: Edition::First,
                process: 1,
                number: 256,
                part: 0,
            },
            None,
        ),
        (
            Place::Text {
                edition: Edition::First,
                process: 1,
                number: 0,
                part: 15,
            },
            None,
        ),
        (
            Place::Text {
                edition: Edition::Second,
                process: 1,
                number: 255,
                part: 30,
            },
            None,
        ),
        (
            Place::Done {
                process: 2,
                part: 0,
            },
            None,
        ),
    ];
    for (place, wanted) in places {
        assert_eq!(rt; number(2, 2, 2, place), wanted);
    }
    assert_eq!(rt;
        number(
            16,
            64,
            8,
            Place::Done {
                process: 7,
                part: 3
            }
        ),
        Some(53288)
    );
    assert_eq!(rt;
        number(
            16,
            64,
            8,
            Place::Text {
                edition: Edition::Second,
                process: 7,
                number: 255,
                part: 29
            }
        ),
        Some(114728)
    );
}

#[test]
fn words(rt: HostRuntime) {
    let head = Head {
        stamp: 2,
        process: 1,
        number: 0,
    };
    assert_eq!(rt; head.word(), 131328);
    assert_eq!(rt; Head::read(131328, 2), Some(head));
    assert_eq!(rt; Head::read(131328, 1), None);
    assert_eq!(rt; Head::read(256, 2), None);
    let marks = [
        (1, State::Marked),
        (34, State::Held(0)),
        (35, State::Held(0)),
        (64, State::Clean),
    ];
    for (word, state) in marks {
        assert_eq!(rt; Mark::read(word, 2).state(), state);
        assert_eq!(rt; Mark::read(word, 2).word(), word);
    }
    assert_eq!(rt; Mark::read(39, 2).state(), State::Marked);
    assert_eq!(rt; Mark::read(38, 2).state(), State::Clean);
    let announcements = [
        (5, Some(Phase::Pending)),
        (6, Some(Phase::Done)),
        (7, Some(Phase::NotDone)),
        (4, None),
        (3, None),
        (1029, None),
    ];
    for (word, phase) in announcements {
        let wanted = phase.map(|phase| Announcement { number: 0, phase });
        assert_eq!(rt; Announcement::read(word), wanted);
    }
    let header = Header { cell: 3, length: 5 };
    assert_eq!(rt; header.word(), 773);
    assert_eq!(rt; Header::read(773, 4), Some(header));
    assert_eq!(rt; Header::read(773, 3), None);
    assert_eq!(rt; part_word(b"=1+2", 0), 841691453);
    assert_eq!(rt; part_word(b"=1+2", 1), 0);
    assert_eq!(rt; part_bytes(841691453), [0x3d, 0x31, 0x2b, 0x32, 0, 0, 0, 0]);
}

#[test]
fn shown(rt: HostRuntime) {
    let minus_one = Stored {
        kind: Kind::Number,
        height: 2,
        value: -1,
    };
    assert_eq!(rt; minus_one.kind_word(), 17);
    assert_eq!(rt; minus_one.value_word(), u64::MAX);
    assert_eq!(rt; Stored::read(u64::MAX, 17, 4), minus_one);
    let kinds = [
        (16, Kind::Blank, 2),
        (18, Kind::DivZero, 2),
        (19, Kind::Num, 2),
        (36, Kind::Circular, 4),
        (5, Kind::Circular, 4),
        (33, Kind::Circular, 4),
    ];
    for (word, kind, height) in kinds {
        let wanted = Stored {
            kind,
            height,
            value: 0,
        };
        assert_eq!(rt; Stored::read(7, word, 4), wanted);
    }
}

#[test]
fn largest(rt: HostRuntime) -> Result<(), Fail> {
    if let Some(layout) = layout(16, 64, 8) {
        let words = SheetWords::new(rt.alloc(), layout)?;
        assert_eq!(rt; words.word(Place::Version).cached, 0);
        assert_eq!(rt; layout.words(), 114729);
    }
    Ok(())
}
