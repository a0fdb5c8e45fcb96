//! Texts at their limit, and records of a sheet of two columns, two rows and two processes, by hand.

use ds_formula::cells::Shape;
use ds_layout::header::Header;
use ds_layout::layout::Layout;
use ds_layout::place::{Edition, Place};
use ds_layout::sheet_words::SheetWords;
use ds_layout::text::part_word;
use ds_state::shown;
use ds_state::text::Text;
use ds_words::access::Access;
use std::alloc::{AllocError, Global};
use std::test::Fail;

#[test]
fn texts(rt: HostRuntime) {
    assert_eq!(rt; Text::new(&[7; 120]).map(|text| text.len()), Some(120));
    assert_eq!(rt; Text::new(&[7; 121]).map(|text| text.len()), Some(121));
    assert_eq!(rt; Text::new(&[7; 240]).map(|text| text.len()), Some(240));
    assert_eq!(rt; Text::new(&[7; 241]).map(|text| text.len()), None);
    assert_eq!(rt; Text::new(b"").map(|text| text.is_empty()), Some(true));
    let bytes: &[u8] = b"=A1+B2";
    if let Some(text) = Text::new(bytes) {
        assert_eq!(rt; text.as_slice(), bytes);
    }
}

fn store(words: &mut SheetWords, place: Place, value: u64) {
    if words.layout().contains(place) {
        words.perform(1, Access::Store(place, value));
    }
}

// A part of the text of process 1's edit 7.
fn text_place(edition: Edition, part: usize) -> Place {
    Place::Text {
        edition,
        process: 1,
        number: 7,
        part,
    }
}

// The text of that edit's record, as it is read in the layout in which it was written down.
fn written(
    alloc: Global,
    layout: Layout,
    text: &[u8],
    edition: Edition,
) -> Result<Vec<u8>, AllocError> {
    let mut words = SheetWords::new(alloc, layout)?;
    let header = Header {
        cell: 3,
        length: 13,
    };
    let place = Place::Header {
        process: 1,
        number: 7,
    };
    store(&mut words, place, header.word());
    store(&mut words, text_place(edition, 0), part_word(text, 0));
    store(&mut words, text_place(edition, 1), part_word(text, 1));
    if words.layout().processes != 2 {
        return Ok(Vec::new(alloc));
    }
    shown::record_text(&words, alloc, edition, 1, 7)
}

#[test]
fn record(rt: HostRuntime) -> Result<(), Fail> {
    let text: &[u8] = b"=SUM(A1:B2)*2";
    let layout = Shape::new(2, 2).and_then(|shape| Layout::new(shape, 2));
    if let Some(layout) = layout {
        for edition in [Edition::First, Edition::Second] {
            let read = written(rt.alloc(), layout, text, edition)?;
            assert_eq!(rt; read.as_slice(), text);
        }
    }
    Ok(())
}
