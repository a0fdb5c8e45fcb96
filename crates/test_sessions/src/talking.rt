//! Sessions in memory, over a sheet of two columns, two rows and two processes.

use ds_core::event::{EditRequest, Event};
use ds_core::take::take;
use ds_formula::cells::{Cell, Shape};
use ds_script_io::streams::{Reading, Writing};
use ds_server::session::{SessionEnd, session};
use ds_state::world::World;
use std::alloc::{AllocError, Global};
use std::process::Abort;

/// A new sheet.
pub fn new_world(alloc: Global) -> Result<World, AllocError> {
    match Shape::new(2, 2) {
        Some(shape) => World::new(alloc, shape, 2),
        None => Err(AllocError),
    }
}

/// A new sheet in the first layout.
pub fn first_world(alloc: Global) -> Result<World, AllocError> {
    match Shape::new(2, 2) {
        Some(shape) => World::first(alloc, shape, 2),
        None => Err(AllocError),
    }
}

/// What a session answers, and how it ends.
pub fn talk(alloc: Global, world: &mut World, lines: &[u8]) -> (Vec<u8>, SessionEnd) {
    let mut reader = Reading::new(lines);
    let mut writer = Writing::new(Vec::new(alloc));
    let end = session(alloc, &mut reader, &mut writer, world);
    (writer.into_inner(), end)
}

/// A session over the sheet answers this, and ends as sessions should.
pub fn expect_talk(
    rt: &(impl Abort + AllocGlobal),
    world: &mut World,
    lines: &str,
    expected: &str,
) {
    let (text, end) = talk(rt.alloc(), world, lines.as_bytes());
    assert_eq!(rt; end, SessionEnd::Ended, "{lines}");
    assert!(rt; text.as_slice() == expected.as_bytes(), "{lines}");
}

/// A process makes n steps.
pub fn steps(alloc: Global, world: &mut World, process: usize, count: usize) {
    for _ in 0..count {
        let _reply = take(alloc, world, &Event::Step(process));
    }
}

/// A process begins an edit of A1 to 7, and makes n of its steps; it has 20.
pub fn edit(
    alloc: Global,
    world: &mut World,
    process: usize,
    count: usize,
) -> Result<(), AllocError> {
    let cell = Cell { column: 0, row: 0 };
    let text = Vec::from_slice(alloc, b"7")?;
    let event = Event::BeginEdit(EditRequest {
        process,
        cell,
        text,
    });
    let _reply = take(alloc, world, &event);
    steps(alloc, world, process, count);
    Ok(())
}
