// Sessions beside calls of another process, made by events on the sheet.

use crate::talking::{edit, expect_talk, first_world, new_world, steps};
use ds_core::event::Event;
use ds_core::take::take;
use ds_formula::cells::Cell;
use std::alloc::AllocError;

// The four calls of a session, on a new sheet of its own.
#[test]
fn four_lines(rt: HostRuntime) -> Result<(), AllocError> {
    let alloc = rt.alloc();
    let mut world = new_world(alloc)?;
    expect_talk(
        &rt,
        &mut world,
        "{\"op\":\"join\",\"process\":0}\n{\"op\":\"set\",\"cell\":\"A1\",\"text\":\"=1+2\"}\n{\"op\":\"report\"}\n{\"op\":\"last\"}\n",
        "{\"last\":null,\"ok\":\"join\",\"process\":0}\n{\"number\":0,\"ok\":\"done\"}\n{\"ok\":\"settled\",\"rows\":[[\"3\",\"\"],[\"\",\"\"]]}\n{\"last\":{\"cell\":\"A1\",\"number\":0,\"outcome\":\"done\"},\"ok\":\"last\"}\n",
    );
    Ok(())
}

// Some steps of an edit by process 1, whether a crash comes then, and what two lines are answered.
const BESIDES: [(usize, bool, &str, &str); 4] = [
    // It is in a call.
    (
        10,
        false,
        "{\"op\":\"join\",\"process\":1}\n{\"op\":\"last\"}\n",
        "{\"code\":4,\"error\":\"process-taken\"}\n{\"code\":6,\"error\":\"not-joined\"}\n",
    ),
    // The announcement of process 1 is not at rest.
    (
        10,
        false,
        "{\"op\":\"join\",\"process\":0}\n{\"op\":\"report\"}\n",
        "{\"last\":null,\"ok\":\"join\",\"process\":0}\n{\"ok\":\"unsettled\",\"place\":\"announce 1\",\"word\":5}\n",
    ),
    // It was announced, and is not linearized.
    (
        10,
        true,
        "{\"op\":\"join\",\"process\":1}\n{\"op\":\"report\"}\n",
        "{\"last\":{\"cell\":\"A1\",\"number\":0,\"outcome\":\"not-done\"},\"ok\":\"join\",\"process\":1}\n{\"ok\":\"settled\",\"rows\":[[\"\",\"\"],[\"\",\"\"]]}\n",
    ),
    // It is linearized, though it was not answered.
    (
        16,
        true,
        "{\"op\":\"join\",\"process\":1}\n{\"op\":\"report\"}\n",
        "{\"last\":{\"cell\":\"A1\",\"number\":0,\"outcome\":\"done\"},\"ok\":\"join\",\"process\":1}\n{\"ok\":\"settled\",\"rows\":[[\"7\",\"\"],[\"\",\"\"]]}\n",
    ),
];

#[test]
fn beside_an_edit(rt: HostRuntime) -> Result<(), AllocError> {
    let alloc = rt.alloc();
    for (count, crashes, lines, expected) in BESIDES {
        let mut world = new_world(alloc)?;
        edit(alloc, &mut world, 1, count)?;
        if crashes {
            let _reply = take(alloc, &mut world, &Event::Crash);
        }
        expect_talk(&rt, &mut world, lines, expected);
    }
    Ok(())
}

// Process 0 migrates the sheet: no process can be joined, its own neither. After the migration each can be.
#[test]
fn beside_a_migration(rt: HostRuntime) -> Result<(), AllocError> {
    let alloc = rt.alloc();
    let mut world = first_world(alloc)?;
    let _crashed = take(alloc, &mut world, &Event::Crash);
    let _begun = take(alloc, &mut world, &Event::BeginMigrate(0));
    steps(alloc, &mut world, 0, 9);
    for process in 0..2usize {
        let lines = format!(in alloc; "{{\"op\":\"join\",\"process\":{process}}}\n")?;
        let expected = "{\"code\":4,\"error\":\"process-taken\"}\n";
        expect_talk(&rt, &mut world, lines.as_str(), expected);
    }
    steps(alloc, &mut world, 0, 30_725);
    for process in 0..2usize {
        let lines = format!(in alloc; "{{\"op\":\"join\",\"process\":{process}}}\n")?;
        let expected = format!(in alloc;
            "{{\"last\":null,\"ok\":\"join\",\"process\":{process}}}\n"
        )?;
        expect_talk(&rt, &mut world, lines.as_str(), expected.as_str());
    }
    Ok(())
}

// A cell that process 1 works on is held: the settle leaves it, and the report names it.
#[test]
fn beside_work(rt: HostRuntime) -> Result<(), AllocError> {
    let alloc = rt.alloc();
    let mut world = new_world(alloc)?;
    edit(alloc, &mut world, 1, 20)?;
    let cell = Cell { column: 0, row: 0 };
    let _reply = take(alloc, &mut world, &Event::BeginWork(1, cell));
    steps(alloc, &mut world, 1, 2);
    expect_talk(
        &rt,
        &mut world,
        "{\"op\":\"join\",\"process\":0}\n{\"op\":\"report\"}\n",
        "{\"last\":null,\"ok\":\"join\",\"process\":0}\n{\"ok\":\"unsettled\",\"place\":\"mark A1\",\"word\":36}\n",
    );
    Ok(())
}
