use ds_formula::cells::{Cell, Shape};
use ds_layout::place::Place;
use ds_server::answer::{Response, response_line};
use ds_server::desk::{CallRefusal, ListedEdit};
use ds_server::request::LineFault;
use ds_state::answer::Other;
use std::alloc::AllocError;
use std::process::Abort;

// What is said to a line, and the line that says so, for what no session over a sheet of its own is answered.
fn expect_line(rt: &(impl Abort + AllocGlobal), response: &Response, expected: &str) {
    let Some(shape) = Shape::new(2, 2) else {
        assert!(rt; false, "no sheet of 2 by 2");
        return;
    };
    match response_line(rt.alloc(), &shape, response) {
        Ok(line) => assert!(rt; line.as_slice() == expected.as_bytes(), "{expected}"),
        Err(AllocError) => assert!(rt; false, "{expected}"),
    }
}

#[test]
fn overtaken(rt: HostRuntime) {
    let by = Other {
        process: 1,
        number: 0,
    };
    expect_line(
        &rt,
        &Response::Overtaken(3, by),
        "{\"by\":{\"number\":0,\"process\":1},\"number\":3,\"ok\":\"overtaken\"}\n",
    );
}

#[test]
fn unsettled(rt: HostRuntime) {
    expect_line(
        &rt,
        &Response::Unsettled(Place::Mark(3), 1),
        "{\"ok\":\"unsettled\",\"place\":\"mark B2\",\"word\":1}\n",
    );
}

#[test]
fn outcomes(rt: HostRuntime) -> Result<(), AllocError> {
    let edit = ListedEdit {
        process: 1,
        number: 3,
        cell: Cell { column: 0, row: 0 },
        text: Vec::from_slice(rt.alloc(), b"=1+2")?,
    };
    expect_line(
        &rt,
        &Response::Resolved(Some(edit)),
        "{\"edit\":{\"cell\":\"A1\",\"number\":3,\"process\":1,\"text\":\"=1+2\"},\"ok\":\"outcome\",\"outcome\":\"done\"}\n",
    );
    expect_line(
        &rt,
        &Response::Resolved(None),
        "{\"edit\":null,\"ok\":\"outcome\",\"outcome\":\"never\"}\n",
    );
    Ok(())
}

// What a board refuses, by its code and name.
const REFUSALS: [(CallRefusal, &str); 7] = [
    (
        CallRefusal::ProcessTaken,
        "{\"code\":4,\"error\":\"process-taken\"}\n",
    ),
    (
        CallRefusal::Stopped,
        "{\"code\":13,\"error\":\"stopped\"}\n",
    ),
    (
        CallRefusal::RecordsFull,
        "{\"code\":14,\"error\":\"records-full\"}\n",
    ),
    (
        CallRefusal::NoMemory,
        "{\"code\":15,\"error\":\"no-memory\"}\n",
    ),
    (
        CallRefusal::KeyReused,
        "{\"code\":21,\"error\":\"key-reused\"}\n",
    ),
    (CallRefusal::NoEdit, "{\"code\":22,\"error\":\"no-edit\"}\n"),
    (
        CallRefusal::NoHistory,
        "{\"code\":23,\"error\":\"no-history\"}\n",
    ),
];

#[test]
fn refusals(rt: HostRuntime) {
    for (refusal, expected) in REFUSALS {
        expect_line(&rt, &Response::Refused(refusal), expected);
    }
}

#[test]
fn no_memory_for_a_line(rt: HostRuntime) {
    expect_line(
        &rt,
        &Response::Faulted(LineFault::NoMemory),
        "{\"code\":15,\"error\":\"no-memory\"}\n",
    );
}
