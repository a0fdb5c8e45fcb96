//! Clients of a server of two columns, two rows and two processes: what they are answered, and the sheet at the end.

use crate::serving::{Clients, Served, serve_clients};
use ds_formula::cells::Shape;
use ds_layout::layout::Layout;
use std::test::Fail;

const SHAPE: Shape = Shape {
    columns: 2,
    rows: 2,
};

const LAYOUT: Layout = Layout {
    shape: SHAPE,
    processes: 2,
};

// The answers are these, and the sheet is closed with the seat of each process.
fn is_right(served: &Served, answers: &str) -> bool {
    served.is_closed && served.answers.as_slice() == answers.as_bytes()
}

// What clients say, one after another, with that number of workers; and what they are answered.
#[derive(Clone, Copy)]
struct LoopbackRow {
    workers: usize,
    clients: Clients,
    answers: &'static str,
}

const FIRST: &[u8] =
    b"{\"op\":\"join\",\"process\":0}\n{\"op\":\"set\",\"cell\":\"A1\",\"text\":\"=1+2\"}\n{\"op\":\"report\"}\n{\"op\":\"last\"}\n";

const FIRST_ANSWERS: &str =
    "{\"last\":null,\"ok\":\"join\",\"process\":0}\n{\"number\":0,\"ok\":\"done\"}\n{\"ok\":\"settled\",\"rows\":[[\"3\",\"\"],[\"\",\"\"]]}\n{\"last\":{\"cell\":\"A1\",\"number\":0,\"outcome\":\"done\"},\"ok\":\"last\"}\n";

// A fast client asks for the slow one's process, which is taken; then it gives a cell the numbers from 1 to 20.
const FAST: &[u8] =
    b"{\"op\":\"join\",\"process\":1}\n{\"op\":\"join\",\"process\":0}\n{\"op\":\"set\",\"cell\":\"A1\",\"text\":\"1\"}\n{\"op\":\"set\",\"cell\":\"A1\",\"text\":\"2\"}\n{\"op\":\"set\",\"cell\":\"A1\",\"text\":\"3\"}\n{\"op\":\"set\",\"cell\":\"A1\",\"text\":\"4\"}\n{\"op\":\"set\",\"cell\":\"A1\",\"text\":\"5\"}\n{\"op\":\"set\",\"cell\":\"A1\",\"text\":\"6\"}\n{\"op\":\"set\",\"cell\":\"A1\",\"text\":\"7\"}\n{\"op\":\"set\",\"cell\":\"A1\",\"text\":\"8\"}\n{\"op\":\"set\",\"cell\":\"A1\",\"text\":\"9\"}\n{\"op\":\"set\",\"cell\":\"A1\",\"text\":\"10\"}\n{\"op\":\"set\",\"cell\":\"A1\",\"text\":\"11\"}\n{\"op\":\"set\",\"cell\":\"A1\",\"text\":\"12\"}\n{\"op\":\"set\",\"cell\":\"A1\",\"text\":\"13\"}\n{\"op\":\"set\",\"cell\":\"A1\",\"text\":\"14\"}\n{\"op\":\"set\",\"cell\":\"A1\",\"text\":\"15\"}\n{\"op\":\"set\",\"cell\":\"A1\",\"text\":\"16\"}\n{\"op\":\"set\",\"cell\":\"A1\",\"text\":\"17\"}\n{\"op\":\"set\",\"cell\":\"A1\",\"text\":\"18\"}\n{\"op\":\"set\",\"cell\":\"A1\",\"text\":\"19\"}\n{\"op\":\"set\",\"cell\":\"A1\",\"text\":\"20\"}\n";

const FAST_ANSWERS: &str =
    "{\"last\":null,\"ok\":\"join\",\"process\":1}\n{\"code\":4,\"error\":\"process-taken\"}\n{\"last\":null,\"ok\":\"join\",\"process\":0}\n{\"number\":0,\"ok\":\"done\"}\n{\"number\":1,\"ok\":\"done\"}\n{\"number\":2,\"ok\":\"done\"}\n{\"number\":3,\"ok\":\"done\"}\n{\"number\":4,\"ok\":\"done\"}\n{\"number\":5,\"ok\":\"done\"}\n{\"number\":6,\"ok\":\"done\"}\n{\"number\":7,\"ok\":\"done\"}\n{\"number\":8,\"ok\":\"done\"}\n{\"number\":9,\"ok\":\"done\"}\n{\"number\":10,\"ok\":\"done\"}\n{\"number\":11,\"ok\":\"done\"}\n{\"number\":12,\"ok\":\"done\"}\n{\"number\":13,\"ok\":\"done\"}\n{\"number\":14,\"ok\":\"done\"}\n{\"number\":15,\"ok\":\"done\"}\n{\"number\":16,\"ok\":\"done\"}\n{\"number\":17,\"ok\":\"done\"}\n{\"number\":18,\"ok\":\"done\"}\n{\"number\":19,\"ok\":\"done\"}\n{\"number\":0,\"ok\":\"done\"}\n{\"ok\":\"settled\",\"rows\":[[\"20\",\"21\"],[\"\",\"\"]]}\n";

// A client edits, reads and takes edits back.
const EDITOR: &[u8] =
    b"{\"op\":\"join\",\"process\":\"any\"}\n{\"op\":\"set\",\"cell\":\"A1\",\"text\":\"=1+2\"}\n{\"op\":\"set\",\"cell\":\"B2\",\"text\":\"7\"}\n{\"op\":\"set\",\"cell\":\"A1\",\"text\":\"=[.B2]\"}\n{\"op\":\"get\",\"cell\":\"A1\"}\n{\"op\":\"undo\",\"cell\":\"A1\"}\n{\"op\":\"undo\",\"cell\":\"A1\"}\n{\"op\":\"undo\",\"cell\":\"B1\"}\n{\"op\":\"get\",\"cell\":\"A1\"}\n";

// Somebody reads who joins no process.
const VIEWER: &[u8] =
    b"{\"op\":\"get\",\"cell\":\"A1\"}\n{\"op\":\"get\",\"cell\":\"B1\"}\n{\"op\":\"view\"}\n{\"op\":\"history\",\"from\":0}\n{\"op\":\"history\",\"from\":4}\n{\"op\":\"history\",\"from\":9}\n{\"op\":\"undo\",\"cell\":\"A1\"}\n";

const READ_ANSWERS: &str =
    "{\"last\":null,\"ok\":\"join\",\"process\":0}\n{\"number\":0,\"ok\":\"done\"}\n{\"number\":1,\"ok\":\"done\"}\n{\"number\":2,\"ok\":\"done\"}\n{\"cell\":\"A1\",\"edit\":{\"number\":2,\"process\":0},\"ok\":\"got\",\"text\":\"=[.B2]\",\"value\":\"7\"}\n{\"number\":3,\"ok\":\"done\"}\n{\"number\":4,\"ok\":\"done\"}\n{\"code\":22,\"error\":\"no-edit\"}\n{\"cell\":\"A1\",\"edit\":{\"number\":4,\"process\":0},\"ok\":\"got\",\"text\":\"=[.B2]\",\"value\":\"7\"}\n";

const VIEWED: &str =
    "{\"cell\":\"A1\",\"edit\":{\"number\":4,\"process\":0},\"ok\":\"got\",\"text\":\"=[.B2]\",\"value\":\"7\"}\n{\"cell\":\"B1\",\"edit\":null,\"ok\":\"got\",\"text\":\"\",\"value\":\"\"}\n{\"ok\":\"settled\",\"rows\":[[\"7\",\"\"],[\"\",\"7\"]]}\n{\"edits\":[{\"cell\":\"A1\",\"number\":0,\"process\":0,\"text\":\"=1+2\"},{\"cell\":\"B2\",\"number\":1,\"process\":0,\"text\":\"7\"},{\"cell\":\"A1\",\"number\":2,\"process\":0,\"text\":\"=[.B2]\"},{\"cell\":\"A1\",\"number\":3,\"process\":0,\"text\":\"=1+2\"},{\"cell\":\"A1\",\"number\":4,\"process\":0,\"text\":\"=[.B2]\"}],\"from\":0,\"of\":5,\"ok\":\"history\"}\n{\"edits\":[{\"cell\":\"A1\",\"number\":4,\"process\":0,\"text\":\"=[.B2]\"}],\"from\":4,\"of\":5,\"ok\":\"history\"}\n{\"edits\":[],\"from\":9,\"of\":5,\"ok\":\"history\"}\n{\"code\":6,\"error\":\"not-joined\"}\n";

const ROWS: [LoopbackRow; 6] = [
    LoopbackRow {
        workers: 0,
        clients: Clients::Each(&[FIRST]),
        answers: FIRST_ANSWERS,
    },
    // A worker has process 1.
    LoopbackRow {
        workers: 1,
        clients: Clients::Each(&[
            b"{\"op\":\"join\",\"process\":1}\n{\"op\":\"join\",\"process\":2}\n{\"op\":\"report\"}\n",
            b"{\"op\":\"join\",\"process\":0}\n{\"op\":\"join\",\"process\":0}\n",
        ]),
        answers: "{\"code\":4,\"error\":\"process-taken\"}\n{\"code\":3,\"error\":\"bad-field\"}\n{\"code\":6,\"error\":\"not-joined\"}\n{\"last\":null,\"ok\":\"join\",\"process\":0}\n{\"code\":7,\"error\":\"already-joined\"}\n",
    },
    // The first client goes in mid-line; its process is free again, and says what it has done.
    LoopbackRow {
        workers: 0,
        clients: Clients::Each(&[
            b"{\"op\":\"join\",\"process\":0}\n{\"op\":\"set\",\"cell\":\"B2\",\"text\":\"7\"}\n{\"op\":\"set\",\"cell\":\"A1\",\"te",
            b"{\"op\":\"join\",\"process\":0}\n{\"op\":\"report\"}\n",
        ]),
        answers: "{\"last\":null,\"ok\":\"join\",\"process\":0}\n{\"number\":0,\"ok\":\"done\"}\n{\"last\":{\"cell\":\"B2\",\"number\":0,\"outcome\":\"done\"},\"ok\":\"join\",\"process\":0}\n{\"ok\":\"settled\",\"rows\":[[\"\",\"\"],[\"\",\"7\"]]}\n",
    },
    // Nothing is said, and then nothing that is JSON.
    LoopbackRow {
        workers: 0,
        clients: Clients::Each(&[b"", b"\n{\n\xff\n[]\n"]),
        answers: "{\"code\":1,\"error\":\"not-json\"}\n{\"code\":1,\"error\":\"not-json\"}\n{\"code\":1,\"error\":\"not-json\"}\n{\"code\":3,\"error\":\"bad-field\"}\n",
    },
    // While the slow client waits, the fast one makes twenty edits and ends.
    LoopbackRow {
        workers: 0,
        clients: Clients::Beside {
            first: b"{\"op\":\"join\",\"process\":1}\n",
            fast: FAST,
            rest: b"{\"op\":\"set\",\"cell\":\"B1\",\"text\":\"=[.A1]+1\"}\n{\"op\":\"report\"}\n",
        },
        answers: FAST_ANSWERS,
    },
    // The first client reads nothing but the answer to its join. Its process is free again, and its edit stands.
    LoopbackRow {
        workers: 0,
        clients: Clients::Unread {
            lines: b"{\"op\":\"set\",\"cell\":\"B2\",\"text\":\"7\"}\n{\"op\":\"report\"}\n",
            join: b"{\"op\":\"join\",\"process\":0}\n",
            rest: b"{\"op\":\"report\"}\n",
        },
        answers: "{\"last\":{\"cell\":\"B2\",\"number\":0,\"outcome\":\"done\"},\"ok\":\"join\",\"process\":0}\n{\"ok\":\"settled\",\"rows\":[[\"\",\"\"],[\"\",\"7\"]]}\n",
    },
];

#[test]
fn serve_loopback(rt: HostRuntime) -> Result<(), Fail> {
    let alloc = rt.alloc();
    for row in ROWS {
        let served = serve_clients(&rt, alloc, LAYOUT, row.workers, row.clients)?;
        let got = str::from_utf8(served.answers.as_slice()).unwrap_or("?");
        assert!(rt; is_right(&served, row.answers), "{got}");
    }
    Ok(())
}

// A client edits, reads and takes edits back; when it has gone, somebody reads who joins no process, while a worker has the
// other one.
#[test]
fn reads_need_no_process(rt: HostRuntime) -> Result<(), Fail> {
    let alloc = rt.alloc();
    let served = serve_clients(&rt, alloc, LAYOUT, 1, Clients::Each(&[EDITOR, VIEWER]))?;
    let got = str::from_utf8(served.answers.as_slice()).unwrap_or("?");
    assert!(rt;
        got.starts_with(READ_ANSWERS) && got.ends_with(VIEWED),
        "{got}"
    );
    assert!(rt; served.is_closed && got.len() == READ_ANSWERS.len() + VIEWED.len());
    Ok(())
}

// One of many clients, which makes one edit.
const ONE: &[u8] =
    b"{\"op\":\"join\",\"process\":0}\n{\"op\":\"set\",\"cell\":\"A1\",\"text\":\"1\"}\n";

const MANY: [&[u8]; 300] = [ONE; 300];

// 300 clients one after another, each with an edit by the same process: the sheet has room for 256 of them, so the server goes
// over to a new sheet meanwhile. The last one's edit is the 300th, and the sheet closes.
#[test]
fn three_hundred_clients_share(rt: HostRuntime) -> Result<(), Fail> {
    let alloc = rt.alloc();
    let served = serve_clients(&rt, alloc, LAYOUT, 1, Clients::Each(&MANY))?;
    assert!(rt; served.is_closed && served.answers.as_slice().ends_with(LAST_OF_MANY));
    Ok(())
}

const LAST_OF_MANY: &[u8] = b"{\"number\":299,\"ok\":\"done\"}\n";
