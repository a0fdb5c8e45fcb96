use crate::talking::{expect_talk, new_world, talk};
use ds_script_io::streams::{Reading, Writing};
use ds_server::session::{SessionEnd, session};
use std::alloc::AllocError;
use test_support::streams::{Failing, Full};

// Two lines, and what they are answered.
const LINES: &[u8] =
    b"{\"op\":\"join\",\"process\":0}\n{\"op\":\"set\",\"cell\":\"A1\",\"text\":\"1\"}\n";

const JOINED: &[u8] = b"{\"last\":null,\"ok\":\"join\",\"process\":0}\n";

const BOTH: &[u8] =
    b"{\"last\":null,\"ok\":\"join\",\"process\":0}\n{\"number\":0,\"ok\":\"done\"}\n";

// What the next session asks, and what it is answered where the edit was carried out, and where it was not.
const NEXT: &str = "{\"op\":\"join\",\"process\":0}\n{\"op\":\"report\"}\n";

const DONE: &str =
    "{\"last\":{\"cell\":\"A1\",\"number\":0,\"outcome\":\"done\"},\"ok\":\"join\",\"process\":0}\n{\"ok\":\"settled\",\"rows\":[[\"1\",\"\"],[\"\",\"\"]]}\n";

const NONE: &str =
    "{\"last\":null,\"ok\":\"join\",\"process\":0}\n{\"ok\":\"settled\",\"rows\":[[\"\",\"\"],[\"\",\"\"]]}\n";

// How long the first line is, with its line feed, and both.
const FIRST: usize = 26;

const WHOLE: usize = 26 + 36;

// What the lines are answered of which that number of bytes have come.
fn answered(count: usize) -> &'static [u8] {
    if count < FIRST {
        b""
    } else if count < WHOLE {
        JOINED
    } else {
        BOTH
    }
}

// The lines, cut at each byte: a client that goes in mid-line. The next session has the process, and the sheet holds
// the edit just where it was answered.
#[test]
fn cut_lines(rt: HostRuntime) -> Result<(), AllocError> {
    let alloc = rt.alloc();
    assert_eq!(rt; LINES.len(), WHOLE);
    for count in 0..63usize {
        let mut world = new_world(alloc)?;
        let (text, end) = talk(alloc, &mut world, &LINES[..count.min(LINES.len())]);
        assert_eq!(rt; end, SessionEnd::Ended, "{count}");
        assert!(rt; text.as_slice() == answered(count), "{count}");
        expect_talk(
            &rt,
            &mut world,
            NEXT,
            if count < WHOLE { NONE } else { DONE },
        );
    }
    Ok(())
}

// A reader that fails at its k-th call, for each k.
#[test]
fn failing_readers(rt: HostRuntime) -> Result<(), AllocError> {
    let alloc = rt.alloc();
    for calls in 0..65usize {
        let mut world = new_world(alloc)?;
        let mut reader = Reading::new(Failing {
            bytes: LINES,
            calls,
        });
        let mut writer = Writing::new(Vec::new(alloc));
        let end = session(alloc, &mut reader, &mut writer, &mut world);
        let expected = if calls < 63 {
            SessionEnd::ReadFailed
        } else {
            SessionEnd::Ended
        };
        assert_eq!(rt; end, expected, "{calls}");
        assert!(rt;
            writer.into_inner().as_slice() == answered(calls),
            "{calls}"
        );
        expect_talk(
            &rt,
            &mut world,
            NEXT,
            if calls < WHOLE { NONE } else { DONE },
        );
    }
    Ok(())
}

// A writer that fails at its k-th byte, for each k: the line whose answer is lost is carried out, and the next session
// is answered so.
#[test]
fn failing_writers(rt: HostRuntime) -> Result<(), AllocError> {
    let alloc = rt.alloc();
    for room in 0..65usize {
        let mut world = new_world(alloc)?;
        let mut reader = Reading::new(LINES);
        let mut writer = Writing::new(Full { room });
        let end = session(alloc, &mut reader, &mut writer, &mut world);
        let expected = if room <= BOTH.len() {
            SessionEnd::WriteFailed
        } else {
            SessionEnd::Ended
        };
        assert_eq!(rt; end, expected, "{room}");
        expect_talk(
            &rt,
            &mut world,
            NEXT,
            if room <= JOINED.len() { NONE } else { DONE },
        );
    }
    Ok(())
}
