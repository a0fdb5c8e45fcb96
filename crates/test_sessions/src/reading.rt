// Sessions that read without a process, and that take back edits.

use crate::talking::{edit, expect_talk, new_world};
use std::alloc::AllocError;

// Lines, and what each is answered on a sheet of its own, one after another.
const TALK: [(&str, &str); 22] = [
    (
        "{\"op\":\"view\"}",
        "{\"ok\":\"settled\",\"rows\":[[\"\",\"\"],[\"\",\"\"]]}",
    ),
    (
        "{\"op\":\"get\",\"cell\":\"a1\"}",
        "{\"cell\":\"A1\",\"edit\":null,\"ok\":\"got\",\"text\":\"\",\"value\":\"\"}",
    ),
    (
        "{\"op\":\"history\",\"from\":0}",
        "{\"edits\":[],\"from\":0,\"of\":0,\"ok\":\"history\"}",
    ),
    (
        "{\"op\":\"undo\",\"cell\":\"A1\"}",
        "{\"code\":6,\"error\":\"not-joined\"}",
    ),
    (
        "{\"op\":\"join\",\"process\":\"some\"}",
        "{\"code\":3,\"error\":\"bad-field\"}",
    ),
    (
        "{\"op\":\"join\",\"process\":\"any\"}",
        "{\"last\":null,\"ok\":\"join\",\"process\":1}",
    ),
    (
        "{\"op\":\"undo\",\"cell\":\"A1\"}",
        "{\"code\":22,\"error\":\"no-edit\"}",
    ),
    (
        "{\"op\":\"set\",\"cell\":\"A1\",\"text\":\"7\"}",
        "{\"number\":0,\"ok\":\"done\"}",
    ),
    (
        "{\"op\":\"set\",\"cell\":\"B1\",\"text\":\"=[.A1]\"}",
        "{\"number\":1,\"ok\":\"done\"}",
    ),
    (
        "{\"op\":\"set\",\"cell\":\"A1\",\"text\":\"=1+2\"}",
        "{\"number\":2,\"ok\":\"done\"}",
    ),
    (
        "{\"op\":\"get\",\"cell\":\"B1\"}",
        "{\"cell\":\"B1\",\"edit\":{\"number\":1,\"process\":1},\"ok\":\"got\",\"text\":\"=[.A1]\",\"value\":\"3\"}",
    ),
    (
        "{\"op\":\"undo\",\"cell\":\"A1\"}",
        "{\"number\":3,\"ok\":\"done\"}",
    ),
    (
        "{\"op\":\"get\",\"cell\":\"A1\"}",
        "{\"cell\":\"A1\",\"edit\":{\"number\":3,\"process\":1},\"ok\":\"got\",\"text\":\"7\",\"value\":\"7\"}",
    ),
    (
        "{\"op\":\"undo\",\"cell\":\"A1\"}",
        "{\"number\":4,\"ok\":\"done\"}",
    ),
    (
        "{\"op\":\"undo\",\"cell\":\"B1\"}",
        "{\"number\":5,\"ok\":\"done\"}",
    ),
    (
        "{\"op\":\"view\"}",
        "{\"ok\":\"settled\",\"rows\":[[\"3\",\"\"],[\"\",\"\"]]}",
    ),
    (
        "{\"op\":\"get\",\"cell\":\"B1\"}",
        "{\"cell\":\"B1\",\"edit\":{\"number\":5,\"process\":1},\"ok\":\"got\",\"text\":\"\",\"value\":\"\"}",
    ),
    (
        "{\"op\":\"history\",\"from\":1}",
        "{\"edits\":[{\"cell\":\"B1\",\"number\":1,\"process\":1,\"text\":\"=[.A1]\"},{\"cell\":\"A1\",\"number\":2,\"process\":1,\"text\":\"=1+2\"},{\"cell\":\"A1\",\"number\":3,\"process\":1,\"text\":\"7\"},{\"cell\":\"A1\",\"number\":4,\"process\":1,\"text\":\"=1+2\"},{\"cell\":\"B1\",\"number\":5,\"process\":1,\"text\":\"\"}],\"from\":1,\"of\":6,\"ok\":\"history\"}",
    ),
    (
        "{\"op\":\"history\",\"from\":6}",
        "{\"edits\":[],\"from\":6,\"of\":6,\"ok\":\"history\"}",
    ),
    (
        "{\"op\":\"history\",\"from\":18446744073709551615}",
        "{\"edits\":[],\"from\":18446744073709551615,\"of\":6,\"ok\":\"history\"}",
    ),
    (
        "{\"op\":\"history\"}",
        "{\"code\":3,\"error\":\"bad-field\"}",
    ),
    (
        "{\"op\":\"get\",\"cell\":\"C1\"}",
        "{\"code\":3,\"error\":\"bad-field\"}",
    ),
];

#[test]
fn reads_and_takes_back(rt: HostRuntime) -> Result<(), AllocError> {
    let alloc = rt.alloc();
    let mut world = new_world(alloc)?;
    let (mut lines, mut expected) = (String::new(alloc), String::new(alloc));
    for (line, answer) in TALK {
        write!(lines, "{line}\n")?;
        write!(expected, "{answer}\n")?;
    }
    expect_talk(&rt, &mut world, lines.as_str(), expected.as_str());
    Ok(())
}

// Keys, of which a sheet of its own keeps none: a text that is a key is refused for that, any other as a bad field.
const KEYS: [(&str, &str); 9] = [
    (
        "{\"op\":\"outcome\",\"key\":\"a-1\"}",
        "{\"code\":23,\"error\":\"no-history\"}",
    ),
    (
        "{\"op\":\"outcome\"}",
        "{\"code\":3,\"error\":\"bad-field\"}",
    ),
    (
        "{\"op\":\"outcome\",\"key\":\"\"}",
        "{\"code\":3,\"error\":\"bad-field\"}",
    ),
    (
        "{\"op\":\"outcome\",\"key\":\"a 1\"}",
        "{\"code\":3,\"error\":\"bad-field\"}",
    ),
    (
        "{\"op\":\"set\",\"cell\":\"A1\",\"key\":\"a-1\",\"text\":\"7\"}",
        "{\"code\":6,\"error\":\"not-joined\"}",
    ),
    (
        "{\"op\":\"join\",\"process\":0}",
        "{\"last\":null,\"ok\":\"join\",\"process\":0}",
    ),
    (
        "{\"op\":\"set\",\"cell\":\"A1\",\"key\":\"a-1\",\"text\":\"7\"}",
        "{\"code\":23,\"error\":\"no-history\"}",
    ),
    (
        "{\"op\":\"set\",\"cell\":\"A1\",\"key\":7,\"text\":\"7\"}",
        "{\"code\":3,\"error\":\"bad-field\"}",
    ),
    (
        "{\"op\":\"report\"}",
        "{\"ok\":\"settled\",\"rows\":[[\"\",\"\"],[\"\",\"\"]]}",
    ),
];

#[test]
fn knows_keys(rt: HostRuntime) -> Result<(), AllocError> {
    let alloc = rt.alloc();
    let mut world = new_world(alloc)?;
    let (mut lines, mut expected) = (String::new(alloc), String::new(alloc));
    for (line, answer) in KEYS {
        write!(lines, "{line}\n")?;
        write!(expected, "{answer}\n")?;
    }
    expect_talk(&rt, &mut world, lines.as_str(), expected.as_str());
    Ok(())
}

// A key has 64 characters at most.
#[test]
fn long_keys(rt: HostRuntime) -> Result<(), AllocError> {
    let alloc = rt.alloc();
    let mut world = new_world(alloc)?;
    for (count, expected) in [
        (64usize, "{\"code\":23,\"error\":\"no-history\"}\n"),
        (65, "{\"code\":3,\"error\":\"bad-field\"}\n"),
    ] {
        let line = format!(in alloc; "{{\"op\":\"outcome\",\"key\":\"{:k>count$}\"}}\n", 'k')?;
        expect_talk(&rt, &mut world, line.as_str(), expected);
    }
    Ok(())
}

// At most 100 edits are listed at once.
#[test]
fn lists_a_hundred(rt: HostRuntime) -> Result<(), AllocError> {
    let alloc = rt.alloc();
    let mut world = new_world(alloc)?;
    let mut lines = format!(in alloc; "{{\"op\":\"join\",\"process\":0}}\n")?;
    let mut expected = format!(in alloc; "{{\"last\":null,\"ok\":\"join\",\"process\":0}}\n")?;
    for number in 0..102usize {
        write!(
            lines,
            "{{\"op\":\"set\",\"cell\":\"A1\",\"text\":\"{number}\"}}\n"
        )?;
        write!(expected, "{{\"number\":{number},\"ok\":\"done\"}}\n")?;
    }
    lines.push_str("{\"op\":\"history\",\"from\":1}\n")?;
    expected.push_str("{\"edits\":[")?;
    for number in 1..101usize {
        let comma = if number == 1 { "" } else { "," };
        write!(
            expected,
            "{comma}{{\"cell\":\"A1\",\"number\":{number},\"process\":0,\"text\":\"{number}\"}}"
        )?;
    }
    expected.push_str("],\"from\":1,\"of\":102,\"ok\":\"history\"}\n")?;
    expect_talk(&rt, &mut world, lines.as_str(), expected.as_str());
    Ok(())
}

// Process 1 is in a call: any process is the other one, and a report names the announcement. With both in one there is none.
#[test]
fn beside_edits(rt: HostRuntime) -> Result<(), AllocError> {
    let alloc = rt.alloc();
    let mut world = new_world(alloc)?;
    edit(alloc, &mut world, 1, 10)?;
    expect_talk(
        &rt,
        &mut world,
        "{\"op\":\"get\",\"cell\":\"A1\"}\n{\"op\":\"join\",\"process\":\"any\"}\n",
        "{\"ok\":\"unsettled\",\"place\":\"announce 1\",\"word\":5}\n{\"last\":null,\"ok\":\"join\",\"process\":0}\n",
    );
    edit(alloc, &mut world, 0, 1)?;
    expect_talk(
        &rt,
        &mut world,
        "{\"op\":\"view\"}\n{\"op\":\"get\",\"cell\":\"A1\"}\n{\"op\":\"join\",\"process\":\"any\"}\n{\"op\":\"history\",\"from\":0}\n",
        "{\"code\":4,\"error\":\"process-taken\"}\n{\"code\":4,\"error\":\"process-taken\"}\n{\"code\":4,\"error\":\"process-taken\"}\n{\"edits\":[],\"from\":0,\"of\":0,\"ok\":\"history\"}\n",
    );
    Ok(())
}
