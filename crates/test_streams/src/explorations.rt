use ds_explore::exploration::explored;
use ds_explore::explore::{ExploreEnd, explore};
use ds_explore::options::{Options, Watcher};
use ds_explore_summary::json::lines;
use ds_explore_summary::summary::summary;
use ds_script_io::streams::Writing;
use std::str::from_utf8;
use test_support::streams::Full;

// Steps alone.
const STEPS: Options = Options {
    crashes: false,
    stops: false,
    evictions: false,
    most: 1_000_000,
};

// Keeps the last number of states that it was shown.
#[derive(Drop)]
struct Last {
    states: usize,
}

impl Watcher for Last {
    fn found(&mut self, states: usize) {
        self.states = states;
    }
}

// Fewer states than there are: an edit of a number has 21.
#[test]
fn too_few_states(rt: HostRuntime) {
    for most in 0..23usize {
        let options = Options { most, ..STEPS };
        let mut writer = Writing::new(Vec::new(rt.alloc()));
        let mut last = Last { states: 0 };
        let script = b"begin 0 set A1 7\n";
        let end = explore(rt.alloc(), script, options, &mut writer, &mut last);
        let expected = if most < 21 {
            ExploreEnd::TooManyStates
        } else {
            ExploreEnd::Ended
        };
        assert_eq!(rt; end, expected, "{most}");
        let text = writer.into_inner();
        let text = from_utf8(&text).unwrap_or("");
        assert!(rt; text.starts_with("states "), "{most}");
        assert!(rt; most < 21 || last.states == 21, "{most}");
    }
}

// A writer that fails at its k-th byte, for some of a text of 152 bytes, and at its flush.
#[test]
fn failing_writers(rt: HostRuntime) {
    for room in [0, 1, 7, 70, 151, 152, 153] {
        let mut writer = Writing::new(Full { room });
        let mut last = Last { states: 0 };
        let end = explore(rt.alloc(), b"set 0 A1 7\n", STEPS, &mut writer, &mut last);
        let expected = if room < 153 {
            ExploreEnd::WriteFailed
        } else {
            ExploreEnd::Ended
        };
        assert_eq!(rt; end, expected, "{room}");
    }
}

// What may be reported after an edit of a number, with a crash at each of its states or none.
const ENDINGS: &str = "states 21\norders 22\noutcomes 5\nendings 3\nnothing is wrong\n
ending 1: orders 9, with a crash or without one\noutcomes 1 2 3\n0 last 0 A1 done\n1 nothing\nclean\nsettled\n7,\n,\n
ending 2: orders 4, with a crash alone\noutcomes 4\n0 last 0 A1 not-done\n1 nothing\nclean\nsettled\n,\n,\n
ending 3: orders 9, with a crash alone\noutcomes 5\n0 nothing\n1 nothing\nclean\nsettled\n,\n,\n";

// The figures of the same, as JSON.
const FIGURES: &str =
    "{\"cut\":false,\"endless\":false,\"found\":{\"orders\":\"22\",\"outcomes\":5,\"states\":21},\"wrong\":false}\n";

#[test]
fn endings(rt: HostRuntime) {
    let options = Options {
        crashes: true,
        ..STEPS
    };
    let mut last = Last { states: 0 };
    let found = explored(rt.alloc(), b"begin 0 set A1 7\n", options, &mut last);
    let Ok(exploration) = found else {
        assert!(rt; false, "an exploration");
        return;
    };
    let text = summary(rt.alloc(), &exploration).unwrap_or(Vec::new(rt.alloc()));
    assert_eq!(rt; from_utf8(&text).unwrap_or(""), ENDINGS, "at a glance");
    let text = lines(rt.alloc(), &exploration).unwrap_or(Vec::new(rt.alloc()));
    let text = from_utf8(&text).unwrap_or("");
    assert!(rt; text.starts_with(FIGURES), "the figures");
    assert_eq!(rt; text.split('\n').count(), 7, "a line for each outcome");
}
