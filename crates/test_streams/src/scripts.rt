use ds_script::script::run_script;
use ds_script_io::ending::ScriptEnd;
use ds_script_io::streams::{Reading, Writing};
use test_support::streams::{Failing, Full};

const SCRIPT: &[u8] = b"settle 0\nreport 0\n";

// A reader that fails at its k-th call, for each k: the lines whole before that are carried out.
#[test]
fn failing_readers(rt: HostRuntime) {
    for calls in 0..20usize {
        let mut reader = Reading::new(Failing {
            bytes: SCRIPT,
            calls,
        });
        let mut writer = Writing::new(Vec::new(rt.alloc()));
        let end = run_script(rt.alloc(), &mut reader, &mut writer);
        let text = writer.into_inner();
        let expected: &[u8] = if calls < 9 {
            b""
        } else if calls < 18 {
            b"clean\n"
        } else {
            b"clean\nsettled\n,\n,\n"
        };
        let end_expected = if calls < 19 {
            ScriptEnd::ReadFailed
        } else {
            ScriptEnd::Ended
        };
        assert_eq!(rt; end, end_expected, "{calls}");
        assert!(rt; text.as_slice() == expected, "{calls}");
    }
}

// A writer that fails at its k-th byte, for each k.
#[test]
fn failing_writers(rt: HostRuntime) {
    for room in 0..20usize {
        let mut reader = Reading::new(SCRIPT);
        let mut writer = Writing::new(Full { room });
        let end = run_script(rt.alloc(), &mut reader, &mut writer);
        let expected = if room < 19 {
            ScriptEnd::WriteFailed
        } else {
            ScriptEnd::Ended
        };
        assert_eq!(rt; end, expected, "{room}");
    }
}
