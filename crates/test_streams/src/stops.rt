use ds_script_io::ending::ScriptEnd;
use ds_script_io::streams::Writing;
use ds_script_stops::stops::stop_at_each;
use test_support::streams::Full;

// A writer that fails at its k-th byte, for each k of two blocks of 45 bytes.
#[test]
fn failing_writers(rt: HostRuntime) {
    for room in 0..92usize {
        let mut writer = Writing::new(Full { room });
        let script = b"begin 0 set A1 7\nstep 0\nstep 0\n";
        let end = stop_at_each(rt.alloc(), script, &mut writer);
        let expected = if room < 91 {
            ScriptEnd::WriteFailed
        } else {
            ScriptEnd::Ended
        };
        assert_eq!(rt; end, expected, "{room}");
    }
}
