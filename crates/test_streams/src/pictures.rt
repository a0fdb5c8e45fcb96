use ds_script_io::streams::Writing;
use ds_trace_picture::script::{Detail, PictureEnd, draw_script};
use test_support::streams::Full;

// A writer that fails, at its first byte or later.
#[test]
fn failing_writers(rt: HostRuntime) {
    for room in [0, 1, 100] {
        for detail in [Detail::Steps, Detail::Brief] {
            let mut writer = Writing::new(Full { room });
            let end = draw_script(rt.alloc(), b"step 0\n", detail, &mut writer);
            assert_eq!(rt; end, PictureEnd::WriteFailed, "{room}");
        }
    }
}
