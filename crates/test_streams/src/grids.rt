use ds_a1::notation::Notation;
use ds_grid::ending::GridEnd;
use ds_grid::form::GridForm;
use ds_grid::report::report_grid;
use ds_script_io::streams::{Reading, Writing};
use test_support::streams::{Failing, Full};

const GRID: &[u8] = b"=1+1,3\n";

const FORM: GridForm = GridForm {
    notation: Notation::OpenFormula,
    keeps_labels: false,
};

// A reader that fails at its k-th call, for each k: nothing is written.
#[test]
fn failing_readers(rt: HostRuntime) {
    for calls in 0..10usize {
        let mut reader = Reading::new(Failing { bytes: GRID, calls });
        let mut writer = Writing::new(Vec::new(rt.alloc()));
        let end = report_grid(rt.alloc(), FORM, &mut reader, &mut writer);
        let text = writer.into_inner();
        let (expected, values) = if calls < 8 {
            (GridEnd::ReadFailed, "")
        } else {
            (GridEnd::Ended, "2,3\n")
        };
        assert_eq!(rt; end, expected, "{calls}");
        assert!(rt; text.as_slice() == values.as_bytes(), "{calls}");
    }
}

// A writer that fails at its k-th byte, for each k.
#[test]
fn failing_writers(rt: HostRuntime) {
    for room in 0..8usize {
        let mut reader = Reading::new(GRID);
        let mut writer = Writing::new(Full { room });
        let end = report_grid(rt.alloc(), FORM, &mut reader, &mut writer);
        let expected = if room < 5 {
            GridEnd::WriteFailed
        } else {
            GridEnd::Ended
        };
        assert_eq!(rt; end, expected, "{room}");
    }
}
