//! Which stops are reported.

ghost use Rattle.std.specs.Prelude.{◌≡◌, ◌≤◌, ◌↔◌, IsTrue};
ghost use Rattle.ds_script_stops.specs.StopBlocks.{IsIn, all_stops};

/// Stops of a script, by how many steps stand before each, from 1 on.
#[derive(Clone, Copy, Debug, PartialEq, Eq)]
pub struct StopRange {
    /// The first one. 0 is as good as 1.
    pub first: u64,
    /// The last one, if there is one: none is in a range whose last one stands before its first.
    pub last: Option<u64>,
}

impl StopRange {
    /// Every stop.
    pub const ALL: StopRange = StopRange {
        first: 1,
        last: None,
    };

    /// Whether the stop after n steps is one of these.
    pub fn contains(&self, stop: u64) -> bool
        ensures { IsTrue result ↔ IsIn self.now stop }
    {
        if stop < self.first {
            return false;
        }
        match self.last {
            Some(last) => stop <= last,
            None => true,
        }
    }
}
