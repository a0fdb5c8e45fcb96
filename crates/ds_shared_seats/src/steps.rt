//! A fuse of a number of steps.

use pm_board::fuse::Fuse;

/// A fuse that lets a call make a number of steps, and stops it before the next one.
#[derive(Clone, Copy, Debug)]
pub struct Steps {
    left: u64,
}

impl Steps {
    ghost use Rattle.std.specs.Prelude.{◌≡◌};

    /// A fuse of this number of steps.
    pub fn of(steps: u64) -> Steps
        ensures { result.left ≡ steps }
    {
        Steps { left: steps }
    }
}

impl Fuse for Steps {
    ghost use Rattle.std.specs.Prelude.{◌≡◌, ◌+◌, ◌<◌};

    ghost said = { λ first now yeses noes. (first.left ≡ now.left + yeses) × (0 < noes → now.left ≡ 0) };

    fn go(&mut self) -> bool {
        if self.left == 0 {
            return false;
        }
        self.left -= 1;
        true
    }
}
