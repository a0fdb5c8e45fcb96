//! What a call is asked on its way.

ghost use Rattle.std.specs.Prelude.{MatchBool};

/// It is asked before each step of a call. Where it says no, the call is broken off there.
pub trait Fuse {
    ghost use Rattle.std.specs.Prelude.{ℕ};
    ghost use Rattle.pm_board.specs.Fuses.{Asked};

    // Since it was the first one, it has said yes and no this often.
    ghost said: { Self → Self → ℕ → ℕ → Type 0 };

    /// Whether the call may go on.
    fn go(&mut self) -> bool
        ensures { MatchBool result (Asked said self.old self.new 1 0) (Asked said self.old self.new 0 1) };
}

/// It always says yes.
#[derive(Clone, Copy, Debug)]
pub struct Whole;

impl Fuse for Whole {
    ghost use Rattle.std.specs.Prelude.{◌≡◌};

    ghost said = { λ first now yeses noes. noes ≡ 0 };

    fn go(&mut self) -> bool {
        true
    }
}

/// It says yes as often as this, and then no.
#[derive(Clone, Copy, Debug)]
pub struct Steps {
    /// How many steps are left.
    pub left: u64,
}

impl Fuse for Steps {
    ghost use Rattle.std.specs.Prelude.{◌≡◌, ◌+◌, ◌<◌};

    ghost said = { λ first now yeses noes. (first.left ≡ now.left + yeses) × (0 < noes → now.left ≡ 0) };

    fn go(&mut self) -> bool {
        if self.left == 0 {
            return false;
        }
        self.left -= 1;
        true
    }
}
