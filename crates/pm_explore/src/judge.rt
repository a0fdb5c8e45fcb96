//! What is looked for at each position.

ghost use Rattle.std.specs.Prelude.{◌≡◌, IsTrue, MatchOption};
ghost use Rattle.pm_explore.specs.Closed.{AllHold};

use crate::explored::Explored;
use crate::position::Position;
use crate::setting::Setting;
use crate::table::Table;

/// A judge of positions.
pub trait Judge<P: Explored> {
    ghost use Rattle.pm_explore.specs.declared.position.Position.{Position};
    ghost use Rattle.pm_explore.specs.declared.setting.Setting.{Setting};

    ghost meaning: { Self → Setting P.Key P.Doing → Position P.Doing P.Response → Type 0 };

    /// Whether a position is right. What it says no of may be right still.
    fn is_right(
        &self,
        setting: &Setting<P::Key, P::Doing>,
        x: &Position<P::Doing, P::Response>,
    ) -> bool
        ensures { IsTrue result → meaning self.now setting.now x.now };
}

/// The number of the first position that a judge finds wrong; None where it finds each one right. None was found earlier
/// that has a longer way, so this one's way is a shortest.
pub fn first_wrong<P: Explored, J: Judge<P>>(
    judge: &J,
    setting: &Setting<P::Key, P::Doing>,
    table: &Table<P::Doing, P::Response>,
) -> Option<usize>
    ensures { MatchOption result (AllHold (J.meaning judge.now setting.now) table.now.positions.items) (λ i. Unit {0}) }
{
    for i in 0..table.positions.len() {
        let right = judge.is_right(setting, &table.positions[i]);
        if !right {
            return Some(i);
        }
    }
    None
}
