//! What is so of every run, where a search has ended.

ghost use Rattle.pm_explore.specs.Closed.{AllHold, AreAll, HoldsAlways, ShowRuns};

use crate::explored::Explored;
use crate::judge::Judge;
use crate::setting::Setting;
use crate::table::Table;

/// Where the positions are all, each run of these events from a new structure stays within them.
pub fn runs_stay<P: Explored>(
    setting: &Setting<P::Key, P::Doing>,
    table: &Table<P::Doing, P::Response>,
)
    requires { AreAll P.structure setting.now table.now.positions.items }
    ensures { ShowRuns P.structure setting.now table.now.positions.items }
{}

/// ... and what a judge found right of each position holds at each point of each such run.
pub fn judged_always<P: Explored, J: Judge<P>>(
    judge: &J,
    setting: &Setting<P::Key, P::Doing>,
    table: &Table<P::Doing, P::Response>,
)
    requires all { AreAll P.structure setting.now table.now.positions.items }
    requires hold { AllHold (J.meaning judge.now setting.now) table.now.positions.items }
    ensures { HoldsAlways P.structure setting.now (J.meaning judge.now setting.now) }
{}
