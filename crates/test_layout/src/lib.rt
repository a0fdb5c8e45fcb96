//! The parts below the runs, each by itself: words and their sides, packed forms, new sheets, a report and a recovery.
#![tactic(auto)]

#[cfg(test)]
mod packed;
#[cfg(test)]
mod words;
#[cfg(test)]
mod worlds;
