//! A locked sheet in threads: counts, receipts, workers, a crash between two lockings.
#![tactic(auto)]

#[cfg(test)]
mod answers;
#[cfg(test)]
mod counts;
#[cfg(test)]
mod meeting;
