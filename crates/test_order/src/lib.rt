//! Orders of recalculation and sweeps: that those of components are always found, and what sweeps cost.
#![tactic(auto)]

#[cfg(test)]
mod along;
#[cfg(test)]
mod components;
#[cfg(test)]
mod model;
#[cfg(test)]
mod orders;
#[cfg(test)]
mod sheets;
#[cfg(test)]
mod sweeps;
