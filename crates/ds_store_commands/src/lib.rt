//! `dsheet check`, `log`, `export`, `import`, `compact` and `backup`: commands on the file of a store.
#![tactic(auto)]

pub mod backup;
pub mod exporting;
pub mod importing;
pub mod log;
mod logs;
mod making;
mod reading;
pub mod status;
pub mod stores;
pub mod tables;
