//! What the processes of a sheet are doing, and what is true of a sheet while they do it.
#![tactic(auto)]

pub mod answer;
pub mod copies;
pub mod edit;
pub mod laws;
pub mod ledger;
pub mod making;
pub mod migration;
pub mod point;
pub mod recovery;
pub mod refusal;
pub mod reports;
pub mod row;
pub mod show;
pub mod shown;
pub mod situation;
pub mod spread;
pub mod stage;
pub mod text;
pub mod turn;
pub mod work;
pub mod world;
