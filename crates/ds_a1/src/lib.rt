//! Formulas in the notation of Calc and Excel, as `=SUM(A1:B3,2)`, and in OpenFormula's, as `=SUM([.A1:.B3];2)`.
#![tactic(auto)]

pub mod laws;
pub mod notation;
pub mod texts;
pub mod tokens;
