//! The notations of formulas.

/// In which notation the formulas of cells are written.
#[derive(Clone, Copy, Debug, PartialEq, Eq)]
pub enum Notation {
    /// OpenFormula's: `=SUM([.A1:.B3];2)`.
    OpenFormula,
    /// That of Calc and Excel: `=SUM(A1:B3,2)`.
    A1,
}
