//! What `dsheet import` is asked for.

use ds_a1::notation::Notation;

/// The import of a store.
#[derive(Clone, Copy, Debug, PartialEq, Eq)]
pub struct Importing<'a> {
    /// The file of the store.
    pub path: &'a str,
    /// How formulas are written.
    pub notation: Notation,
    /// Whether it is a grid of texts, as CSV; otherwise they are lines.
    pub csv: bool,
}
