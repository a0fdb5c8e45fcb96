//! The text of an edit.

ghost use Rattle.std.specs.Prelude.{◌≡◌, ◌<◌, ◌≤◌, ◌↔◌, ◌++◌, length, IsTrue, IsSome, IfSome, [], ◌∷◌};
ghost use Rattle.ds_formula.specs.Limits.{TEXT_MOST};
ghost use Rattle.ds_state.specs.Text.{IsText};

use ds_formula::reading::TEXT_LIMIT;
use std::marker::Model;

/// The bytes of an edit's text, at most 240, in place: a copy takes no memory.
#[derive(Clone, Copy, Debug)]
pub struct Text {
    bytes: [u8; TEXT_LIMIT],
    len: usize,
}

impl Model for Text {
    ghost use Rattle.std.specs.Prelude.{List, ℕ, length, take, ◌++◌};
    ghost use Rattle.ds_state.specs.Text.{IsPadded, padding, padded_bytes, padded_len};

    ghost Value = { List ℕ };

    ghost view = { λ t. take t.len t.bytes };

    ghost invariant = { λ t. IsPadded t.bytes t.len };

    ghost inverse = { λ v. record { bytes = v ++ padding (length v); len = length v } };

    ghost inverse_ok = { λ t h i. record { bytes = padded_bytes t.bytes t.len h i; len = padded_len t.bytes t.len h i } };
}

impl Text {
    /// The text of these bytes; `None` where they are more than 240.
    pub fn new(bytes: &[u8]) -> Option<Text>
        ensures short { IsSome result ↔ (length bytes.now ≤ TEXT_MOST) }
        ensures same { IfSome result (λ text. text ≡ bytes.now) }
    {
        let len = bytes.len();
        if len > TEXT_LIMIT {
            return None;
        }
        let mut padded = [0; TEXT_LIMIT];
        padded[..len].copy_from_slice(bytes);
        Some(Text { bytes: padded, len })
    }

    /// The text of no bytes.
    pub fn empty() -> Text
        ensures { result ≡ [] }
    {
        Text {
            bytes: [0; TEXT_LIMIT],
            len: 0,
        }
    }

    /// One more byte at its end. It has fewer than 240.
    pub fn push(&mut self, byte: u8)
        requires { length self.old < TEXT_MOST }
        ensures { self.new ≡ self.old ++ byte ∷ [] }
    {
        self.bytes[self.len] = byte;
        self.len += 1;
    }

    /// A law: a text has at most 240 bytes, always.
    pub fn is_always_a_text(&self)
        ensures { IsText self.now }
    {
        // For the proof: reading the field gives its invariant.
        let _bytes = &self.bytes;
    }

    /// The bytes.
    pub fn as_slice(&self) -> &[u8]
        ensures { result.now ≡ self.now }
    {
        &self.bytes[..self.len]
    }

    /// How many bytes it has, at most 240.
    pub fn len(&self) -> usize
        ensures value { result ≡ length self.now }
        ensures at_most { result ≤ TEXT_MOST }
    {
        self.len
    }

    /// Whether it has no bytes.
    pub fn is_empty(&self) -> bool
        ensures { IsTrue result ↔ (self.now ≡ []) }
    {
        self.len == 0
    }
}
