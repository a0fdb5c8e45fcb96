//! What texts in a page are.

ghost use Rattle.std.specs.Prelude.{ℕ, List};
ghost use Rattle.ds_svg.specs.Markup.{escaped};
ghost use Rattle.ds_svg.specs.Texts.{IsText};

/// Whatever bytes are escaped, what stands for them is a text without markup: no `<`, no `>`, no `"`, and a `&` only where
/// an entity begins.
pub fn escaped_bytes_are_texts()
    ensures { (bytes : List ℕ) → IsText (escaped bytes) }
{}
