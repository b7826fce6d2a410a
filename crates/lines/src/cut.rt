//! Cutting a text in two.

ghost use Rattle.std.specs.Prelude.{◌≡◌, ◌∷◌, ◌++◌, IfSome, IfNone};
ghost use Rattle.lines.specs.Cut.{Lacks};

use memchr::memchr;

/// The parts of a text before and after the first byte of this value; `None` where it has none.
pub fn cut_at(text: &[u8], byte: u8) -> Option<(&[u8], &[u8])>
    ensures found { IfSome result (λ parts.
        (text.now ≡ parts.0.now ++ byte ∷ parts.1.now) × Lacks byte parts.0.now) }
    ensures none { IfNone result (Lacks byte text.now) }
{
    let place = memchr(byte, text)?;
    Some((&text[..place], &text[place + 1..]))
}
