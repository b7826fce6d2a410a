//! White between the tokens of a formula.

ghost use Rattle.std.specs.Prelude.{◌≡◌, ◌≤◌, length};
ghost use Rattle.tcltext.specs.White.{skip_white};

/// The text after the blanks, tabs, newlines, vertical tabs, form feeds and carriage returns at its
/// front.
pub(crate) fn skip_white(text: &[u8]) -> &[u8]
    ensures rest { result.now ≡ skip_white text.now }
    ensures shorter { length result.now ≤ length text.now }
{
    let mut rest = text;
    while let [c, behind @ ..] = rest {
        if *c != b' ' && !(9 <= *c && *c <= 13) {
            break;
        }
        rest = behind;
    }
    rest
}
