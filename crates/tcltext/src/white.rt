//! White space in lists and numerals.

ghost use Rattle.std.specs.Prelude.{◌≡◌, ◌<◌, ◌≤◌, length, false};
ghost use Rattle.tcltext.specs.White.{is_white, skip_white, ends_element};

/// Blank, tab, newline, vertical tab, form feed and carriage return are white.
pub(crate) fn is_white(c: u8) -> bool
    ensures { result ≡ is_white c }
{
    c == b' ' || (9 <= c && c <= 13)
}

/// The text after the white space at its front.
pub(crate) fn skip_white(text: &[u8]) -> &[u8]
    ensures rest { result.now ≡ skip_white text.now }
    ensures begins { 0 < length result.now → ends_element result.now ≡ false }
    ensures shorter { length result.now ≤ length text.now }
{
    let mut rest = text;
    while let [c, behind @ ..] = rest {
        if !is_white(*c) {
            break;
        }
        rest = behind;
    }
    rest
}

/// Whether an element ends here: white follows, or nothing.
pub(crate) fn ends_element(text: &[u8]) -> bool
    ensures { result ≡ ends_element text.now }
{
    match text {
        [] => true,
        [c, ..] => is_white(*c),
    }
}
