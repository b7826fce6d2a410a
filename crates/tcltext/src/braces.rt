//! Braces that pair up (Tcl(n), rule 6).

ghost use Rattle.std.specs.Prelude.{◌<◌, List, ℕ, length, MatchOption, IfSome};
ghost use Rattle.tcltext.specs.Balanced.{IsPaired};

/// Splits the text after an open brace into the text up to the brace that pairs up with it, and the
/// text after that closing brace (Tcl(n), rule 6).
///
/// `None` where no brace pairs up. Takes no memory, and time linear in the length of the text up to
/// the closing brace.
pub fn split(text: &[u8]) -> Option<(&[u8], &[u8])>
    ensures pair { MatchOption result
        ((content rest : List ℕ) → IsPaired text.now content rest → ⊥)
        (λ r. IsPaired text.now r.0.now r.1.now) }
    ensures shorter { IfSome result (λ r. length r.1.now < length text.now) }
{
    let mut len = 0;
    let mut open = 0usize;
    let mut hidden = false;
    while len < text.len() {
        let c = text[len];
        if hidden {
            hidden = false;
        } else if c == b'\\' {
            hidden = true;
        } else if c == b'{' {
            open += 1;
        } else if c == b'}' {
            if open == 0 {
                return Some((&text[..len], &text[len + 1..]));
            }
            open -= 1;
        }
        len += 1;
    }
    None
}
