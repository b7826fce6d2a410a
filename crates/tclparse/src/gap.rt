//! What stands between words and between commands: white space, separators, comments.

ghost use Rattle.std.specs.Prelude.{◌≡◌, ◌≤◌, length, false, true};
ghost use Rattle.tclparse.specs.Context.{ends_script, ends_command, ends_word};
ghost use Rattle.tclparse.specs.Gap.{skip_white, skip_gap, between, comment, in_pair};
ghost use Rattle.tclparse.specs.Seen.{context_of};

use crate::context::{Context, begins_with, is_separator, is_white};

/// The text after the white space at its beginning.
pub(crate) fn skip_white(context: Context, text: &[u8]) -> &[u8]
    ensures rest { result.now ≡ skip_white (context_of context) false text.now }
    ensures begins { ends_word (context_of context) result.now
        ≡ ends_command (context_of context) result.now }
    ensures shorter { length result.now ≤ length text.now }
{
    let mut bytes = text;
    loop {
        match bytes {
            [c, rest @ ..] => {
                if is_white(context, *c) {
                    bytes = rest;
                } else if *c == b'\\' && begins_with(b'\n', rest) {
                    bytes = &rest[1..];
                } else {
                    return bytes;
                }
            }
            [] => return bytes,
        }
    }
}

// The text after the comment that it begins in, just after the `#`.
fn skip_comment(context: Context, text: &[u8]) -> &[u8]
    ensures rest { skip_gap (context_of context) between result.now
        ≡ skip_gap (context_of context) comment text.now }
    ensures shorter { length result.now ≤ length text.now }
{
    let mut bytes = text;
    let mut hidden = false;
    while let [c, rest @ ..] = bytes {
        bytes = rest;
        if hidden {
            hidden = false;
        } else if *c == b'\n' {
            return rest;
        } else {
            hidden = *c == b'\\';
        }
    }
    bytes
}

/// The text from the first word of the next command on, or from the end of the script.
pub(crate) fn skip_gap(context: Context, text: &[u8]) -> &[u8]
    ensures rest { result.now ≡ skip_gap (context_of context) between text.now }
    ensures begins { ends_word (context_of context) result.now
        ≡ ends_script (context_of context) result.now }
    ensures shorter { length result.now ≤ length text.now }
{
    let mut bytes = text;
    loop {
        match bytes {
            [c, rest @ ..] => {
                if is_white(context, *c) || is_separator(context, *c) {
                    bytes = rest;
                } else if *c == b'#' {
                    bytes = skip_comment(context, rest);
                } else if *c == b'\\' && begins_with(b'\n', rest) {
                    bytes = rest;
                } else {
                    return bytes;
                }
            }
            [] => return bytes,
        }
    }
}
