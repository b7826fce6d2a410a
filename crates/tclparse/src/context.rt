//! What ends a word, a command and a script: this depends on the context that the text stands in.

ghost use Rattle.std.specs.Prelude.{◌≡◌};
ghost use Rattle.tclparse.specs.Context.{begins_with, is_white, is_separator, is_closing, ends_script, ends_command, ends_word};
ghost use Rattle.tclparse.specs.Seen.{context_of};

/// The context that the words of a text stand in.
#[derive(Clone, Copy)]
pub enum Context {
    /// A whole script.
    Script,
    /// A script between brackets, which `]` ends.
    Brackets,
    /// A braced argument of `expect`: one command, in which newlines are blanks.
    Argument,
}

/// Whether the text begins with that byte.
pub(crate) fn begins_with(byte: u8, text: &[u8]) -> bool
    ensures { result ≡ begins_with byte text.now }
{
    match text {
        [] => false,
        [c, ..] => *c == byte,
    }
}

/// Whether the byte separates words.
pub(crate) fn is_white(context: Context, c: u8) -> bool
    ensures { result ≡ is_white (context_of context) c }
{
    let is_blank = c == b' ' || c == b'\t' || c == 11 || c == 12 || c == b'\r';
    match context {
        Context::Argument => is_blank || c == b'\n',
        _ => is_blank,
    }
}

/// Whether the byte separates commands.
pub(crate) fn is_separator(context: Context, c: u8) -> bool
    ensures { result ≡ is_separator (context_of context) c }
{
    match context {
        Context::Argument => false,
        _ => c == b'\n' || c == b';',
    }
}

fn is_closing(context: Context, c: u8) -> bool
    ensures { result ≡ is_closing (context_of context) c }
{
    match context {
        Context::Brackets => c == b']',
        _ => false,
    }
}

/// Whether the script ends at the beginning of this text.
pub(crate) fn ends_script(context: Context, text: &[u8]) -> bool
    ensures { result ≡ ends_script (context_of context) text.now }
{
    match text {
        [] => true,
        [c, ..] => is_closing(context, *c),
    }
}

/// Whether a command ends at the beginning of this text.
pub(crate) fn ends_command(context: Context, text: &[u8]) -> bool
    ensures { result ≡ ends_command (context_of context) text.now }
{
    match text {
        [] => true,
        [c, ..] => is_separator(context, *c) || is_closing(context, *c),
    }
}

/// Whether a word ends at the beginning of this text.
pub(crate) fn ends_word(context: Context, text: &[u8]) -> bool
    ensures { result ≡ ends_word (context_of context) text.now }
{
    match text {
        [] => true,
        [c, rest @ ..] => {
            is_white(context, *c)
                || is_separator(context, *c)
                || is_closing(context, *c)
                || (*c == b'\\' && begins_with(b'\n', rest))
        }
    }
}
