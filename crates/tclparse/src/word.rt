//! How a word begins and how it ends.

ghost use Rattle.std.specs.Prelude.{◌≡◌, ◌≤◌, ◌<◌, length, false, Ok, IfOk};
ghost use Rattle.tclparse.specs.Context.{ends_word};
ghost use Rattle.tclparse.specs.Grammar.{kind, expands, unprefixed, bracket_closed, index_closed, quotes_closed};
ghost use Rattle.tclparse.specs.Seen.{context_of, opening, OpensShorter, outcome};

use crate::context::{Context, ends_word};
use crate::fault::Fault;

/// What a word's first byte opens, and the text after it.
pub(crate) enum Opening<'a> {
    Braces(&'a [u8]),
    Quotes(&'a [u8]),
    Bare,
}

/// How a word begins.
pub(crate) fn open_word(text: &[u8]) -> Opening<'_>
    ensures kind { opening result ≡ kind text.now }
    ensures shorter { OpensShorter result (length text.now) }
{
    match text {
        [b'{', rest @ ..] => Opening::Braces(rest),
        [b'"', rest @ ..] => Opening::Quotes(rest),
        _ => Opening::Bare,
    }
}

/// Whether `{*}` stands before the word that begins here, and the text of the word without it.
pub(crate) fn split_prefix(context: Context, text: &[u8]) -> (bool, &[u8])
    ensures expands { result.0 ≡ expands (context_of context) text.now }
    ensures rest { result.1.now ≡ unprefixed (context_of context) text.now }
    ensures begins { ends_word (context_of context) text.now ≡ false
        → ends_word (context_of context) result.1.now ≡ false }
    ensures shorter { length result.1.now ≤ length text.now }
{
    match text {
        [b'{', b'*', b'}', rest @ ..] => {
            if ends_word(context, rest) {
                (false, text)
            } else {
                (true, rest)
            }
        }
        _ => (false, text),
    }
}

/// The text after the closing quote that this text begins with. `Err` where there is no quote, or
/// the word does not end after it.
pub(crate) fn close_quotes(context: Context, text: &[u8]) -> Result<&[u8], Fault>
    ensures rest { outcome result ≡ quotes_closed (context_of context) (Ok text.now) }
    ensures shorter { IfOk result (λ z. length z.now ≤ length text.now) }
{
    match text {
        [] => Err(Fault::OpenQuote),
        [_, rest @ ..] => {
            if ends_word(context, rest) {
                Ok(rest)
            } else {
                Err(Fault::AfterQuote)
            }
        }
    }
}

/// The text after the closing bracket that this text begins with. `Err` where there is none.
pub(crate) fn close_bracket(text: &[u8]) -> Result<&[u8], Fault>
    ensures rest { outcome result ≡ bracket_closed (Ok text.now) }
    ensures shorter { IfOk result (λ z. length z.now ≤ length text.now) }
{
    match text {
        [] => Err(Fault::OpenBracket),
        [_, rest @ ..] => Ok(rest),
    }
}

/// The text after the closing parenthesis that this text begins with. `Err` where there is none.
pub(crate) fn close_index(text: &[u8]) -> Result<&[u8], Fault>
    ensures rest { outcome result ≡ index_closed (Ok text.now) }
    ensures shorter { IfOk result (λ z. length z.now ≤ length text.now) }
{
    match text {
        [] => Err(Fault::BadVariable),
        [_, rest @ ..] => Ok(rest),
    }
}
