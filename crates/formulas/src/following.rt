//! What stands after an operand.

ghost use Rattle.std.specs.Prelude.{◌≡◌, ◌<◌, length, Ok, IfOk, IfSome};
ghost use Rattle.tclparse.specs.FormulaPiece.{is_letter, begins_letter, pair, word_pair, single, long, short, choice_following, following};
ghost use Rattle.tclparse.specs.FormulaGrammar.{closed, behind_comma};
ghost use Rattle.formulas.specs.Seen.{following_of, GoesWithin, outcome, comma_seen};

use crate::fault::Fault;
use crate::piece::Following;
use crate::white::skip_white;
use tclparse::{Binary, Function, Infix};

// The operator, if any, that these two bytes spell, where the first is no letter.
fn pair(first: u8, second: u8) -> Option<Infix>
    ensures { result ≡ pair first second }
{
    match (first, second) {
        (b'<', b'<') => Some(Infix::Both(Binary::ShiftLeft)),
        (b'<', b'=') => Some(Infix::Both(Binary::LessEqual)),
        (b'>', b'>') => Some(Infix::Both(Binary::ShiftRight)),
        (b'>', b'=') => Some(Infix::Both(Binary::GreaterEqual)),
        (b'=', b'=') => Some(Infix::Both(Binary::Equal)),
        (b'!', b'=') => Some(Infix::Both(Binary::NotEqual)),
        (b'&', b'&') => Some(Infix::AndAlso),
        (b'|', b'|') => Some(Infix::OrElse),
        _ => None,
    }
}

// The operator, if any, that these two bytes spell as a word.
fn word_pair(first: u8, second: u8) -> Option<Infix>
    ensures { result ≡ word_pair first second }
{
    match (first, second) {
        (b'e', b'q') => Some(Infix::Both(Binary::TextEqual)),
        (b'n', b'e') => Some(Infix::Both(Binary::TextNotEqual)),
        (b'n', b'i') => Some(Infix::Both(Binary::NotIn)),
        (b'i', b'n') => Some(Infix::Both(Binary::In)),
        _ => None,
    }
}

// The operator, if any, that this byte alone spells.
fn single(byte: u8) -> Option<Infix>
    ensures { result ≡ single byte }
{
    match byte {
        b'*' => Some(Infix::Both(Binary::Multiply)),
        b'/' => Some(Infix::Both(Binary::Divide)),
        b'%' => Some(Infix::Both(Binary::Remainder)),
        b'+' => Some(Infix::Both(Binary::Add)),
        b'-' => Some(Infix::Both(Binary::Subtract)),
        b'<' => Some(Infix::Both(Binary::Less)),
        b'>' => Some(Infix::Both(Binary::Greater)),
        b'&' => Some(Infix::Both(Binary::And)),
        b'^' => Some(Infix::Both(Binary::Xor)),
        b'|' => Some(Infix::Both(Binary::Or)),
        _ => None,
    }
}

fn is_letter(byte: u8) -> bool
    ensures { result ≡ is_letter byte }
{
    byte.is_ascii_alphabetic()
}

fn begins_letter(text: &[u8]) -> bool
    ensures { result ≡ begins_letter text.now }
{
    match text {
        [c, ..] => is_letter(*c),
        [] => false,
    }
}

// The operator of two bytes at the text's front; one that is a word counts only where no letter
// follows it.
fn long(text: &[u8]) -> Option<Infix>
    ensures operator { result ≡ long text.now }
    ensures within { IfSome result (λ _. 1 < length text.now) }
{
    match text {
        [first, second, behind @ ..] => {
            if !is_letter(*first) {
                pair(*first, *second)
            } else if begins_letter(behind) {
                None
            } else {
                word_pair(*first, *second)
            }
        }
        _ => None,
    }
}

// The operator of one byte at the front.
fn short(text: &[u8]) -> Option<Infix>
    ensures operator { result ≡ short text.now }
    ensures within { IfSome result (λ _. 0 < length text.now) }
{
    match text {
        [first, ..] => single(*first),
        [] => None,
    }
}

// The choice that a question mark opens, or the formula's end.
fn choice(depth: u32, text: &[u8]) -> Following<'_>
    ensures following { following_of result ≡ choice_following depth text.now }
    ensures within { GoesWithin result depth (length text.now) }
{
    match text {
        [b'?', behind @ ..] => {
            if depth == 0 {
                Following::Fault(Fault::Words(tclparse::Fault::TooDeep))
            } else {
                Following::Choice(behind)
            }
        }
        _ => Following::End(text),
    }
}

/// What stands after an operand, white skipped. `depth` is how many more brackets, indexes,
/// parentheses, calls, prefixes and choices may be open.
pub(crate) fn following(depth: u32, text: &[u8]) -> Following<'_>
    ensures following { following_of result ≡ following depth text.now }
    ensures within { GoesWithin result depth (length text.now) }
{
    let start = skip_white(text);
    if let Some(operator) = long(start) {
        Following::Infix(operator, &start[2..])
    } else if let Some(operator) = short(start) {
        Following::Infix(operator, &start[1..])
    } else {
        choice(depth, start)
    }
}

/// The text after `byte`, which must stand at the front and end what was read before.
///
/// # Errors
/// `Syntax` where another byte or none stands there.
pub(crate) fn close(byte: u8, text: &[u8]) -> Result<&[u8], Fault>
    ensures rest { outcome result ≡ closed byte (Ok text.now) }
    ensures shorter { IfOk result (λ z. length z.now < length text.now) }
{
    match text {
        [c, rest @ ..] => {
            if *c == byte {
                Ok(rest)
            } else {
                Err(Fault::Syntax)
            }
        }
        [] => Err(Fault::Syntax),
    }
}

/// The text after the comma at the front, where one stands there and the function takes another
/// argument; else `None`.
pub(crate) fn behind_comma(function: Function, text: &[u8]) -> Option<&[u8]>
    ensures comma { comma_seen result ≡ behind_comma function (Ok text.now) }
    ensures shorter { IfSome result (λ z. length z.now < length text.now) }
{
    match function {
        Function::Abs => None,
        Function::Min | Function::Max => match text {
            [b',', inner @ ..] => Some(inner),
            _ => None,
        },
    }
}
