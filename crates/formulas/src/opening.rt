//! How an operand begins.

ghost use Rattle.std.specs.Prelude.{◌≡◌, ℕ, ◌+◌, ◌≤◌, ◌<◌, length, true};
ghost use Rattle.tcltext.specs.Digit.{is_digit};
ghost use Rattle.tclparse.specs.FormulaPiece.{digit_count, is_numeric, begins_marked, numeral_length, numeral_leaf, unary, is_truth_word, function, opens, call_opening, word_opening, opening_at, opening};
ghost use Rattle.tcltext.specs.White.{skip_white};
ghost use Rattle.tclparse.specs.Variable.{name_at, after_name};
ghost use Rattle.formulas.specs.Seen.{opening_of, OpensWithin, leaf_of, LeavesLess};

use crate::fault::Fault;
use crate::piece::{Leaf, Opening};
use crate::white::skip_white;
use tclparse::{Function, Unary, split_name};

fn is_digit(base: u8, c: u8) -> bool
    requires { base ≤ 16 }
    ensures { result ≡ is_digit base c }
{
    let value = match c {
        b'0'..=b'9' => c - b'0',
        b'a'..=b'f' => c - b'a' + 10,
        b'A'..=b'F' => c - b'A' + 10,
        _ => return false,
    };
    value < base
}

// How many digits of a base stand at the front.
fn digit_count(base: u8, text: &[u8]) -> usize
    requires { base ≤ 16 }
    ensures count { result ≡ digit_count base text.now }
    ensures within { result ≤ length text.now }
{
    let mut len = 0;
    while len < text.len() && is_digit(base, text[len]) {
        len += 1;
    }
    len
}

// Whether a numeral begins here.
fn is_numeric(text: &[u8]) -> bool
    ensures { result ≡ is_numeric text.now }
{
    match text {
        [c, ..] => is_digit(10, *c),
        [] => false,
    }
}

// Whether the text begins with 0, this mark and a digit of this base.
fn begins_marked(mark: u8, base: u8, text: &[u8]) -> bool
    requires { base ≤ 16 }
    ensures marked { result ≡ begins_marked mark base text.now }
    ensures long { result ≡ true → 2 < length text.now }
{
    match text {
        [zero, m, c, ..] => *zero == b'0' && *m == mark && is_digit(base, *c),
        _ => false,
    }
}

// The length of the longest numeral at the front.
fn numeral_length(text: &[u8]) -> usize
    ensures len { result ≡ numeral_length text.now }
    ensures within { result ≤ length text.now }
{
    if begins_marked(b'x', 16, text) {
        2 + digit_count(16, &text[2..])
    } else if begins_marked(b'o', 8, text) {
        2 + digit_count(8, &text[2..])
    } else if begins_marked(b'b', 2, text) {
        2 + digit_count(2, &text[2..])
    } else {
        match text {
            [b'0', ..] => digit_count(8, text),
            _ => digit_count(10, text),
        }
    }
}

// The numeral at the front.
fn numeral(text: &[u8]) -> Leaf<'_>
    requires { is_numeric text.now ≡ true }
    ensures leaf { leaf_of result ≡ numeral_leaf text.now }
    ensures less { LeavesLess result (length text.now) }
{
    let (spelling, rest) = text.split_at(numeral_length(text));
    Leaf::Numeral(spelling, rest)
}

fn unary(c: u8) -> Option<Unary>
    ensures { result ≡ unary c }
{
    match c {
        b'-' => Some(Unary::Negate),
        b'+' => Some(Unary::Plus),
        b'~' => Some(Unary::Complement),
        b'!' => Some(Unary::Not),
        _ => None,
    }
}

fn is_truth_word(word: &[u8]) -> bool
    ensures word { result ≡ is_truth_word word.now }
    ensures some { result ≡ true → 0 < length word.now }
{
    word == b"true".as_slice()
        || word == b"false".as_slice()
        || word == b"yes".as_slice()
        || word == b"no".as_slice()
        || word == b"on".as_slice()
        || word == b"off".as_slice()
}

fn function(word: &[u8]) -> Option<Function>
    ensures { result ≡ function word.now }
{
    if word == b"abs".as_slice() {
        Some(Function::Abs)
    } else if word == b"min".as_slice() {
        Some(Function::Min)
    } else if word == b"max".as_slice() {
        Some(Function::Max)
    } else {
        None
    }
}

// This opening, or the fault `TooDeep` where no more may be open.
fn opens(depth: u32, opening: Opening<'_>) -> Opening<'_>
    ensures opening { opening_of result ≡ opens depth (opening_of opening.entry) }
    ensures within { (n : ℕ) → (0 < depth → OpensWithin opening.entry depth n)
        → OpensWithin result depth n }
{
    if depth == 0 {
        Opening::Leaf(Leaf::Fault(Fault::Words(tclparse::Fault::TooDeep)))
    } else {
        opening
    }
}

// How the call of this function begins; the text is the one after the function's name.
fn call(depth: u32, function: Function, text: &[u8]) -> Opening<'_>
    ensures opening { opening_of result ≡ call_opening depth function (skip_white text.now) }
    ensures within { OpensWithin result depth (length text.now) }
{
    match skip_white(text) {
        [b'(', inner @ ..] => opens(depth, Opening::Call(function, inner)),
        _ => Opening::Leaf(Leaf::Fault(Fault::Syntax)),
    }
}

// A truth word, or the function that is called, at the front of a text.
fn word(depth: u32, text: &[u8]) -> Opening<'_>
    ensures opening { opening_of result
        ≡ word_opening depth (name_at text.now) (after_name text.now) }
    ensures within { OpensWithin result depth (length text.now) }
{
    let (name, rest) = split_name(text);
    if is_truth_word(name) {
        return Opening::Leaf(Leaf::Word(name, rest));
    }
    match function(name) {
        Some(function) => call(depth, function, rest),
        None => Opening::Leaf(Leaf::Fault(Fault::Syntax)),
    }
}

// How the operand at the front begins, before which no white stands.
fn opening_at(depth: u32, text: &[u8]) -> Opening<'_>
    ensures opening { opening_of result ≡ opening_at depth text.now }
    ensures within { OpensWithin result depth (length text.now) }
{
    match text {
        [] => Opening::Leaf(Leaf::Fault(Fault::Syntax)),
        [b'"', inner @ ..] => Opening::Leaf(Leaf::Quotes(inner)),
        [b'{', inner @ ..] => Opening::Leaf(Leaf::Braces(inner)),
        [b'$', ..] => Opening::Leaf(Leaf::Substitution(text)),
        [b'[', ..] => Opening::Leaf(Leaf::Substitution(text)),
        [b'(', inner @ ..] => opens(depth, Opening::Parenthesis(inner)),
        [c, behind @ ..] => {
            if is_numeric(text) {
                Opening::Leaf(numeral(text))
            } else {
                match unary(*c) {
                    Some(operator) => opens(depth, Opening::Prefix(operator, behind)),
                    None => word(depth, text),
                }
            }
        }
    }
}

/// How the next operand begins, white skipped. `depth` is how many more brackets, indexes,
/// parentheses, calls, prefixes and choices may be open.
pub(crate) fn opening(depth: u32, text: &[u8]) -> Opening<'_>
    ensures opening { opening_of result ≡ opening depth text.now }
    ensures within { OpensWithin result depth (length text.now) }
{
    opening_at(depth, skip_white(text))
}
