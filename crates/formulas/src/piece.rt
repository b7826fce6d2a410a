//! What the next bytes of a formula are.

use crate::fault::Fault;
use tclparse::{Function, Infix, Unary};

/// How a leaf of a formula begins. The last text in a variant is the text after what the variant
/// names, but that of `Substitution` begins at its first byte.
#[derive(Clone, Copy)]
pub(crate) enum Leaf<'a> {
    /// No operand stands here.
    Fault(Fault),
    /// A numeral as it is written.
    Numeral(&'a [u8], &'a [u8]),
    /// A truth word.
    Word(&'a [u8], &'a [u8]),
    /// A quote.
    Quotes(&'a [u8]),
    /// An open brace.
    Braces(&'a [u8]),
    /// A dollar or an open bracket stands at the front of this text.
    Substitution(&'a [u8]),
}

/// How an operand begins; the text in a variant is the one after that beginning.
#[derive(Clone, Copy)]
pub(crate) enum Opening<'a> {
    Leaf(Leaf<'a>),
    Prefix(Unary, &'a [u8]),
    Parenthesis(&'a [u8]),
    /// A function's name and its opening parenthesis.
    Call(Function, &'a [u8]),
}

/// What stands after an operand; the text in a variant is the one after what the variant names.
#[derive(Clone, Copy)]
pub(crate) enum Following<'a> {
    /// The formula is over: no operator stands here.
    End(&'a [u8]),
    Fault(Fault),
    Infix(Infix, &'a [u8]),
    /// A question mark.
    Choice(&'a [u8]),
}
