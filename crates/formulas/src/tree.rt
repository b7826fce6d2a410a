//! What a formula is once it is read.

ghost use Rattle.std.specs.Prelude.{◌≡◌, IfOk};
ghost use Rattle.formulas.specs.View.{formula_of};

use memory::NoMemory;
use std::alloc::Allocator;
use std::rc::Rc;
use tclparse::{Function, Infix, Part, Unary};
use tcltext::Value;

/// A formula, or an operand of one. A frame of an evaluation can keep each list and each formula in
/// it alive by cloning the pointer.
#[cycle(tree)]
#[derive(Drop)]
pub enum Formula<A: Allocator> {
    /// A numeral as it is written, without a sign.
    Numeral(Value<A>),
    /// A truth word, a variable, a script, or what stands in braces or quotes: the values of the
    /// parts, joined.
    Text(Rc<Vec<Part<A>, A>, A>),
    /// A call: `abs` with one argument, `min` or `max` with at least one.
    Call(Function, Rc<Vec<Formula<A>, A>, A>),
    /// An operator before its operand.
    Prefix(Unary, Rc<Formula<A>, A>),
    /// Operands joined by operators.
    Row(Rc<Row<A>, A>),
    /// `test ? yes : no`
    Choice(Rc<Choice<A>, A>),
}

/// Operands joined by operators of one level, which group to the left. There is at least one
/// operator.
#[cycle(tree)]
#[derive(Drop)]
pub struct Row<A: Allocator> {
    pub first: Formula<A>,
    pub links: Vec<Link<A>, A>,
}

/// An operator and its right operand.
#[cycle(tree)]
#[derive(Drop)]
pub struct Link<A: Allocator> {
    pub operator: Infix,
    pub operand: Formula<A>,
}

/// A test and the two formulas of which it chooses one to be evaluated.
#[cycle(tree)]
#[derive(Drop)]
pub struct Choice<A: Allocator> {
    pub test: Formula<A>,
    pub yes: Formula<A>,
    pub no: Formula<A>,
}

impl<A: Allocator> Formula<A> {
    /// The same formula once more; nothing of it is copied.
    ///
    /// # Errors
    /// `NoMemory` where a count of holders is full.
    pub fn share(&self) -> Result<Formula<A>, NoMemory>
        ensures { IfOk result (λ same. formula_of same ≡ formula_of self.now) }
    {
        match self {
            Formula::Numeral(digits) => Ok(Formula::Numeral(digits.share()?)),
            Formula::Text(parts) => Ok(Formula::Text(parts.clone()?)),
            Formula::Call(function, arguments) => Ok(Formula::Call(*function, arguments.clone()?)),
            Formula::Prefix(operator, operand) => Ok(Formula::Prefix(*operator, operand.clone()?)),
            Formula::Row(row) => Ok(Formula::Row(row.clone()?)),
            Formula::Choice(choice) => Ok(Formula::Choice(choice.clone()?)),
        }
    }
}
