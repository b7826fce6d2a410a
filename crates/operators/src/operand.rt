//! What operators take and give.

ghost use Rattle.std.specs.Prelude.{◌≡◌, IfOk};
ghost use Rattle.std.specs.Fmt.{signed_decimal};
ghost use Rattle.meanings.specs.Meaning as meant;
ghost use Rattle.operators.specs.Number.{number_of};
ghost use Rattle.operators.specs.Value as value;

use itoa::Buffer;
use memory::NoMemory;
use std::alloc::Allocator;
use std::marker::Model;
use tcltext::Value;

/// A value of a formula, which contracts see as its text. A number is kept as it is, and its text
/// is the decimal one, so that arithmetic asks for no memory.
#[derive(Drop)]
pub struct Operand<A: Allocator> {
    form: Form<A>,
}

/// How a value is kept.
#[derive(Drop)]
pub enum Form<A: Allocator> {
    Number(i64),
    Text(Value<A>),
}

impl<A: Allocator> Model for Operand<A> {
    ghost use Rattle.std.specs.Prelude.{List, ℕ};

    ghost Value = { List ℕ };

    ghost use Rattle.operators.specs.View.{text_of};

    ghost view = { λ operand. text_of operand.form };
}

impl<A: Allocator> Operand<A> {
    /// A number, whose text is the decimal one.
    pub fn number(n: i64) -> Operand<A>
        ensures { result ≡ signed_decimal n }
    {
        Operand {
            form: Form::Number(n),
        }
    }

    /// A text as it stands.
    pub fn text(text: Value<A>) -> Operand<A>
        ensures { result ≡ text }
    {
        Operand {
            form: Form::Text(text),
        }
    }

    /// The result of a test: 1 or 0 (expr(n), operators).
    pub fn truth(holds: bool) -> Operand<A>
        ensures { result ≡ meant.truth holds }
    {
        if holds {
            Operand::number(1)
        } else {
            Operand::number(0)
        }
    }

    /// The number that the operand is, if it is one.
    pub(crate) fn number_of(&self) -> Option<i64>
        ensures { result ≡ number_of self.now }
    {
        match &self.form {
            Form::Number(n) => Some(*n),
            Form::Text(text) => number_in(text),
        }
    }

    /// The operand's text; that of a number is written into the buffer.
    pub(crate) fn bytes<'a>(&'a self, buffer: &'a mut Buffer) -> &'a [u8]
        ensures { result.now ≡ self.now }
    {
        match &self.form {
            Form::Number(n) => buffer.format(*n).as_bytes(),
            Form::Text(text) => text.as_slice(),
        }
    }
}

impl<A: Allocator + Copy> Operand<A> {
    /// The operand's text; that of a number is the decimal one.
    ///
    /// # Errors
    /// `NoMemory` where memory is refused.
    pub fn into_text(self, alloc: A) -> Result<Value<A>, NoMemory>
        ensures { IfOk result (λ text. text ≡ self) }
    {
        match self.form {
            Form::Number(n) => Value::int(alloc, n),
            Form::Text(text) => Ok(text),
        }
    }

    /// The operand's text as a formula gives it: a number in decimal (expr(n)).
    pub(crate) fn into_value(self, alloc: A) -> Result<Value<A>, NoMemory>
        ensures { IfOk result (λ text. text ≡ value.result self) }
    {
        match self.form {
            Form::Number(n) => Value::int(alloc, n),
            Form::Text(text) => in_decimal(alloc, text),
        }
    }
}

/// The number that a text is, if it is one (expr(n), operands). Takes no memory.
pub fn number_in<A: Allocator>(text: &Value<A>) -> Option<i64>
    ensures { result ≡ number_of text.now }
{
    text.number()
}

/// The decimal text of the number where the text is one; any other text as it stands.
fn in_decimal<A: Allocator + Copy>(alloc: A, text: Value<A>) -> Result<Value<A>, NoMemory>
    ensures { IfOk result (λ told. told ≡ value.result text) }
{
    match number_in(&text) {
        Some(n) => Value::int(alloc, n),
        None => Ok(text),
    }
}
