//! One element of a list, as it is kept beside the list's text.

ghost use Rattle.std.specs.Prelude.{◌≡◌, IfOk};

use crate::short::{IN_PLACE, Short};
use crate::value::Value;
use memory::NoMemory;
use std::alloc::Allocator;
use std::marker::Model;
use std::rc::Rc;

/// The text of an element, which contracts see as a list of bytes: a few bytes in place, more
/// behind a counted pointer.
#[derive(Drop)]
pub struct Element<A: Allocator> {
    form: Form<A>,
}

/// Where the bytes lie.
#[derive(Drop)]
pub enum Form<A: Allocator> {
    /// A few bytes, in place.
    Short(Short<IN_PLACE>),
    /// More bytes, behind the pointer.
    Long(Rc<Vec<u8, A>, A>),
}

impl<A: Allocator> Model for Element<A> {
    ghost use Rattle.std.specs.Prelude.{List, ℕ};

    ghost Value = { List ℕ };

    ghost use Rattle.tcltext.specs.KeptElement.{bytes_of};

    ghost view = { λ element. bytes_of element.form };
}

impl<A: Allocator> Element<A> {
    /// The bytes.
    pub(crate) fn as_slice(&self) -> &[u8]
        ensures { result.now ≡ self.now }
    {
        match &self.form {
            Form::Short(short) => short.as_slice(),
            Form::Long(bytes) => bytes.as_slice(),
        }
    }
}

impl<A: Allocator + Copy> Element<A> {
    /// A copy of these bytes.
    pub(crate) fn from_slice(alloc: A, bytes: &[u8]) -> Result<Element<A>, NoMemory>
        ensures { IfOk result (λ element. element ≡ bytes.now) }
    {
        if let Some(short) = Short::new(bytes) {
            return Ok(Element {
                form: Form::Short(short),
            });
        }
        let bytes = Rc::new(alloc, Vec::from_slice(alloc, bytes)?)?;
        Ok(Element {
            form: Form::Long(bytes),
        })
    }

    /// A value of the bytes.
    pub(crate) fn value(&self, alloc: A) -> Result<Value<A>, NoMemory>
        ensures { IfOk result (λ value. value ≡ self.now) }
    {
        match &self.form {
            Form::Short(short) => Ok(Value::short(short.copied())),
            Form::Long(bytes) => Value::from_slice(alloc, bytes.as_slice()),
        }
    }

    /// An element with these bytes.
    pub(crate) fn new(alloc: A, bytes: Vec<u8, A>) -> Result<Element<A>, NoMemory>
        ensures { IfOk result (λ element. element ≡ bytes.items) }
    {
        if let Some(short) = Short::new(bytes.as_slice()) {
            return Ok(Element {
                form: Form::Short(short),
            });
        }
        Ok(Element {
            form: Form::Long(Rc::new(alloc, bytes)?),
        })
    }
}
