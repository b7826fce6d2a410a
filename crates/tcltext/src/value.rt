//! Texts that are shared and not copied.

ghost use Rattle.std.specs.Prelude.{◌≡◌, ◌<◌, [], ◌++◌, length, nat_le, IfOk, IfSome, IfNone, IsTrue};
ghost use Rattle.tcltext.specs.Canonical.{IsCanonical};
ghost use Rattle.tcltext.specs.Elements.{IsList};
ghost use Rattle.tcltext.specs.Numeral.{IsNumeral, IsInRange};

use crate::kept::keep;
use crate::kept_elements::Elements;
use crate::short::{IN_PLACE, Short};
use counted_slot::Counted;
use memory::NoMemory;
use std::alloc::Allocator;
use std::marker::Model;
use std::rc::Rc;

/// The most bytes that the text of a number may have for the number to be kept.
const DIGITS: usize = 10;

/// The text of a literal, a variable or a command's value, which contracts see as a list of bytes:
/// a few bytes in place, more behind a counted pointer.
pub struct Value<A: Allocator> {
    pub(crate) form: Form<A>,
}

impl<A: Allocator> Drop for Value<A> {
    fn drop(self) {
        let Value { form: _ } = self;
    }
}

/// Where the bytes lie.
#[derive(Drop)]
pub enum Form<A: Allocator> {
    /// The text of a number, and that number.
    Number(Short<DIGITS>, i32),
    /// A few bytes.
    Short(Short<IN_PLACE>),
    /// More bytes, which all values that share them point to.
    Long(Rc<Text<A>, A>),
}

/// The bytes behind the pointer, and what is known of them.
#[derive(Drop)]
pub struct Text<A: Allocator> {
    pub(crate) bytes: Vec<u8, A>,
    /// Whether the bytes are known to be the canonical text of a list, so that they need not be
    /// read to put elements after them.
    is_list: bool,
    /// The elements of the list that the bytes are, once they have been read.
    pub(crate) kept: Counted<Option<Elements<A>>>,
}

impl<A: Allocator> Model for Value<A> {
    ghost use Rattle.std.specs.Prelude.{List, ℕ};

    ghost Value = { List ℕ };

    ghost use Rattle.tcltext.specs.Value.{bytes_of, IsKeptRightly};

    ghost view = { λ v. bytes_of v.form };

    ghost invariant = { λ v. IsKeptRightly v.form };
}

impl<A: Allocator> Value<A> {
    /// The empty text.
    pub fn empty() -> Value<A>
        ensures { result ≡ [] }
    {
        Value {
            form: Form::Short(Short::empty()),
        }
    }

    /// A value of these bytes, or `None` where they are too many to lie in place.
    pub fn in_place(bytes: &[u8]) -> Option<Value<A>>
        ensures bytes { IfSome result (λ value. value ≡ bytes.now) }
        ensures room { IfNone result (14 < length bytes.now) }
    {
        let short = Short::new(bytes)?;
        Some(Value {
            form: Form::Short(short),
        })
    }

    /// Two texts as one value, or `None` where they are together too long to lie in place.
    pub fn joined_in_place(first: &[u8], second: &[u8]) -> Option<Value<A>>
        ensures bytes { IfSome result (λ joined. joined ≡ first.now ++ second.now) }
        ensures room { IfNone result (14 < length (first.now ++ second.now)) }
    {
        Some(Value::short(Short::joined(first, second)?))
    }

    /// A value of a few bytes.
    pub(crate) fn short(short: Short<IN_PLACE>) -> Value<A>
        ensures { result ≡ short }
    {
        Value {
            form: Form::Short(short),
        }
    }

    /// A value of the text of a number together with that number, or `None` where the two are too
    /// large to lie in place.
    pub(crate) fn with_number(text: &[u8], n: i64) -> Option<Value<A>>
        requires { IsNumeral n text.now }
        ensures { IfSome result (λ value. value ≡ text.now) }
    {
        let Ok(n) = i32::try_from(n) else {
            return None;
        };
        let digits = Short::new(text)?;
        Some(Value {
            form: Form::Number(digits, n),
        })
    }

    /// The number that is kept, if one is.
    pub(crate) fn kept_number(&self) -> Option<i64>
        ensures value { IfSome result (λ n. IsNumeral n self.now) }
        ensures in_range { IfSome result IsInRange }
    {
        match &self.form {
            Form::Number(_, n) => Some(i64::from(*n)),
            _ => None,
        }
    }

    /// The bytes.
    pub fn as_slice(&self) -> &[u8]
        ensures { result.now ≡ self.now }
    {
        match &self.form {
            Form::Number(digits, _) => digits.as_slice(),
            Form::Short(short) => short.as_slice(),
            Form::Long(text) => text.bytes.as_slice(),
        }
    }

    /// Whether the bytes are few enough to lie in place, so that the elements of their list are not
    /// kept.
    pub fn is_in_place(&self) -> bool
        ensures { result ≡ nat_le (length self.now) 14 }
    {
        self.as_slice().len() <= IN_PLACE
    }

    /// Another handle to the same text; bytes behind a pointer are not copied. Memory is asked for
    /// only to count the handles.
    pub fn share(&self) -> Result<Value<A>, NoMemory>
        ensures { IfOk result (λ same. same ≡ self.now) }
    {
        let form = match &self.form {
            Form::Number(digits, n) => Form::Number(digits.copied(), *n),
            Form::Short(short) => Form::Short(short.copied()),
            Form::Long(text) => Form::Long(text.clone()?),
        };
        Ok(Value { form })
    }

    /// Whether the text is known to be the canonical text of a list. The time does not depend on
    /// the text's length.
    pub(crate) fn is_list(&self) -> bool
        ensures { IsTrue result → IsCanonical self.now }
    {
        match &self.form {
            Form::Number(_, _) => false,
            Form::Short(short) => short.as_slice().is_empty(),
            Form::Long(text) => text.is_list,
        }
    }
}

impl<A: Allocator + Copy> Value<A> {
    /// A value of these bytes.
    pub fn new(alloc: A, bytes: Vec<u8, A>) -> Result<Value<A>, NoMemory>
        ensures { IfOk result (λ value. value ≡ bytes.items) }
    {
        Value::marked(alloc, bytes, false)
    }

    /// A copy of these bytes.
    pub fn from_slice(alloc: A, bytes: &[u8]) -> Result<Value<A>, NoMemory>
        ensures { IfOk result (λ value. value ≡ bytes.now) }
    {
        match Value::in_place(bytes) {
            Some(value) => Ok(value),
            None => Value::new(alloc, Vec::from_slice(alloc, bytes)?),
        }
    }

    /// A value of these bytes. `is_list` says that they are known to be the canonical text of a
    /// list.
    pub(crate) fn marked(alloc: A, bytes: Vec<u8, A>, is_list: bool) -> Result<Value<A>, NoMemory>
        requires { IsTrue is_list → IsCanonical bytes.items }
        ensures { IfOk result (λ value. value ≡ bytes.items) }
    {
        if let Some(value) = Value::in_place(bytes.as_slice()) {
            return Ok(value);
        }
        let kept = Counted::new(None, &bytes);
        let text = Rc::new(
            alloc,
            Text {
                bytes,
                is_list,
                kept,
            },
        )?;
        Ok(Value {
            form: Form::Long(text),
        })
    }

    /// A value of the canonical text of a list. Where the text is too long to lie in place, the
    /// list's elements are kept beside it.
    pub(crate) fn with_elements(
        alloc: A,
        bytes: Vec<u8, A>,
        elements: Elements<A>,
    ) -> Result<Value<A>, NoMemory>
        requires canonical { IsCanonical bytes.items }
        requires elements { IsList elements bytes.items }
        ensures { IfOk result (λ value. value ≡ bytes.items) }
    {
        if let Some(value) = Value::in_place(bytes.as_slice()) {
            return Ok(value);
        }
        let kept = Counted::new(None, &bytes);
        keep(&kept, elements);
        let text = Rc::new(
            alloc,
            Text {
                bytes,
                is_list: true,
                kept,
            },
        )?;
        Ok(Value {
            form: Form::Long(text),
        })
    }

    /// The bytes, which are copied where others share them.
    pub fn into_vec(self, alloc: A) -> Result<Vec<u8, A>, NoMemory>
        ensures { IfOk result (λ bytes. bytes.items ≡ self) }
    {
        let Value { form } = self;
        let text = match form {
            Form::Number(digits, _) => return Ok(Vec::from_slice(alloc, digits.as_slice())?),
            Form::Short(short) => return Ok(Vec::from_slice(alloc, short.as_slice())?),
            Form::Long(text) => text,
        };
        match Rc::try_unwrap(text) {
            Ok(text) => Ok(text.bytes),
            Err(shared) => Ok(Vec::from_slice(alloc, shared.bytes.as_slice())?),
        }
    }

    /// The text with more bytes after it. They are written into the text's own memory where no
    /// other value shares it.
    pub fn append(self, alloc: A, more: &[u8]) -> Result<Value<A>, NoMemory>
        ensures { IfOk result (λ whole. whole ≡ self ++ more.now) }
    {
        let mut bytes = self.into_vec(alloc)?;
        bytes.extend_from_slice(more)?;
        Value::new(alloc, bytes)
    }

    /// The bytes, which are copied where others share them, and the elements, where they are kept
    /// and no one else shares them.
    pub(crate) fn into_parts(self, alloc: A) -> Result<(Vec<u8, A>, Option<Elements<A>>), NoMemory>
        ensures bytes { IfOk result (λ parts. parts.0.items ≡ self) }
        ensures elements { IfOk result (λ parts. IfSome parts.1 (λ v. IsList v self)) }
    {
        let Value { form } = self;
        let text = match form {
            Form::Number(digits, _) => {
                return Ok((Vec::from_slice(alloc, digits.as_slice())?, None));
            }
            Form::Short(short) => return Ok((Vec::from_slice(alloc, short.as_slice())?, None)),
            Form::Long(text) => text,
        };
        match Rc::try_unwrap(text) {
            Ok(text) => {
                let Text {
                    bytes,
                    is_list: _,
                    kept,
                } = text;
                Ok((bytes, kept.into_inner()))
            }
            Err(shared) => Ok((Vec::from_slice(alloc, shared.bytes.as_slice())?, None)),
        }
    }
}
