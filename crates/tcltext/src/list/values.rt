//! Values that are lists: made, read and grown.

ghost use Rattle.std.specs.Prelude.{◌≡◌, ◌++◌, ℕ, List, length, take, drop, slice_get, IfOk, IfErr, IfSome};
ghost use Rattle.tcltext.specs.Canonical.{canonical, IsCanonical, IsListOf};
ghost use Rattle.tcltext.specs.Elements.{IsList, HasFlaw};
ghost use Rattle.tcltext.specs.Joined.{joined};
ghost use Rattle.tcltext.specs.Seen.{flaw_of};

use super::ListFault;
use super::join::push_values;
use super::walk::{count, joined, nth, range};
use crate::kept::{read_at, read_len, read_part};
use crate::kept_elements::Elements;
use crate::value::{Form, Value};
use memory::NoMemory;
use std::alloc::Allocator;

impl<A: Allocator + Copy> Value<A> {
    /// The canonical text of a list (list(n)). One request for memory is for all its bytes, where
    /// the elements are bare.
    pub fn list(alloc: A, elements: &[Value<A>]) -> Result<Value<A>, NoMemory>
        ensures { IfOk result (λ list. list ≡ canonical elements.now) }
    {
        let mut room = 0usize;
        for element in elements {
            room = room
                .saturating_add(element.as_slice().len())
                .saturating_add(1);
        }
        let mut text = Vec::with_capacity(alloc, room)?;
        push_values(&mut text, true, elements)?;
        Value::marked(alloc, text, true)
    }

    /// The canonical text of the list that the text is. The text is read and written anew, unless
    /// it is known to be canonical (Tcl_SplitList(3); list(n)).
    pub fn as_list(&self, alloc: A) -> Result<Value<A>, ListFault>
        ensures list { IfOk result (IsListOf self.now) }
        ensures fault { IfErr result (λ f. IfSome (flaw_of f) (λ flaw. HasFlaw flaw self.now)) }
    {
        if self.is_list() {
            return Ok(self.share()?);
        }
        let elements = Elements::read(alloc, self.as_slice())?;
        let values = elements.values(alloc)?;
        Ok(Value::list(alloc, &values)?)
    }

    /// The canonical text of a list with more elements after it (lappend(n)). They are written into
    /// the text's own memory, which is copied first where others share it. Kept elements of a text
    /// that no one else shares stay kept.
    pub fn push_elements(self, alloc: A, more: &[Value<A>]) -> Result<Value<A>, NoMemory>
        requires { IsCanonical self }
        ensures { (v : List (List ℕ)) → self ≡ canonical v →
            IfOk result (λ list. list ≡ canonical (v ++ more.now)) }
    {
        let first = self.as_slice().is_empty();
        let (mut text, kept) = self.into_parts(alloc)?;
        push_values(&mut text, first, more)?;
        match kept {
            Some(mut elements) => {
                elements.push_all(alloc, more)?;
                Value::with_elements(alloc, text, elements)
            }
            None => Value::marked(alloc, text, true),
        }
    }

    /// The number of elements of the list that the text is.
    pub fn list_len(&self, alloc: A) -> Result<usize, ListFault>
        ensures len { IfOk result
            (λ n. (v : List (List ℕ)) × IsList v self.now × (n ≡ length v)) }
        ensures fault { IfErr result (λ f. IfSome (flaw_of f) (λ flaw. HasFlaw flaw self.now)) }
    {
        match &self.form {
            Form::Long(text) => read_len(alloc, text.bytes.as_slice(), &text.kept),
            _ => count(alloc, self.as_slice()),
        }
    }

    /// The element at a place of the list that the text is, or `None` where the place is beyond the
    /// last one.
    pub fn element_at(&self, alloc: A, place: usize) -> Result<Option<Value<A>>, ListFault>
        ensures element { IfOk result (λ e. (v : List (List ℕ))
            × IsList v self.now × (e ≡ slice_get v place)) }
        ensures fault { IfErr result (λ f. IfSome (flaw_of f) (λ flaw. HasFlaw flaw self.now)) }
    {
        match &self.form {
            Form::Long(text) => read_at(alloc, text.bytes.as_slice(), &text.kept, place),
            _ => nth(alloc, self.as_slice(), place),
        }
    }

    /// At most `most` elements, from the place `from` on, of the list that the text is.
    pub fn part(&self, alloc: A, from: usize, most: usize) -> Result<Vec<Value<A>, A>, ListFault>
        ensures part { IfOk result (λ part. (v : List (List ℕ))
            × IsList v self.now × (part.items ≡ take most (drop from v))) }
        ensures fault { IfErr result (λ f. IfSome (flaw_of f) (λ flaw. HasFlaw flaw self.now)) }
    {
        match &self.form {
            Form::Long(text) => read_part(alloc, text.bytes.as_slice(), &text.kept, from, most),
            _ => Ok(Elements::read(alloc, self.as_slice())?.part(alloc, from, most)?),
        }
    }

    /// The canonical text of the elements that [`Value::part`] gives.
    pub fn range(&self, alloc: A, from: usize, most: usize) -> Result<Value<A>, ListFault>
        ensures list { IfOk result (λ list. (v : List (List ℕ))
            × IsList v self.now × (list ≡ canonical (take most (drop from v)))) }
        ensures fault { IfErr result (λ f. IfSome (flaw_of f) (λ flaw. HasFlaw flaw self.now)) }
    {
        if self.is_in_place() {
            return range(alloc, self.as_slice(), from, most);
        }
        let part = self.part(alloc, from, most)?;
        Ok(Value::list(alloc, &part)?)
    }

    /// The elements of the list that the text is as one text, with a separator between them
    /// (join(n)).
    pub fn joined(&self, alloc: A, separator: &[u8]) -> Result<Value<A>, ListFault>
        ensures joined { IfOk result (λ whole. (v : List (List ℕ))
            × IsList v self.now × (whole ≡ joined separator.now v)) }
        ensures fault { IfErr result (λ f. IfSome (flaw_of f) (λ flaw. HasFlaw flaw self.now)) }
    {
        let whole = joined(alloc, self.as_slice(), separator)?;
        Ok(Value::new(alloc, whole)?)
    }
}
