//! The elements of a list, as they are kept beside its text.

ghost use Rattle.std.specs.Prelude.{◌≡◌, ◌++◌, take, drop, length, IfOk, IfErr, IfSome, OnOk, slice_get};
ghost use Rattle.tcltext.specs.Elements.{IsList, HasFlaw};
ghost use Rattle.tcltext.specs.Seen.{flaw_of};

use crate::kept_element::Element;
use crate::list::ListFault;
use crate::list::taken::take;
use crate::value::Value;
use crate::white::skip_white;
use counted_slot::Fits;
use memory::NoMemory;
use std::alloc::Allocator;
use std::marker::Model;

/// The elements of a list, in order.
#[derive(Drop)]
pub struct Elements<A: Allocator> {
    items: Vec<Element<A>, A>,
}

impl<A: Allocator> Model for Elements<A> {
    ghost use Rattle.std.specs.Prelude.{List, ℕ};

    ghost Value = { List (List ℕ) };

    ghost view = { λ elements. elements.items.items };
}

impl<A: Allocator> Fits for Elements<A> {
    type Tag = Vec<u8, A>;

    ghost fits = { λ text elements. IsList elements text.items };
}

impl<A: Allocator> Elements<A> {
    /// How many elements there are.
    pub(crate) fn len(&self) -> usize
        ensures { result ≡ length self.now }
    {
        self.items.len()
    }
}

impl<A: Allocator + Copy> Elements<A> {
    /// Reads the elements of the list that a text is (Tcl_SplitList(3)).
    pub(crate) fn read(alloc: A, text: &[u8]) -> Result<Elements<A>, ListFault>
        ensures list { IfOk result (λ elements. IsList elements text.now) }
        ensures fault { IfErr result (λ f. IfSome (flaw_of f) (λ flaw. HasFlaw flaw text.now)) }
    {
        let mut items = Vec::new(alloc);
        let mut rest = skip_white(text);
        while !rest.is_empty() {
            let (element, behind) = take(alloc, rest)?;
            items.push(element.kept(alloc)?)?;
            rest = skip_white(behind);
        }
        Ok(Elements { items })
    }

    /// The element at a place, or `None` where the place is beyond the last one.
    pub(crate) fn at(&self, alloc: A, place: usize) -> Result<Option<Value<A>>, NoMemory>
        ensures { IfOk result (λ element. element ≡ slice_get self.now place) }
    {
        match self.items.get(place) {
            Some(element) => Ok(Some(element.value(alloc)?)),
            None => Ok(None),
        }
    }

    /// All elements, each as a value.
    pub(crate) fn values(&self, alloc: A) -> Result<Vec<Value<A>, A>, NoMemory>
        ensures { IfOk result (λ values. values.items ≡ self.now) }
    {
        values_of(alloc, &self.items)
    }

    /// At most `most` elements from the place `from` on.
    pub(crate) fn part(
        &self,
        alloc: A,
        from: usize,
        most: usize,
    ) -> Result<Vec<Value<A>, A>, NoMemory>
        ensures { IfOk result (λ part. part.items ≡ take most (drop from self.now)) }
    {
        let from = from.min(self.items.len());
        let to = from.saturating_add(most).min(self.items.len());
        values_of(alloc, &self.items[from..to])
    }

    /// Puts more elements at the end. On `Err` some of the new ones may stand there.
    pub(crate) fn push_all(&mut self, alloc: A, more: &[Value<A>]) -> Result<(), NoMemory>
        ensures { OnOk result (self.new ≡ self.old ++ more.now) }
    {
        push_all(alloc, &mut self.items, more)
    }
}

/// The elements, each as a value.
fn values_of<A: Allocator + Copy>(
    alloc: A,
    elements: &[Element<A>],
) -> Result<Vec<Value<A>, A>, NoMemory>
    ensures { IfOk result (λ values. values.items ≡ elements.now) }
{
    let mut values = Vec::with_capacity(alloc, elements.len())?;
    for element in elements {
        values.push(element.value(alloc)?)?;
    }
    Ok(values)
}

/// Puts more elements after those in `items`. On `Err` some of the new ones may stand there.
fn push_all<A: Allocator + Copy>(
    alloc: A,
    items: &mut Vec<Element<A>, A>,
    more: &[Value<A>],
) -> Result<(), NoMemory>
    ensures { OnOk result (items.new.items ≡ items.old.items ++ more.now) }
{
    for value in more {
        items.push(Element::from_slice(alloc, value.as_slice())?)?;
    }
    Ok(())
}
