//! Lists of the tree, each kept alive by whoever still works on it.

ghost use Rattle.std.specs.Prelude.{◌≡◌, IfOk};

use memory::NoMemory;
use std::alloc::Allocator;
use std::rc::Rc;

/// A list of the tree behind a counted pointer.
pub(crate) type Shared<T, A> = Rc<Vec<T, A>, A>;

/// A shared list of these items, with no spare capacity.
pub(crate) fn shared<T: Drop, A: Allocator + Copy>(
    alloc: A,
    items: Vec<T, A>,
) -> Result<Shared<T, A>, NoMemory>
    ensures { IfOk result (λ list. list.value.items ≡ items.items) }
{
    let mut rest = items;
    let mut exact = Vec::with_capacity(alloc, rest.len())?;
    exact.append(&mut rest)?;
    Ok(Rc::new(alloc, exact)?)
}
