//! A stack gets one element more.

ghost use Rattle.std.specs.Prelude.{◌≡◌, [], ◌∷◌, ◌++◌, OnOk};

use memory::NoMemory;
use std::alloc::Allocator;

/// Puts an element on top of a stack. That it has no room left is rare, and apart.
///
/// # Errors
/// `NoMemory` where memory is refused.
#[inline(always)]
pub(crate) fn put_on<T: Drop, A: Allocator>(
    stack: &mut Vec<T, A>,
    element: T,
) -> Result<(), NoMemory>
    ensures { OnOk result (stack.new.items ≡ stack.old.items ++ element ∷ []) }
{
    if stack.len() < stack.capacity() {
        stack.push_reserved(element);
        return Ok(());
    }
    Ok(put_in_more_room(stack, element)?)
}

/// Puts an element on top of a stack that has no room left.
#[cold]
#[inline(never)]
fn put_in_more_room<T: Drop, A: Allocator>(
    stack: &mut Vec<T, A>,
    element: T,
) -> Result<(), NoMemory>
    ensures { OnOk result (stack.new.items ≡ stack.old.items ++ element ∷ []) }
{
    stack.push(element)?;
    Ok(())
}
