//! Runs that were sought in a buffer and not found.

ghost use Rattle.std.specs.Prelude.{◌≡◌, ◌-◌, ◌≤◌, [], ℕ, List, IfOk, drop, length};
ghost use Rattle.searches.specs.Lead.{run_of};
ghost use Rattle.searches.specs.Vain.{ArePassed};
ghost use Rattle.patterns.specs.Passed.{Passed};

use crate::lead::Key;
use acts::NoMemory;
use std::alloc::Allocator;

/// How many pairs of an id have a slot from its opening on.
const FIRST_SLOTS: usize = 8;

/// A run that was sought and not found.
#[derive(Drop)]
pub(crate) struct Vain<A: Allocator> {
    key: Key<A>,
    /// Before this place the run begins nowhere, whatever follows. Places are counted from the
    /// first byte that the buffer held when the list was empty.
    from: usize,
}

/// An empty list with room for the first slots.
pub(crate) fn room<A: Allocator>(alloc: A) -> Result<Vec<Vain<A>, A>, NoMemory>
    ensures { IfOk result (λ vains. vains.items ≡ []) }
{
    Ok(Vec::with_capacity(alloc, FIRST_SLOTS)?)
}

/// Makes a slot, where it is the next one after those that are there. Where memory for it is
/// refused, there is none: what is sought by it is then sought from the front each time.
pub(crate) fn make_slot<A: Allocator>(vains: &mut Vec<Vain<A>, A>, slot: usize)
    ensures { (gone : ℕ) (bytes : List ℕ) → ArePassed gone bytes vains.old.items →
        ArePassed gone bytes vains.new.items }
{
    if slot == vains.len() {
        let key = Key::empty();
        let _ = vains.push(Vain { key, from: 0 });
    }
}

/// The place before which a run is known to begin nowhere, whatever follows; 0 where the slot has
/// another run or where there is no such slot.
pub(crate) fn place_of<A: Allocator>(
    vains: &[Vain<A>],
    slot: usize,
    key: &Key<A>,
    gone: usize,
) -> usize
    ensures { (bytes : List ℕ) → ArePassed gone bytes vains.now →
        Passed (run_of key.now) bytes result }
{
    if vains.len() <= slot {
        return 0;
    }
    let vain = &vains[slot];
    if vain.key.is(key) {
        return vain.from.saturating_sub(gone);
    }
    0
}

/// Records in its slot, where it has one, that a run begins nowhere before the place `next` of the
/// bytes. Takes no memory.
pub(crate) fn note<A: Allocator>(
    vains: &mut Vec<Vain<A>, A>,
    slot: usize,
    key: &Key<A>,
    next: usize,
    gone: usize,
)
    ensures { (bytes : List ℕ) → ArePassed gone bytes vains.old.items →
        Passed (run_of key.now) bytes next → ArePassed gone bytes vains.new.items }
{
    let Some(from) = gone.checked_add(next) else {
        return;
    };
    if vains.len() <= slot {
        return;
    }
    // Where the text already has as many holders as can be counted, nothing is recorded, and the
    // next search begins anew.
    let Ok(key) = key.share() else {
        return;
    };
    vains[slot] = Vain { key, from };
}

/// Counts bytes that are gone from the front of the buffer. Where they are too many to be counted,
/// all searches are forgotten.
pub(crate) fn forget<A: Allocator>(vains: &mut Vec<Vain<A>, A>, gone: &mut usize, count: usize)
    ensures { (bytes : List ℕ) → count ≤ length bytes → ArePassed gone.old bytes vains.old.items →
        ArePassed gone.new (drop count bytes) vains.new.items }
{
    match gone.checked_add(count) {
        Some(all) => *gone = all,
        None => {
            vains.clear();
            *gone = 0;
        }
    }
}
