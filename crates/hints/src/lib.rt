//! Tables whose keys are looked for where they were put, before they are hashed.
#![tactic(auto)]

ghost use Rattle.std.specs.Prelude.{◌≡◌, ◌<◌, [], None, Some, IfNone, IfSome, nat_eq, option_copied, option_map, slice_get};
ghost use Rattle.std.specs.Cmp.Lexicographic.{pointwise};
ghost use Rattle.std.specs.Map.{lookup};
ghost use Rattle.hints.specs.Slot.{byte_of, slot};

use indexmap::IndexMap;
use std::alloc::Allocator;
use std::hash::{BuildHasherDefault, FoldHasher};

/// A map from texts, in the order of insertion.
pub type Table<X, A> = IndexMap<Vec<u8, A>, X, BuildHasherDefault<FoldHasher>, A>;

/// An empty map, which takes no memory.
pub fn new_table<X, A: Allocator + Copy>(alloc: A) -> Table<X, A>
    ensures { result.entries ≡ [] }
{
    IndexMap::with_hasher(alloc, BuildHasherDefault::new())
}

/// The byte, or 0 where there is none.
fn byte_in(byte: Option<&u8>) -> usize
    ensures { result ≡ byte_of (option_copied byte.entry) }
{
    match byte {
        Some(byte) => usize::from(*byte),
        None => 0,
    }
}

/// A number below 256 that few other texts have: three of the bytes and the length say it.
pub fn slot_of(text: &[u8]) -> usize
    ensures is { result ≡ slot text.now }
    ensures below { result < 256 }
{
    let ends = byte_in(text.first()) + 5 * byte_in(text.last());
    let middle = byte_in(text.get(text.len() / 2));
    (ends + 3 * middle + text.len() % 256) % 256
}

/// The places at which some keys of a table stand, each noted when the key was put there. Another
/// key may stand at a place by now, or none: who asks looks what stands there.
#[derive(Drop)]
pub struct Hints<const SLOTS: usize> {
    places: [u8; SLOTS],
}

impl<const SLOTS: usize> Hints<SLOTS> {
    /// No place is noted.
    pub fn new() -> Hints<SLOTS> {
        Hints { places: [0; SLOTS] }
    }

    /// Where the key may stand.
    pub fn place(&self, key: &[u8]) -> usize {
        let Some(slot) = slot_of(key).checked_rem(SLOTS) else {
            return 0;
        };
        match self.places.get(slot) {
            Some(place) => usize::from(*place),
            None => 0,
        }
    }

    /// Notes where the key stands, where that is one of the first 256 places.
    pub fn note(&mut self, key: &[u8], place: usize) {
        let Some(slot) = slot_of(key).checked_rem(SLOTS) else {
            return;
        };
        let Ok(place) = u8::try_from(place) else {
            return;
        };
        if let Some(noted) = self.places.get_mut(slot) {
            *noted = place;
        }
    }
}

/// What stands at a key, which is looked for at this place first.
#[inline(always)]
pub fn found_near<'a, X, A: Allocator>(
    table: &'a Table<X, A>,
    place: usize,
    key: &[u8],
) -> Option<&'a X>
    ensures { option_copied result
        ≡ lookup (λ k. pointwise nat_eq key.now k.items) table.now.entries }
{
    match table.get_index(place) {
        Some((other, value)) if other.as_slice() == key => Some(value),
        _ => found_by_hash(table, key),
    }
}

/// What stands at a key, which is hashed. That a key stands elsewhere than where it was put is
/// rare, so this is apart from the look at that place.
#[cold]
#[inline(never)]
fn found_by_hash<'a, X, A: Allocator>(table: &'a Table<X, A>, key: &[u8]) -> Option<&'a X>
    ensures { option_copied result
        ≡ lookup (λ k. pointwise nat_eq key.now k.items) table.now.entries }
{
    table.get(key)
}

/// The place at which a key stands, which is looked for at this place first.
#[inline(always)]
pub fn place_near<X, A: Allocator>(table: &Table<X, A>, place: usize, key: &[u8]) -> Option<usize>
    ensures stands { IfSome result (λ i.
        option_map (λ e. e.0.items) (slice_get table.now.entries i) ≡ Some key.now) }
    ensures absent { IfNone result
        (lookup (λ k. pointwise nat_eq key.now k.items) table.now.entries ≡ None) }
{
    match table.get_index(place) {
        Some((other, _)) if other.as_slice() == key => Some(place),
        _ => place_by_hash(table, key),
    }
}

/// The place at which a key stands, which is hashed.
#[cold]
#[inline(never)]
fn place_by_hash<X, A: Allocator>(table: &Table<X, A>, key: &[u8]) -> Option<usize>
    ensures stands { IfSome result (λ i.
        option_map (λ e. e.0.items) (slice_get table.now.entries i) ≡ Some key.now) }
    ensures absent { IfNone result
        (lookup (λ k. pointwise nat_eq key.now k.items) table.now.entries ≡ None) }
{
    table.get_index_of(key)
}
