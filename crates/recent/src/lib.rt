//! What texts were read as last, kept with the texts, so that a text that comes again is not read
//! again.
#![tactic(auto)]

ghost use Rattle.std.specs.Prelude.{◌≡◌, slice_set, Some, Ok, IfOk};
ghost use Rattle.recent.specs.Recent.{AreRead};

use memory::NoMemory;
use std::alloc::Allocator;
use std::marker::Model;

/// How many texts are kept at the most.
const PLACES: usize = 64;

/// What a text is read as, which can be held more than once.
pub trait Shared: Sized {
    ghost use Rattle.std.specs.Prelude.{ℕ, List, Result, Ok};

    /// Why a text cannot be read.
    type Error: Drop;

    /// Whether this may be had of a text that is read.
    ghost reads: { List ℕ → Result Self Self.Error → Type 0 };

    /// The same once more.
    fn share(&self) -> Result<Self, Self::Error>
        ensures { (text : List ℕ) → reads text (Ok self.now) → reads text result };
}

/// What can be read from a text.
pub trait Readable<A: Allocator>: Shared {
    /// Reads a text.
    fn read_from(alloc: A, text: &[u8]) -> Result<Self, Self::Error>
        ensures { Self.reads text.now result };
}

/// A text, and what it was read as.
#[derive(Drop)]
pub struct Read<A: Allocator, T> {
    pub text: Vec<u8, A>,
    pub tree: T,
}

/// What texts were read as last. A text has one place, at which only the last text of that place is
/// kept. Contracts see nothing of what is kept: what a text is read as does not depend on it.
#[derive(Drop)]
pub struct Recent<A: Allocator, T: Shared> {
    places: Vec<Option<Read<A, T>>, A>,
}

impl<A: Allocator, T: Shared> Model for Recent<A, T> {
    ghost Value = { Unit {0} };

    ghost view = { λ recent. tt };

    ghost invariant = { λ recent. AreRead T.reads recent.places.items };
}

/// The place of a text, by its length and four of its bytes.
fn place_of(text: &[u8]) -> usize {
    let [first, .., last] = text else {
        return 0;
    };
    let middle = text[text.len() / 2];
    let quarter = text[text.len() / 4];
    let sum = usize::from(*first) + 3 * usize::from(*last);
    let more = 5 * usize::from(middle) + 7 * usize::from(quarter);
    (sum + more + text.len() % PLACES) % PLACES
}

/// The places, at none of which a text is kept.
fn no_texts<A: Allocator + Copy, T: Shared + Drop>(
    alloc: A,
) -> Result<Vec<Option<Read<A, T>>, A>, NoMemory>
    ensures { IfOk result (λ places. AreRead T.reads places.items) }
{
    let mut places = Vec::with_capacity(alloc, PLACES)?;
    for _ in 0..PLACES {
        places.push(None)?;
    }
    Ok(places)
}

/// Puts a text with what it was read as at a place.
fn put<A: Allocator, T: Drop>(
    places: &mut Vec<Option<Read<A, T>>, A>,
    place: usize,
    read: Read<A, T>,
)
    ensures { places.new.items ≡ slice_set places.old.items place (Some read) }
{
    if let Some(kept) = places.get_mut(place) {
        *kept = Some(read);
    }
}

impl<A: Allocator + Copy, T: Readable<A> + Drop> Recent<A, T> {
    /// Keeps no text yet. Takes no memory.
    pub fn new(alloc: A) -> Recent<A, T> {
        Recent {
            places: Vec::new(alloc),
        }
    }

    /// Reads a text, or gives once more what is kept with it. What is read is kept, where there is
    /// memory for that.
    ///
    /// # Errors
    /// Those of [`Readable::read_from`] and [`Shared::share`].
    pub fn read(&mut self, text: &[u8]) -> Result<T, T::Error>
        ensures { T.reads text.now result }
    {
        let place = place_of(text);
        if let Some(Some(kept)) = self.places.get(place) {
            if kept.text.as_slice() == text {
                return kept.tree.share();
            }
        }
        let read = T::read_from(*self.places.allocator(), text);
        if let Ok(tree) = &read {
            let _ = self.keep(place, text, tree);
        }
        read
    }

    /// Keeps what a text was read as, at its place. Where it cannot be shared, nothing changes.
    fn keep(&mut self, place: usize, text: &[u8], tree: &T) -> Result<(), NoMemory>
        requires { T.reads text.now (Ok tree.now) }
    {
        if self.places.is_empty() {
            self.places = no_texts(*self.places.allocator())?;
        }
        let text = Vec::from_slice(*self.places.allocator(), text)?;
        if let Ok(tree) = tree.share() {
            put(&mut self.places, place, Read { text, tree });
        }
        Ok(())
    }
}
