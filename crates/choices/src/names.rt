//! Open ids by the texts that name them.
ghost use Rattle.std.specs.Prelude.{◌≡◌};
ghost use Rattle.choices.specs.Channels.{named, is_channel, connection};

use crate::entry::Entry;
use crate::kind::Kind;
use crate::table::Table;
use acts::Id;
use std::alloc::Allocator;

impl<A: Allocator> Table<A> {
    /// The open id that a text spells (expect(1), spawn).
    pub fn named(&self, text: &[u8]) -> Option<Id>
        ensures { result ≡ named self.now.lines text.now }
    {
        first_named(&self.entries, text)
    }

    /// The open connection whose channel a text spells (socket(n)).
    pub fn connection(&self, text: &[u8]) -> Option<Id>
        ensures { result ≡ connection self.now.lines text.now }
    {
        first_connection(&self.entries, text)
    }
}

/// The first of the open ids that the text spells, if there is one.
fn first_named<A: Allocator>(entries: &[Entry<A>], text: &[u8]) -> Option<Id>
    ensures { result ≡ named entries.now text.now }
{
    for entry in entries {
        if entry.id().is_named(b"exp", text) {
            return Some(entry.id());
        }
    }
    None
}

/// The first of the open connections whose channel the text spells, if there is one.
fn first_connection<A: Allocator>(entries: &[Entry<A>], text: &[u8]) -> Option<Id>
    ensures { result ≡ connection entries.now text.now }
{
    for entry in entries {
        if is_channel(text, entry) {
            return Some(entry.id());
        }
    }
    None
}

/// Whether an id is that of a connection whose channel a text spells.
fn is_channel<A: Allocator>(text: &[u8], entry: &Entry<A>) -> bool
    ensures { result ≡ is_channel text.now entry.now.kind entry.now.id }
{
    match entry.kind() {
        Kind::Process(_) => false,
        Kind::Socket => entry.id().is_named(b"sock", text),
    }
}
