//! One item of a pattern that takes one byte, as the search tests it.
ghost use Rattle.std.specs.Prelude.{◌↔◌, IsTrue};

use std::alloc::Allocator;
use std::boxed::Box;

/// Which byte an item takes.
#[derive(Drop)]
pub enum Token<A: Allocator> {
    /// This byte alone.
    Literal(u8),
    /// Any one byte.
    AnyByte,
    /// A byte that the table marks.
    Set(Box<[bool; 256], A>),
}

impl<A: Allocator> Token<A> {
    ghost use Rattle.patterns.specs.Runs.{Takes, item_of_token};

    /// Whether the item takes this byte.
    pub fn takes(&self, byte: u8) -> bool
        ensures { IsTrue result ↔ Takes (item_of_token self.now) byte }
    {
        match self {
            Token::Literal(literal) => byte == *literal,
            Token::AnyByte => true,
            Token::Set(table) => table[byte as usize],
        }
    }
}
