//! What a script is once it is read: commands, which consist of words, which consist of parts.

use std::alloc::Allocator;
use std::rc::Rc;
use tcltext::Value;

/// One command: its words, of which there is at least one.
#[cycle(tree)]
#[derive(Drop)]
pub struct Command<A: Allocator> {
    /// How many bytes the text that was read has from the beginning of the command on, so that an
    /// error can be told by its line. No contract speaks of it.
    pub from_end: usize,
    pub words: Rc<Vec<Word<A>, A>, A>,
}

/// One word: its value is the values of its parts, joined.
#[cycle(tree)]
#[derive(Drop)]
pub struct Word<A: Allocator> {
    /// The word was prefixed by `{*}`: its value is a list, each element a word.
    pub expands: bool,
    pub parts: Rc<Vec<Part<A>, A>, A>,
}

/// A piece of a word.
#[cycle(tree)]
#[derive(Drop)]
pub enum Part<A: Allocator> {
    /// Bytes that stand for themselves, escapes replaced: at least one, and no two literals stand
    /// side by side.
    Literal(Value<A>),
    /// `$name` or `${name}`.
    Variable(Value<A>),
    /// `$name(index)` or `${name(index)}`.
    Element(Value<A>, Rc<Vec<Part<A>, A>, A>),
    /// `[script]`. A fault in it is that of the whole text, so it has none of its own.
    Bracket(Rc<Vec<Command<A>, A>, A>),
}
