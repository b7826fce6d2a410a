//! The words of arguments in braces, which are kept by their texts.

ghost use Rattle.std.specs.Prelude.{ℕ, List, None, IfOk};
ghost use Rattle.kept.specs.Argument.{IsRead};
ghost use Rattle.tclparse.specs.Grammar.{IsArgument};
ghost use Rattle.tclparse.specs.View.{words_of};

use code::{CodedArgument, texts_of};
use memory::NoMemory;
use recent::{Readable, Recent, Shared};
use std::alloc::Allocator;
use std::rc::Rc;
use tclparse::{Fault, Word, Words};
use tcltext::Value;

/// An argument in braces of `expect` or one of its kin, which is read as the words of one command
/// (expect(1), expect).
#[derive(Drop)]
pub enum Argument<A: Allocator> {
    /// Its words, which are texts as they stand.
    Texts(Rc<Vec<Value<A>, A>, A>),
    /// Its words, as their code.
    Words(CodedArgument<A>),
    /// It has this fault, and no words.
    Faulty(Fault),
}

/// The arguments in braces that were read last.
pub type Arguments<A> = Recent<A, Argument<A>>;

impl<A: Allocator> Shared for Argument<A> {
    type Error = NoMemory;

    ghost reads = { λ text result. IfOk result (λ argument. IsRead argument text) };

    fn share(&self) -> Result<Argument<A>, NoMemory> {
        match self {
            Argument::Texts(texts) => Ok(Argument::Texts(texts.clone()?)),
            Argument::Words(words) => Ok(Argument::Words(words.share()?)),
            Argument::Faulty(fault) => Ok(Argument::Faulty(*fault)),
        }
    }
}

impl<A: Allocator + Copy> Readable<A> for Argument<A> {
    fn read_from(alloc: A, text: &[u8]) -> Result<Argument<A>, NoMemory> {
        let Words { words, fault } = Words::read(alloc, text)?;
        match fault {
            None => Ok(of_words(alloc, words)?),
            Some(fault) => Ok(Argument::Faulty(fault)),
        }
    }
}

/// An argument that has these words.
fn of_words<A: Allocator + Copy>(
    alloc: A,
    words: Rc<Vec<Word<A>, A>, A>,
) -> Result<Argument<A>, NoMemory>
    ensures { (text : List ℕ) → IsArgument (words_of words) None text →
        IfOk result (λ argument. IsRead argument text) }
{
    match texts_of(alloc, &words)? {
        Some(texts) => Ok(Argument::Texts(Rc::new(alloc, texts)?)),
        None => Ok(Argument::Words(CodedArgument::new(alloc, words)?)),
    }
}
