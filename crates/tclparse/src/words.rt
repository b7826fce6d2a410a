//! Braced arguments of `expect`, which are read as the words of one command.

ghost use Rattle.std.specs.Prelude.{IfOk, option_map};
ghost use Rattle.tclparse.specs.View.{words_of};
ghost use Rattle.tclparse.specs.Normal.{AreNormalWords};
ghost use Rattle.tclparse.specs.Grammar.{IsArgument};
ghost use Rattle.tclparse.specs.Seen.{fault_of};

use crate::context::Context;
use crate::error::ReadError;
use crate::fault::Fault;
use crate::gap::skip_white;
use crate::read::{MAX_OPEN, read_words};
use crate::shared::shared;
use crate::tree::Word;
use memory::NoMemory;
use std::alloc::Allocator;
use std::rc::Rc;

/// The words of one command, in which newlines separate words, and `;` and `#` are ordinary
/// (expect(1), expect).
#[derive(Drop)]
pub struct Words<A: Allocator> {
    /// The words, if there is no fault; else none.
    pub words: Rc<Vec<Word<A>, A>, A>,
    /// The first fault from the left.
    pub fault: Option<Fault>,
}

impl<A: Allocator + Copy> Words<A> {
    /// Reads a whole argument. Scripts in it have the grammar of any script.
    ///
    /// Takes time linear in the length of the text, and stack for each bracket and index that is
    /// open at one place. On `NoMemory` nothing stays allocated.
    pub fn read(alloc: A, text: &[u8]) -> Result<Words<A>, NoMemory>
        ensures tree { IfOk result (λ w.
            IsArgument (words_of w.words) (option_map fault_of w.fault) text.now) }
        ensures normal { IfOk result (λ w. AreNormalWords w.words) }
    {
        let start = skip_white(Context::Argument, text);
        match read_words(alloc, Context::Argument, MAX_OPEN, start) {
            Ok((words, _)) => Ok(Words { words, fault: None }),
            Err(ReadError::Fault(fault)) => {
                let words = shared(alloc, Vec::new(alloc))?;
                Ok(Words {
                    words,
                    fault: Some(fault),
                })
            }
            Err(ReadError::Memory(refusal)) => Err(refusal),
        }
    }
}
