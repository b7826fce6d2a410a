//! The commands by their names.

ghost use Rattle.std.specs.Prelude.{◌≡◌};
ghost use Rattle.pure.specs.Pure as meant;
ghost use Rattle.meanings.specs.View.{Answers};

use crate::concat::concat;
use crate::join::join;
use crate::lindex::lindex;
use crate::llength::llength;
use crate::lrange::lrange;
use crate::split::split;
use crate::string::string;
use acts::Raise;
use std::alloc::Allocator;
use tcltext::Value;

/// A command that is a function of its words.
#[derive(Clone, Copy, Debug, PartialEq, Eq)]
pub enum Pure {
    Concat,
    Join,
    Lindex,
    List,
    Llength,
    Lrange,
    Split,
    String,
}

impl Pure {
    /// The command that has this name, if one has.
    #[tactic(auto, using(names::proofs::Compared::compared))]
    pub fn named(name: &[u8]) -> Option<Pure>
        ensures { result ≡ meant.named name.now }
    {
        match name {
            b"concat" => Some(Pure::Concat),
            b"join" => Some(Pure::Join),
            b"lindex" => Some(Pure::Lindex),
            b"list" => Some(Pure::List),
            b"llength" => Some(Pure::Llength),
            b"lrange" => Some(Pure::Lrange),
            b"split" => Some(Pure::Split),
            b"string" => Some(Pure::String),
            _ => None,
        }
    }

    /// Runs the command on the words after its name.
    ///
    /// # Errors
    /// The script's error. Where there are several, an unknown word after `string` comes first,
    /// then a wrong number of words, then the words from left to right. `NoMemory` where memory is
    /// refused.
    pub fn apply<A: Allocator + Copy>(
        self,
        alloc: A,
        words: &[Value<A>],
    ) -> Result<Value<A>, Raise<A>>
        ensures { Answers (meant.says self words.now) result }
    {
        match self {
            Pure::Concat => concat(alloc, words),
            Pure::Join => join(alloc, words),
            Pure::Lindex => lindex(alloc, words),
            Pure::List => Ok(Value::list(alloc, words)?),
            Pure::Llength => llength(alloc, words),
            Pure::Lrange => lrange(alloc, words),
            Pure::Split => split(alloc, words),
            Pure::String => string(alloc, words),
        }
    }
}
