//! Whether items that take one byte each fit the front of a text.
ghost use Rattle.std.specs.Prelude.{◌+◌, ◌≤◌, ◌↔◌, IsTrue, length};
ghost use Rattle.patterns.specs.Runs.{items_of, Fits};

use crate::token::Token;
use crate::window::Window;
use std::alloc::Allocator;

/// Whether the items fit the front of the text, one byte each. Each item that is tested counts as
/// one step.
pub fn fits<A: Allocator>(run: &[Token<A>], text: Window<'_>, steps: &mut u64) -> bool
    ensures fits { IsTrue result ↔ Fits (items_of run.now) text.entry }
    ensures steps { steps.new ≤ steps.old + length run.now }
{
    let mut tokens = run;
    let mut rest = text;
    while let [token, more @ ..] = tokens {
        let Some((byte, behind)) = rest.split_first() else {
            return false;
        };
        *steps = steps.saturating_add(1);
        if !token.takes(byte) {
            return false;
        }
        tokens = more;
        rest = behind;
    }
    true
}
