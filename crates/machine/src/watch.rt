//! Who watches a session: told what begins and what follows, with no part in the run.

use acts::{Act, Answer};
use code::Instruction;
use kept::Kept;
use state::Outcome;
use std::alloc::Allocator;
use std::rc::Rc;
use tcltext::Value;

/// One who watches a session. It is told each act with its answer, once and in order; what it keeps
/// of that it says by `told`. What it does with what it is told has no part in the run.
pub trait Watch<A: Allocator, R, S, L> {
    ghost use Rattle.std.specs.Prelude.{[], ◌∷◌, ◌++◌};
    ghost use Rattle.acts.specs.Deed.{deed_of, reply_of};
    ghost use Rattle.acts.specs.History.{History};

    /// Whether who watches may come from one state to another by being told these acts with their
    /// answers, in this order.
    ghost told: { Self → History → Self → Type 0 };

    /// A run of this script begins, with these arguments.
    fn starts(&mut self, script: &[u8], args: &[Vec<u8, A>])
        ensures { told self.old [] self.new };

    /// Something begins next, and this is what the session has still to do. Who watches is told of
    /// no command that is over at once.
    fn stands(&mut self, running: &R)
        ensures { told self.old [] self.new };

    /// A command begins with these words, all substituted.
    fn begins(&mut self, words: &[Value<A>])
        ensures { told self.old [] self.new };

    /// These words give the branches of a command: its name, and those of its argument in braces,
    /// which are substituted now. The command began before, or begins with this, where the argument
    /// stands in its text. Who watches is told of no words that are texts as they stand.
    fn says(&mut self, words: &[Value<A>])
        ensures { told self.old [] self.new };

    /// What began, or went on with an answer, has come so far: to an outcome, or to an act that
    /// waits for its answer. Where it runs a script, that stands on top of the frames.
    fn leads(&mut self, running: &R, state: &S, leaf: &L)
        ensures { told self.old [] self.new };

    /// This code has ended right before this place, with this outcome; these scripts are kept by
    /// their texts.
    fn ends(
        &mut self,
        code: &Rc<Vec<Instruction<A>, A>, A>,
        place: usize,
        kept: &Kept<A>,
        outcome: &Outcome<A>,
    )
        ensures { told self.old [] self.new };

    /// The world was asked for this act, and has answered.
    fn answers(&mut self, act: &Act<A>, answer: &Answer<A>)
        ensures { told self.old ((deed_of act.now, reply_of answer.now) ∷ []) self.new };

    /// Who is told of no act may stay as it is.
    ghost stays: { (x : Self) → told x [] x };

    /// What is told in two parts is told.
    ghost joins: { (x y z : Self) (h k : History) →
        told x h y → told y k z → told x (h ++ k) z };
}

/// Nobody watches.
#[derive(Clone, Copy, Debug)]
pub struct Unwatched;

impl<A: Allocator, R, S, L> Watch<A, R, S, L> for Unwatched {
    ghost use Rattle.std.specs.Prelude.{⊤};

    // Nothing is kept.
    ghost told = { λ _ _ _. ⊤ };

    ghost stays = { λ _. tt };

    ghost joins = { λ _ _ _ _ _ _ _. tt };

    #[inline(always)]
    fn starts(&mut self, _script: &[u8], _args: &[Vec<u8, A>]) {}

    #[inline(always)]
    fn stands(&mut self, _running: &R) {}

    #[inline(always)]
    fn begins(&mut self, _words: &[Value<A>]) {}

    #[inline(always)]
    fn says(&mut self, _words: &[Value<A>]) {}

    #[inline(always)]
    fn leads(&mut self, _running: &R, _state: &S, _leaf: &L) {}

    #[inline(always)]
    fn ends(
        &mut self,
        _code: &Rc<Vec<Instruction<A>, A>, A>,
        _place: usize,
        _kept: &Kept<A>,
        _outcome: &Outcome<A>,
    ) {}

    #[inline(always)]
    fn answers(&mut self, _act: &Act<A>, _answer: &Answer<A>) {}
}
