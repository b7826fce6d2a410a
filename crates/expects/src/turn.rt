//! A turn of `expect`, and how far one has come (expect(1), expect).

ghost use Rattle.std.specs.Prelude.{◌≡◌};
ghost use Rattle.expects.specs.View.{turn_of};
ghost use Rattle.expects.specs.Turn.{begun_by, renewed, timed};

use crate::form::Form;
use acts::{Act, Id, Row, Timer};
use code::{CodedArgument, CodedScript};
use dialog::{Choice, Effective, Trigger};
use state::Outcome;
use std::alloc::Allocator;
use std::mem;

/// A turn of `expect`.
pub struct Turn<A: Allocator> {
    /// What it chooses among, and the ids that it waits for.
    pub effective: Effective<A>,
    /// A vector for the rows of the next wait, whose room is used again.
    pub rows: Vec<Row, A>,
    /// The seconds of `-timeout`, if it is given.
    pub seconds: Option<i64>,
    /// The event after which it looks for a pair.
    pub trigger: Trigger,
    /// The timer of the next wait, where one was started.
    pub clock: Option<Timer>,
    /// How many levels may still be nested in it.
    pub levels: u8,
}

impl<A: Allocator> Drop for Turn<A> {
    fn drop(self) {
        let Turn {
            effective: _,
            rows: _,
            seconds: _,
            trigger: _,
            clock: _,
            levels: _,
        } = self;
    }
}

/// What waits for the answer to an act.
#[derive(Drop)]
pub enum Waits<A: Allocator> {
    /// A turn that waits for what comes.
    Awaited(Box<Turn<A>, A>),
    /// A turn that waits for bytes of this id to be written to standard output.
    Shown(Id, Box<Turn<A>, A>),
    /// A turn that waits for bytes of this id to be written to the log.
    Noted(Id, Box<Turn<A>, A>),
    /// A turn that waits for an id, which ended, to be closed.
    Closed(Box<Ended<A>, A>),
}

/// A turn after the end of an id, which is to be closed before what was chosen is done.
#[derive(Drop)]
pub struct Ended<A: Allocator> {
    pub id: Id,
    pub turn: Box<Turn<A>, A>,
    /// What was chosen, if anything was.
    pub choice: Option<Choice<A>>,
}

/// The result of a turn.
#[derive(Drop)]
pub enum Turned<A: Allocator> {
    /// The `expect` is over.
    Has(Outcome<A>),
    /// A body runs, with how many levels may still be nested in it; its outcome goes to the turn.
    Runs(CodedScript<A>, u8, Box<Turn<A>, A>),
    /// An act waits for its answer.
    Asks(Act<A>, Waits<A>),
}

/// What follows the words of a command, once all are there, or the outcome of a body.
#[derive(Drop)]
pub enum Opening<A: Allocator> {
    /// The command is over.
    Has(Outcome<A>),
    /// A turn begins.
    Turns(Box<Turn<A>, A>),
}

/// What follows the words of one of the three commands.
#[derive(Drop)]
pub enum Begun<A: Allocator> {
    /// A turn begins, or the command is over.
    Opens(Opening<A>),
    /// These words of an argument in braces are to be substituted for the command.
    Gathers(CodedArgument<A>, Form),
}

/// What follows the answer to an act.
#[derive(Drop)]
pub enum Talk<A: Allocator> {
    /// The turn has this result.
    Turned(Turned<A>),
    /// Another turn begins.
    Turns(Box<Turn<A>, A>),
}

impl<A: Allocator> Turn<A> {
    /// Makes the turn look for a pair after this trigger.
    pub(crate) fn look_after(&mut self, trigger: Trigger)
        ensures turn { turn_of self.new ≡ begun_by trigger (turn_of self.old) }
        ensures levels { self.new.levels ≡ self.old.levels }
    {
        self.trigger = trigger;
    }

    /// Takes its vector of rows out, so that an act may have it.
    pub(crate) fn take_rows(&mut self, alloc: A) -> Vec<Row, A>
        ensures rows { result ≡ self.old.rows }
        ensures turn { turn_of self.new ≡ turn_of self.old }
        ensures levels { self.new.levels ≡ self.old.levels }
    {
        mem::replace(&mut self.rows, Vec::new(alloc))
    }

    /// Puts back the vector of rows that an act had.
    pub(crate) fn put_rows(&mut self, rows: Vec<Row, A>)
        ensures turn { turn_of self.new ≡ turn_of self.old }
        ensures levels { self.new.levels ≡ self.old.levels }
    {
        self.rows = rows;
    }

    /// Begins the turn again; its next wait has this timer, if there is one.
    pub(crate) fn begin_again(&mut self, clock: Option<Timer>)
        ensures turn { turn_of self.new ≡ renewed clock (turn_of self.old) }
        ensures levels { self.new.levels ≡ self.old.levels }
    {
        self.trigger = Trigger::Entry;
        self.clock = clock;
    }

    /// Gives the next wait of the turn this timer.
    pub(crate) fn set_clock(&mut self, clock: Timer)
        ensures turn { turn_of self.new ≡ timed clock (turn_of self.old) }
        ensures levels { self.new.levels ≡ self.old.levels }
    {
        self.clock = Some(clock);
    }
}
