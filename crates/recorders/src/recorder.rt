//! A world that records another one.

ghost use Rattle.std.specs.Prelude.{◌≡◌, ℕ, List};
ghost use Rattle.acts.specs.Deed.{deed_of, reply_of};
ghost use Rattle.records.specs.Entry.{AreLinesOf, second_header};
ghost use Rattle.records.specs.Record.{IsTold};
ghost use Rattle.records.specs.Sink.{Takes};
ghost use Rattle.recorders.specs.Recorder.{Records, TakesEntry, rows_of, told_rows};

use acts::{Act, Answer, Row, World};
use records::{Sink, are_rows, write_header, write_line, write_waited};
use std::alloc::Allocator;

/// A world that passes each act to another world, and writes each answer, with the rows of its
/// wait, to a sink as it comes: a record of version 2. A recorder keeps no answers. Nothing more is
/// written to a sink that has failed; acts are answered all the same.
pub struct Recorder<W, S> {
    world: W,
    sink: S,
}

impl<W: Drop, S: Drop> Drop for Recorder<W, S> {
    fn drop(self) {
        let Recorder { world: _, sink: _ } = self;
    }
}

impl<W, S: Sink> Recorder<W, S> {
    /// A recorder of a world, which writes the header first.
    pub fn new(world: W, mut sink: S) -> Recorder<W, S>
        ensures world { result.world ≡ world }
        ensures header { Takes S.adds S.has_failed sink second_header result.sink }
    {
        write_header(&mut sink);
        Recorder { world, sink }
    }

    /// Whether the sink has failed.
    pub fn fault(&self) -> bool
        ensures { result ≡ S.has_failed self.now.sink }
    {
        self.sink.failed()
    }
}

impl<A: Allocator, W: World<A>, S: Sink> World<A> for Recorder<W, S> {
    // A step of the world, whose lines the sink takes.
    ghost step = { λ before act reply after. Records W.step S.adds S.has_failed
        (before.world, before.sink) act reply (after.world, after.sink) };

    fn act(&mut self, act: &Act<A>) -> Answer<A> {
        let answer = self.world.act(act);
        write_step(&mut self.sink, act, &answer);
        answer
    }
}

/// Writes the lines of an act with its answer; `Answer::NoMore` has none.
pub(crate) fn write_step<A: Allocator, S: Sink>(sink: &mut S, act: &Act<A>, answer: &Answer<A>)
    ensures { TakesEntry S.adds S.has_failed sink.old (deed_of act.now) (reply_of answer.now)
        sink.new }
{
    match answer {
        Answer::NoMore => {}
        _ => write_told(sink, act, answer),
    }
}

/// Writes the lines of an act with an answer other than `Answer::NoMore`.
fn write_told<A: Allocator, S: Sink>(sink: &mut S, act: &Act<A>, answer: &Answer<A>)
    requires { IsTold (reply_of answer.now) }
    ensures { (lines : List ℕ)
        × AreLinesOf (rows_of (deed_of act.now)) (reply_of answer.now) lines
        × Takes S.adds S.has_failed sink.old lines sink.new }
{
    match act {
        Act::Wait { rows, .. } => write_wait(sink, rows, answer),
        _ => write_line(sink, answer),
    }
}

/// Writes the lines of a wait with its answer, and with its rows where a record can state them.
fn write_wait<A: Allocator, S: Sink>(sink: &mut S, rows: &[Row], answer: &Answer<A>)
    requires { IsTold (reply_of answer.now) }
    ensures { (lines : List ℕ) × AreLinesOf (told_rows rows.now) (reply_of answer.now) lines
        × Takes S.adds S.has_failed sink.old lines sink.new }
{
    if are_rows(rows) {
        write_waited(sink, rows, answer);
    } else {
        write_line(sink, answer);
    }
}
