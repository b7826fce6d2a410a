//! A world that answers from a recorded run.

ghost use Rattle.std.specs.Prelude.{◌≡◌, ◌||◌, ℕ, List, map, false};
ghost use Rattle.acts.specs.Deed.{deed_of, reply_of};
ghost use Rattle.records.specs.Entry.{note_of, plain_note};
ghost use Rattle.records.specs.Sink.{Takes};
ghost use Rattle.replays.specs.Recording.{recorded_in, whole};
ghost use Rattle.replays.specs.Replay.{Replays, ReplaysBy, Writes, gone_out};

use crate::answerer::Answerer;
use crate::recording::Recording;
use acts::{Act, Answer, World};
use records::{Entry, Sink, put_all};
use std::alloc::Allocator;

/// A world that answers from a recorded run, the first answer first, and then `Answer::NoMore`. It
/// writes the bytes that go out by the acts Out and Err to its two writers, and only answers the
/// others.
pub struct Replay<A: Allocator, O, E> {
    recording: Recording<A>,
    out: O,
    err: E,
}

impl<A: Allocator, O: Drop, E: Drop> Drop for Replay<A, O, E> {
    fn drop(self) {
        let Replay {
            recording: _,
            out: _,
            err: _,
        } = self;
    }
}

impl<A: Allocator, O: Sink, E: Sink> Replay<A, O, E> {
    /// A replay of a list of answers, whose writers have not failed.
    pub fn new(answers: Vec<Answer<A>, A>, out: O, err: E) -> Replay<A, O, E>
        requires out { O.has_failed out ≡ false }
        requires err { E.has_failed err ≡ false }
        ensures answers { recorded_in result.recording
            ≡ whole (map plain_note (map reply_of answers.items)) }
        ensures out { result.out ≡ out }
        ensures err { result.err ≡ err }
    {
        Replay {
            recording: Recording::of_answers(answers),
            out,
            err,
        }
    }

    /// A replay of a list of entries. The answer of an entry with rows is given only to a wait for
    /// these.
    pub fn of_entries(entries: Vec<Entry<A>, A>, out: O, err: E) -> Replay<A, O, E>
        requires out { O.has_failed out ≡ false }
        requires err { E.has_failed err ≡ false }
        ensures entries { recorded_in result.recording ≡ whole (map note_of entries.items) }
        ensures out { result.out ≡ out }
        ensures err { result.err ≡ err }
    {
        Replay {
            recording: Recording::of_entries(entries),
            out,
            err,
        }
    }

    /// Whether one of the two writers has failed.
    pub fn fault(&self) -> bool
        ensures { result ≡ (O.has_failed self.now.out || E.has_failed self.now.err) }
    {
        self.out.failed() || self.err.failed()
    }

    /// The number of the act that differed from the recorded run, counted from 1; `None` if none
    /// did.
    pub fn differs(&self) -> Option<u64>
        ensures { result ≡ (recorded_in self.now.recording).differs }
    {
        self.recording.differs()
    }
}

impl<A: Allocator, O: Sink, E: Sink> World<A> for Replay<A, O, E> {
    ghost step = { λ before act answer after.
        Replays O.adds O.has_failed E.adds E.has_failed
        (recorded_in before.recording, (before.out, before.err)) act answer
        (recorded_in after.recording, (after.out, after.err)) };

    fn act(&mut self, act: &Act<A>) -> Answer<A> {
        answer_from(&mut self.recording, &mut self.out, &mut self.err, act)
    }
}

/// A replay whose recorded run and writers are lent to it.
#[derive(Drop)]
pub struct LentReplay<'a, 'o, 'e, R, O, E> {
    pub recorded: &'a mut R,
    pub out: &'o mut O,
    pub err: &'e mut E,
}

impl<A: Allocator, R: Answerer<A>, O: Sink, E: Sink> World<A> for LentReplay<'_, '_, '_, R, O, E> {
    // A step of a replay, after which the same recorded run and writers are still lent.
    ghost step = { λ before act answer after.
        ReplaysBy O.adds O.has_failed E.adds E.has_failed R.answers
        (before.recorded.now, (before.out.now, before.err.now))
        act answer
        (after.recorded.now, (after.out.now, after.err.now))
        × (after.recorded.ghost_name ≡ before.recorded.ghost_name)
        × (after.out.ghost_name ≡ before.out.ghost_name)
        × (after.err.ghost_name ≡ before.err.ghost_name) };

    fn act(&mut self, act: &Act<A>) -> Answer<A> {
        answer_from(self.recorded, self.out, self.err, act)
    }
}

/// Gives the answer to an act, and writes the bytes that go out by an act Out or Err.
fn answer_from<A: Allocator, R: Answerer<A>, O: Sink, E: Sink>(
    recorded: &mut R,
    out: &mut O,
    err: &mut E,
    act: &Act<A>,
) -> Answer<A>
    ensures { ReplaysBy O.adds O.has_failed E.adds E.has_failed R.answers
        (recorded.old, (out.old, err.old)) (deed_of act.now) (reply_of result)
        (recorded.new, (out.new, err.new)) }
{
    let answer = recorded.answer(act);
    put_answered(out, err, act, &answer);
    answer
}

/// Writes the bytes that go out by an act Out or Err that was answered so.
fn put_answered<A: Allocator, O: Sink, E: Sink>(
    out: &mut O,
    err: &mut E,
    act: &Act<A>,
    answer: &Answer<A>,
)
    ensures { Writes (Takes O.adds O.has_failed) (Takes E.adds E.has_failed)
        (out.old, err.old) (deed_of act.now) (reply_of answer.now) (out.new, err.new) }
{
    match act {
        Act::Out(text) => put_all(out, went_out(text, answer)),
        Act::Err(text) => put_all(err, went_out(text, answer)),
        _ => {}
    }
}

/// The bytes that go out of a text that is written, as the answer to the write says.
fn went_out<'a, A: Allocator>(text: &'a [u8], answer: &Answer<A>) -> &'a [u8]
    ensures { result.now ≡ gone_out text.now (reply_of answer.now) }
{
    match answer {
        Answer::Done => text,
        Answer::Failed(sent) if *sent <= text.len() as u64 => &text[..*sent as usize],
        _ => &[],
    }
}
