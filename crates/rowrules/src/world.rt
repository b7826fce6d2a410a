//! Worlds that answer from a list and write down what they are asked.

use acts::{Act, Answer, World, fits};
use refusal::Refusing;
use rowfiles::spelling::push_act;
use std::alloc::{Allocator, Global};
use std::slice::Iter;
use std::vec::IntoIter;

/// A world that writes down each act and answers from a list, the first answer first. After the
/// list it answers Done where that fits.
#[derive(Drop)]
pub struct Scripted<A: Allocator> {
    answers: IntoIter<Answer<A>, A>,
    /// The acts so far, a line each. An act is left out where there is no memory for its line.
    told: String,
}

impl<A: Allocator> Scripted<A> {
    /// A world of these answers, which writes in memory of its own.
    pub fn new(log: Global, answers: Vec<Answer<A>, A>) -> Scripted<A> {
        Scripted {
            answers: answers.into_iter(),
            told: String::new(log),
        }
    }

    /// The acts so far.
    pub fn into_told(self) -> String {
        let Scripted { answers: _, told } = self;
        told
    }
}

impl<A: Allocator> World<A> for Scripted<A> {
    ghost step = { λ _ _ _ _. Unit {0} };

    fn act(&mut self, act: &Act<A>) -> Answer<A> {
        if push_act(&mut self.told, act).is_ok() {
            let _kept = self.told.push_str("\n");
        }
        match self.answers.next() {
            Some(answer) => answer,
            None if fits(act, &Answer::<A>::Done) => Answer::Done,
            None => Answer::NoMore,
        }
    }
}

/// A scripted world that has memory refused for a while: from the answers to some acts to the next
/// act each time.
#[derive(Drop)]
pub struct Starved<'h, A: Allocator> {
    inner: Scripted<A>,
    heap: &'h Refusing<Global>,
    /// For each act, whether memory is refused from its answer on.
    hungry: Iter<'h, bool>,
}

impl<'h, A: Allocator> Starved<'h, A> {
    /// A world over this one.
    pub fn new(
        inner: Scripted<A>,
        heap: &'h Refusing<Global>,
        hungry: &'h [bool],
    ) -> Starved<'h, A> {
        Starved {
            inner,
            heap,
            hungry: hungry.iter(),
        }
    }

    /// The acts so far.
    pub fn into_told(self) -> String {
        let Starved {
            inner,
            heap: _,
            hungry: _,
        } = self;
        inner.into_told()
    }
}

impl<A: Allocator> World<A> for Starved<'_, A> {
    ghost step = { λ _ _ _ _. Unit {0} };

    fn act(&mut self, act: &Act<A>) -> Answer<A> {
        let answer = self.inner.act(act);
        if self.hungry.next().copied().unwrap_or(false) {
            self.heap.refuse_all();
        } else {
            self.heap.refuse_none();
        }
        answer
    }
}
