//! The runs of a pattern: its items between two `*`, each of which takes one byte.
ghost use Rattle.std.specs.Prelude.{◌≡◌, ℕ, ◌+◌, ◌*◌, ◌≤◌, ◌↔◌, ◌++◌, ◌∷◌, [], IsTrue, length, map, MatchOption, IfOk, IfSome};
ghost use Rattle.patterns.specs.Item.{literal};
ghost use Rattle.patterns.specs.Runs.{items_of, items_of_run, items_of_runs, item_of_token, Holds, TakesFirst, IsPlace, IsFirstPlace, IsLastPlace, FitsNowhere};

use crate::token::Token;
use crate::window::Window;
use crate::{items, text, walk};
use memory::NoMemory;
use std::alloc::Allocator;

/// Items, each of which takes one byte.
#[derive(Drop)]
pub enum Run<A: Allocator> {
    /// Bytes that stand for themselves, so that a search for a text can find the run.
    Text(Vec<u8, A>),
    /// Items of which not all are literal bytes.
    Items(Vec<Token<A>, A>),
}

/// All runs of a pattern.
#[derive(Drop)]
pub struct Runs<A: Allocator> {
    /// Each run that has a `*` after it.
    pub starred: Vec<Run<A>, A>,
    /// The last run.
    pub last: Run<A>,
}

impl<A: Allocator> Run<A> {
    /// How many items the run has, which is also how many bytes it takes.
    pub fn len(&self) -> usize
        ensures { result ≡ length (items_of_run self.now) }
    {
        match self {
            Run::Text(bytes) => bytes.len(),
            Run::Items(tokens) => tokens.len(),
        }
    }

    /// The bytes of a run whose items are all literal bytes; of another run no bytes.
    fn text(&self) -> &[u8]
        ensures { Holds (items_of_run self.now) result.now }
    {
        match self {
            Run::Text(bytes) => bytes.as_slice(),
            Run::Items(_) => &[],
        }
    }

    /// The one byte that the first item may take, where it is known.
    pub fn first_byte(&self) -> Option<u8>
        ensures { IfSome result (λ byte.
            (b : ℕ) → TakesFirst (items_of_run self.now) b → b ≡ byte) }
    {
        match self {
            Run::Text(bytes) => bytes.first().copied(),
            Run::Items(tokens) => match tokens.first() {
                Some(Token::Literal(byte)) => Some(*byte),
                _ => None,
            },
        }
    }

    /// Whether the run fits at this place of the window. Counts a step for each item that it tests.
    pub fn fits_at(&self, window: &Window<'_>, place: usize, steps: &mut u64) -> bool
        requires { place ≤ length window.now }
        ensures fits { IsTrue result ↔ IsPlace (items_of_run self.now) window.now place }
        ensures steps { steps.new ≤ steps.old + length (items_of_run self.now) }
    {
        let text = window.behind(place);
        match self {
            Run::Text(bytes) => text::fits(bytes, text, steps),
            Run::Items(tokens) => items::fits(tokens, text, steps),
        }
    }

    /// The first place of the window, at or after `from`, at which the run fits.
    pub fn first_place(&self, window: &Window<'_>, from: usize, steps: &mut u64) -> Option<usize>
        requires { from ≤ length window.now }
        ensures place { let items = items_of_run self.now in MatchOption result
            (FitsNowhere items window.now from)
            (IsFirstPlace items window.now from) }
        ensures steps { let items = items_of_run self.now in
            steps.new ≤ steps.old + length items * (length window.now + 1) }
    {
        match (self, window.as_bytes()) {
            (Run::Text(text), Some(bytes)) => text::first_place(text, bytes, from, steps),
            _ => walk::first_place(self, window, from, steps),
        }
    }

    /// The last place of the window, at or after `from`, at which the run fits.
    pub fn last_place(&self, window: &Window<'_>, from: usize, steps: &mut u64) -> Option<usize>
        requires { from ≤ length window.now }
        ensures place { let items = items_of_run self.now in MatchOption result
            (FitsNowhere items window.now from)
            (IsLastPlace items window.now from) }
        ensures steps { let items = items_of_run self.now in
            steps.new ≤ steps.old + length items * (length window.now + 1) }
    {
        match (self, window.as_bytes()) {
            (Run::Text(text), Some(bytes)) => text::last_place(text, bytes, from, steps),
            _ => walk::last_place(self, window, from, steps),
        }
    }
}

impl<A: Allocator> Runs<A> {
    /// The bytes of the last run or, where that has none, of the run before it.
    pub fn text(&self) -> &[u8]
        ensures { Holds (items_of_runs self.now) result.now }
    {
        let text = self.last.text();
        match self.starred.split_last() {
            Some((run, _)) if text.is_empty() => run.text(),
            _ => text,
        }
    }
}

impl<A: Allocator + Copy> Run<A> {
    /// The run with one more item at its end.
    pub fn with(self, alloc: A, token: Token<A>) -> Result<Run<A>, NoMemory>
        ensures { IfOk result (λ run.
            items_of_run run ≡ items_of_run self ++ item_of_token token ∷ []) }
    {
        match (self, token) {
            (Run::Text(mut bytes), Token::Literal(byte)) => {
                bytes.push(byte)?;
                Ok(Run::Text(bytes))
            }
            (run, token) => {
                let mut tokens = run.into_tokens(alloc)?;
                tokens.push(token)?;
                Ok(Run::Items(tokens))
            }
        }
    }

    /// The items, each as a token.
    fn into_tokens(self, alloc: A) -> Result<Vec<Token<A>, A>, NoMemory>
        ensures { IfOk result (λ tokens. items_of tokens.items ≡ items_of_run self) }
    {
        match self {
            Run::Text(bytes) => literal_tokens(alloc, &bytes),
            Run::Items(tokens) => Ok(tokens),
        }
    }
}

/// A token for each byte of the text.
fn literal_tokens<A: Allocator + Copy>(alloc: A, text: &[u8]) -> Result<Vec<Token<A>, A>, NoMemory>
    ensures { IfOk result (λ tokens. items_of tokens.items ≡ map literal text.now) }
{
    let mut tokens = Vec::with_capacity(alloc, text.len())?;
    for byte in text {
        tokens.push(Token::Literal(*byte))?;
    }
    Ok(tokens)
}
