//! The branches of `if` (if(n)).

ghost use Rattle.std.specs.Prelude.{◌≡◌, ◌<◌, length, option_map, IfOk, IfSome};
ghost use Rattle.std.specs.Str.{bytes_eq};
ghost use Rattle.code.specs.Branches as definition;
ghost use Rattle.code.specs.Branching.{HasFewerWords, IsFront, behind_of, branches_of};

use memory::NoMemory;
use std::alloc::Allocator;
use std::collections::VecDeque;
use tcltext::Value;

/// A test and its body.
#[derive(Drop)]
pub struct Branch<A: Allocator> {
    pub test: Value<A>,
    pub body: Value<A>,
    /// How many words stand after the body.
    pub after: usize,
}

/// The branches in order, and the last body, if there is one.
#[derive(Drop)]
pub struct Branches<A: Allocator> {
    pub tests: VecDeque<Branch<A>, A>,
    pub otherwise: Option<Value<A>>,
}

/// A test and its body at the front of some words, and the words after them.
#[derive(Drop)]
pub(crate) struct Front<'a, A: Allocator> {
    pub test: &'a Value<A>,
    pub body: &'a Value<A>,
    pub behind: &'a [Value<A>],
}

/// What stands after a body.
#[derive(Drop)]
pub(crate) enum Behind<'a, A: Allocator> {
    /// `elseif`, and branches from the next word on.
    Branches(&'a [Value<A>]),
    /// The end, with the last body, if there is one.
    End(Option<&'a Value<A>>),
    /// Neither: the words make no branches.
    Wrong,
}

impl<A: Allocator + Copy> Branches<A> {
    /// The branches that the words after `if` make; `None` where they make none.
    ///
    /// # Errors
    /// `NoMemory` where memory is refused.
    pub fn read(alloc: A, words: &[Value<A>]) -> Result<Option<Branches<A>>, NoMemory>
        ensures { IfOk result (λ found.
            option_map (λ b. branches_of b) found ≡ definition.branches words.now) }
    {
        let mut tests = VecDeque::new(alloc);
        let mut rest = words;
        'branches: loop {
            let Some(front) = first_branch(rest) else {
                return Ok(None);
            };
            let test = front.test.share()?;
            let body = front.body.share()?;
            let after = front.behind.len();
            tests.push_back(Branch { test, body, after })?;
            match read_behind(front.behind) {
                Behind::Branches(more) => rest = more,
                Behind::End(None) => {
                    let otherwise = None;
                    return Ok(Some(Branches { tests, otherwise }));
                }
                Behind::End(Some(body)) => {
                    let otherwise = Some(body.share()?);
                    return Ok(Some(Branches { tests, otherwise }));
                }
                Behind::Wrong => return Ok(None),
            }
        }
    }
}

/// The branch at the front of some words; `None` where they begin with none.
fn first_branch<A: Allocator>(words: &[Value<A>]) -> Option<Front<'_, A>>
    ensures front { IsFront result (definition.branches words.now) }
    ensures fewer { IfSome result (λ front. length front.behind.now < length words.now) }
{
    let [test, word, more @ ..] = words else {
        return None;
    };
    if is_word(word, b"then") {
        return with_body(test, more);
    }
    Some(Front {
        test,
        body: word,
        behind: more,
    })
}

/// A test with the body at the front of some words; `None` where none stands there.
fn with_body<'a, A: Allocator>(test: &'a Value<A>, words: &'a [Value<A>]) -> Option<Front<'a, A>>
    ensures front { IsFront result (definition.with_body test.now words.now) }
    ensures fewer { IfSome result (λ front. length front.behind.now < length words.now) }
{
    let [body, behind @ ..] = words else {
        return None;
    };
    Some(Front { test, body, behind })
}

/// What stands after a body.
fn read_behind<A: Allocator>(words: &[Value<A>]) -> Behind<'_, A>
    ensures behind { behind_of result ≡ definition.behind words.now }
    ensures fewer { HasFewerWords result (length words.now) }
{
    let [word, more @ ..] = words else {
        return Behind::End(None);
    };
    if is_word(word, b"elseif") {
        return Behind::Branches(more);
    }
    match last_body(words) {
        Some(body) => Behind::End(Some(body)),
        None => Behind::Wrong,
    }
}

/// The last body, with `else` before it or without; `None` where the words are neither.
fn last_body<A: Allocator>(words: &[Value<A>]) -> Option<&Value<A>>
    ensures { option_map (λ body. body.now) result ≡ definition.last_body words.now }
{
    match words {
        [word, more @ ..] if is_word(word, b"else") => alone(more),
        _ => alone(words),
    }
}

/// The only one of these words; `None` where there is none, or more than one.
fn alone<A: Allocator>(words: &[Value<A>]) -> Option<&Value<A>>
    ensures { option_map (λ word. word.now) result ≡ definition.alone words.now }
{
    match words {
        [word] => Some(word),
        _ => None,
    }
}

/// Whether a word has this text.
fn is_word<A: Allocator>(word: &Value<A>, text: &[u8]) -> bool
    ensures { result ≡ bytes_eq word.now text.now }
{
    word.as_slice() == text
}
