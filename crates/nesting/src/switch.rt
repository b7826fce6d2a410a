//! `switch ?-exact|-glob? ?--? t {p b ..}`, or `switch .. t p b ..` (switch(n)).

ghost use Rattle.std.specs.Prelude.{◌≡◌, ◌≤◌, IfOk, option_copied};
ghost use Rattle.state.specs.Prelude.{Status, FitsState};
ghost use Rattle.nesting.specs.Nesting.{Nests};
ghost use Rattle.nesting.specs.Eval.{next_of};
ghost use Rattle.nesting.specs.Looping.{Comes};
ghost use Rattle.nesting.specs.Switch as definition;
ghost use Rattle.nesting.specs.Switch.{is_default, mode_of};

use crate::Nesting;
use crate::arguments::{bad_argument, wrong_args};
use crate::eval::{Held, run};
use crate::listed::elements_of;
use acts::{Fault, NoMemory};
use kept::Kept;
use patterns::{Pattern, PatternError};
use state::State;
use state::arguments::begins_with_dash;
use state::outcome::raised;
use std::alloc::Allocator;
use tcltext::Value;

/// How a pattern is compared with the text.
#[derive(Clone, Copy, Debug, PartialEq, Eq)]
pub enum Mode {
    /// Byte by byte.
    Exact,
    /// As `string match` does (string(n)).
    Glob,
}

/// Runs the body of the first pattern that matches the text; two words have no flags.
pub fn begin<A: Allocator + Copy>(
    alloc: A,
    kept: &mut Kept<A>,
    state: &mut State<A>,
    args: &[Value<A>],
    levels: u8,
) -> Result<Nesting<A, Held>, NoMemory>
    ensures nests { (s : Status) → FitsState state.old s → IfOk result (λ nesting.
        Nests next_of nesting state.new (definition.switch levels args.now s)) }
    ensures left { state.new.left ≤ state.old.left }
{
    if args.len() <= 2 {
        on_words(alloc, kept, state, Mode::Exact, args, levels)
    } else {
        on_flags(alloc, kept, state, args, levels)
    }
}

/// Continues after the flag that says the mode, if there is one.
fn on_flags<A: Allocator + Copy>(
    alloc: A,
    kept: &mut Kept<A>,
    state: &mut State<A>,
    words: &[Value<A>],
    levels: u8,
) -> Result<Nesting<A, Held>, NoMemory>
    ensures nests { (s : Status) → FitsState state.old s → IfOk result (λ nesting.
        Nests next_of nesting state.new (definition.on_flags levels words.now s)) }
    ensures left { state.new.left ≡ state.old.left }
{
    let [word, rest @ ..] = words else {
        return Ok(Nesting::Has(wrong_args(alloc, b"switch")?));
    };
    let word = word.as_slice();
    if word == b"-exact".as_slice() {
        behind_flag(alloc, kept, state, Mode::Exact, rest, levels)
    } else if word == b"-glob".as_slice() {
        behind_flag(alloc, kept, state, Mode::Glob, rest, levels)
    } else {
        behind_flag(alloc, kept, state, Mode::Exact, words, levels)
    }
}

/// Continues after `--`, if it stands first; any other first word with a dash is wrong.
fn behind_flag<A: Allocator + Copy>(
    alloc: A,
    kept: &mut Kept<A>,
    state: &mut State<A>,
    mode: Mode,
    words: &[Value<A>],
    levels: u8,
) -> Result<Nesting<A, Held>, NoMemory>
    ensures nests { (s : Status) → FitsState state.old s → IfOk result (λ nesting.
        Nests next_of nesting state.new
        (definition.behind_flag levels (mode_of mode) words.now s)) }
    ensures left { state.new.left ≡ state.old.left }
{
    let [word, rest @ ..] = words else {
        return Ok(Nesting::Has(wrong_args(alloc, b"switch")?));
    };
    let word = word.as_slice();
    if word == b"--".as_slice() {
        on_words(alloc, kept, state, mode, rest, levels)
    } else if begins_with_dash(word) {
        Ok(Nesting::Has(bad_argument(alloc, word, b"switch")?))
    } else {
        on_words(alloc, kept, state, mode, words, levels)
    }
}

/// Takes the text, and the patterns with their bodies: as one list, or as words.
fn on_words<A: Allocator + Copy>(
    alloc: A,
    kept: &mut Kept<A>,
    state: &mut State<A>,
    mode: Mode,
    words: &[Value<A>],
    levels: u8,
) -> Result<Nesting<A, Held>, NoMemory>
    ensures nests { (s : Status) → FitsState state.old s → IfOk result (λ nesting.
        Nests next_of nesting state.new (definition.on_words levels (mode_of mode) words.now s)) }
    ensures left { state.new.left ≡ state.old.left }
{
    match words {
        [] | [_] => Ok(Nesting::Has(wrong_args(alloc, b"switch")?)),
        [text, list] => match elements_of(alloc, list.as_slice())? {
            Ok(arms) => on_arms(alloc, kept, state, mode, text.as_slice(), &arms, levels),
            Err(fault) => Ok(Nesting::Has(raised(alloc, fault)?)),
        },
        [text, arms @ ..] => on_arms(alloc, kept, state, mode, text.as_slice(), arms, levels),
    }
}

/// Tries the patterns, unless one lacks its body.
fn on_arms<A: Allocator + Copy>(
    alloc: A,
    kept: &mut Kept<A>,
    state: &mut State<A>,
    mode: Mode,
    text: &[u8],
    arms: &[Value<A>],
    levels: u8,
) -> Result<Nesting<A, Held>, NoMemory>
    ensures nests { (s : Status) → FitsState state.old s → IfOk result (λ nesting.
        Nests next_of nesting state.new
        (definition.on_arms levels (mode_of mode) text.now arms.now s)) }
    ensures left { state.new.left ≡ state.old.left }
{
    if let Some(word) = left_over(arms) {
        return Ok(Nesting::Has(bad_argument(alloc, word.as_slice(), b"switch")?));
    }
    match chosen(alloc, mode, text, arms)? {
        Ok(Some(body)) => run(alloc, kept, state, body.as_slice(), levels),
        Ok(None) => Ok(Nesting::Has(Ok(Value::empty()))),
        Err(fault) => Ok(Nesting::Has(raised(alloc, fault)?)),
    }
}

/// The last of the patterns and bodies, where it is a pattern without a body, or a `-` without a
/// next body to share.
fn left_over<A: Allocator>(arms: &[Value<A>]) -> Option<&Value<A>>
    ensures { option_copied result ≡ definition.left_over arms.now }
{
    let last = arms.last()?;
    if arms.len() % 2 == 1 {
        return Some(last);
    }
    if is_shared(last.as_slice()) {
        Some(last)
    } else {
        None
    }
}

/// Whether a body is `-`: the pattern shares the body of the next one.
fn is_shared(body: &[u8]) -> bool
    ensures { result ≡ definition.is_shared body.now }
{
    body == b"-".as_slice()
}

/// The body of the first pattern that matches the text, if one does; or the script's error.
fn chosen<'a, A: Allocator + Copy>(
    alloc: A,
    mode: Mode,
    text: &[u8],
    arms: &'a [Value<A>],
) -> Result<Result<Option<&'a Value<A>>, Fault<A>>, NoMemory>
    ensures { IfOk result (λ r. Comes r (λ body. option_copied body)
        (definition.chosen (mode_of mode) text.now arms.now)) }
{
    let mut rest = arms;
    'arms: while let [pattern, _, more @ ..] = rest {
        match tried(alloc, mode, pattern.as_slice(), text, more)? {
            Ok(true) => return Ok(Ok(body_of(&rest[1..]))),
            Ok(false) => rest = more,
            Err(fault) => return Ok(Err(fault)),
        }
    }
    Ok(Ok(None))
}

/// Whether a pattern matches the text; a last `default` matches any text.
fn tried<A: Allocator + Copy>(
    alloc: A,
    mode: Mode,
    pattern: &[u8],
    text: &[u8],
    more: &[Value<A>],
) -> Result<Result<bool, Fault<A>>, NoMemory>
    ensures { IfOk result (λ r. Comes r (λ takes. takes)
        (definition.tried (is_default pattern.now more.now) (mode_of mode) pattern.now text.now)) }
{
    if pattern == b"default".as_slice() && more.is_empty() {
        return Ok(Ok(true));
    }
    takes(alloc, mode, pattern, text)
}

/// Whether a pattern matches the text.
fn takes<A: Allocator + Copy>(
    alloc: A,
    mode: Mode,
    pattern: &[u8],
    text: &[u8],
) -> Result<Result<bool, Fault<A>>, NoMemory>
    ensures { IfOk result (λ r. Comes r (λ takes. takes)
        (definition.takes (mode_of mode) pattern.now text.now)) }
{
    match mode {
        Mode::Exact => Ok(Ok(pattern == text)),
        Mode::Glob => match Pattern::plain(alloc, pattern) {
            Ok(pattern) => Ok(Ok(pattern.whole(text))),
            Err(PatternError::TooLong) => Ok(Err(Fault::PatternTooLong)),
            Err(PatternError::NoMemory(refusal)) => Err(refusal),
        },
    }
}

/// The body of a pattern: of the bodies from its own on, the first that is not `-`.
fn body_of<'a, A: Allocator>(bodies: &'a [Value<A>]) -> Option<&'a Value<A>>
    ensures { option_copied result ≡ definition.body_of bodies.now }
{
    let mut rest = bodies;
    'bodies: while let [body, _, more @ ..] = rest {
        if !is_shared(body.as_slice()) {
            return Some(body);
        }
        rest = more;
    }
    rest.first()
}
