//! `foreach vars list ?vars list ..? body` (foreach(n)).

ghost use Rattle.std.specs.Prelude.{◌≡◌, ◌≤◌, [], map, IfOk, IfNone};
ghost use Rattle.state.specs.Prelude.{inside, Status, FitsState, outcome_of};
ghost use Rattle.nesting.specs.Foreach as definition;
ghost use Rattle.nesting.specs.Foreach.{assigns, behind, row};
ghost use Rattle.nesting.specs.Looping.{Assigned, next_of, pair_of, turns_left};
ghost use Rattle.state.specs.Turn.{on_turn};
ghost use Rattle.nesting.specs.Nesting.{Nests, TicksFirst, course_of};

use crate::Nesting;
use crate::arguments::wrong_args;
use crate::pair::Pair;
use acts::{Fault, NoMemory};
use code::{CodedScript, Made};
use kept::Kept;
use state::outcome::raised;
use state::turn::end_after_body;
use state::{Leave, Outcome, State, Stop};
use std::alloc::Allocator;
use tcltext::Value;

/// What the loop holds while its body runs: the variables with their remaining elements, how many
/// turns are to come, the body, and how many levels may still nest in the loop.
pub struct Held<A: Allocator> {
    pub pairs: Vec<Pair<A>, A>,
    pub turns: usize,
    pub body: CodedScript<A>,
    pub levels: u8,
}

impl<A: Allocator> Drop for Held<A> {
    fn drop(self) {
        let Held {
            pairs: _,
            turns: _,
            body: _,
            levels: _,
        } = self;
    }
}

/// Reads the words, and begins the first turn.
pub fn begin<A: Allocator + Copy>(
    alloc: A,
    kept: &mut Kept<A>,
    state: &mut State<A>,
    args: &[Value<A>],
    levels: u8,
) -> Result<Nesting<A, Held<A>>, NoMemory>
    ensures nests { (s : Status) → FitsState state.old s → IfOk result (λ nesting.
        Nests next_of nesting state.new (definition.foreach levels args.now s)) }
    ensures left { state.new.left ≤ state.old.left }
{
    if !is_taken(args.len()) {
        return Ok(Nesting::Has(wrong_args(alloc, b"foreach")?));
    }
    read(alloc, kept, state, args, levels)
}

/// Hands the outcome of the body to the loop.
pub fn resumed<A: Allocator + Copy>(
    alloc: A,
    state: &mut State<A>,
    held: Held<A>,
    outcome: Outcome<A>,
) -> Result<Nesting<A, Held<A>>, NoMemory>
    ensures nests { (s : Status) → FitsState state.old s → IfOk result (λ nesting.
        Nests next_of nesting state.new (next_of held s (outcome_of outcome))) }
    ensures left { state.new.left ≤ state.old.left }
    ensures ticks { IfOk result (λ nesting.
        TicksFirst nesting state.new.left state.old.left) }
{
    match end_after_body(outcome) {
        Some(end) => Ok(Nesting::Has(end)),
        None => turn(alloc, state, held),
    }
}

/// Whether the command takes so many words.
fn is_taken(count: usize) -> bool
    ensures { result ≡ definition.is_taken count }
{
    3 <= count && count % 2 == 1
}

/// Reads the words from left to right, and begins the first turn.
fn read<A: Allocator + Copy>(
    alloc: A,
    kept: &mut Kept<A>,
    state: &mut State<A>,
    args: &[Value<A>],
    levels: u8,
) -> Result<Nesting<A, Held<A>>, NoMemory>
    ensures nests { (s : Status) → FitsState state.old s → IfOk result (λ nesting.
        Nests next_of nesting state.new
        (definition.with_pairs args.now [] s (definition.begins levels s))) }
    ensures left { state.new.left ≤ state.old.left }
{
    let mut pairs = Vec::new(alloc);
    let mut turns = 0;
    let mut rest = args;
    'pairs: while let [variables, list, more @ ..] = rest {
        match Pair::read(alloc, variables.as_slice(), list.as_slice())? {
            Ok((pair, asked)) => {
                pairs.push(pair)?;
                turns = turns.max(asked);
            }
            Err(fault) => return Ok(Nesting::Has(raised(alloc, fault)?)),
        }
        rest = more;
    }
    let [body] = rest else {
        return Ok(Nesting::Has(wrong_args(alloc, b"foreach")?));
    };
    let body = kept.get(body.as_slice())?;
    let held = Held {
        pairs,
        turns,
        body,
        levels,
    };
    turn(alloc, state, held)
}

/// The next turn, where there is one: the variables are set, and the body runs after a tick.
fn turn<A: Allocator + Copy>(
    alloc: A,
    state: &mut State<A>,
    mut held: Held<A>,
) -> Result<Nesting<A, Held<A>>, NoMemory>
    ensures nests { (s : Status) → FitsState state.old s → IfOk result (λ nesting.
        Nests next_of nesting state.new (turns_left held s)) }
    ensures left { state.new.left ≤ state.old.left }
    ensures ticks { IfOk result (λ nesting.
        TicksFirst nesting state.new.left state.old.left) }
{
    let Some(turns) = held.turns.checked_sub(1) else {
        return Ok(Nesting::Has(Ok(Value::empty())));
    };
    held.turns = turns;
    if let Some(fault) = assign_all(alloc, state, &mut held.pairs)? {
        return Ok(Nesting::Has(raised(alloc, fault)?));
    }
    if state.left == 0 {
        return Ok(Nesting::Has(Err(Leave::Stopped(Stop::Limit))));
    }
    state.left -= 1;
    run_body(alloc, held)
}

/// Sets the variables of all pairs; gives the script's error where one can't be set.
fn assign_all<A: Allocator + Copy>(
    alloc: A,
    state: &mut State<A>,
    pairs: &mut Vec<Pair<A>, A>,
) -> Result<Option<Fault<A>>, NoMemory>
    ensures assigns { (s : Status) → FitsState state.old s → IfOk result (λ told.
        Assigned told state.new (assigns (row (map (λ p. pair_of p) pairs.old.items)) s)) }
    ensures behind { IfOk result (λ told. IfNone told
        (map (λ p. pair_of p) pairs.new.items
        ≡ map behind (map (λ p. pair_of p) pairs.old.items))) }
    ensures left { state.new.left ≡ state.old.left }
{
    let mut index = 0;
    'pairs: while index < pairs.len() {
        let pair = &mut pairs[index];
        if let Some(fault) = pair.assign(alloc, state)? {
            return Ok(Some(fault));
        }
        index += 1;
    }
    Ok(None)
}

/// Runs the body, one level deeper.
fn run_body<A: Allocator + Copy>(alloc: A, held: Held<A>) -> Result<Nesting<A, Held<A>>, NoMemory>
    ensures { (s : Status) → IfOk result (λ nesting.
        inside held.levels held.body s (on_turn (turns_left held))
        ≡ course_of next_of nesting s) }
{
    let Some(inner) = held.levels.checked_sub(1) else {
        return Ok(Nesting::Has(raised(alloc, Fault::TooManyNested)?));
    };
    let body = Made::Script(held.body.share()?);
    Ok(Nesting::Runs(body, inner, held))
}
