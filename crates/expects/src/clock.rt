//! The timer of a wait (expect(1), timeout).

ghost use Rattle.std.specs.Prelude.{◌≡◌, is_some, IsOk, IsTrue};
ghost use Rattle.state.specs.Prelude.{Answers, Status, FitsState};
ghost use Rattle.expects.specs.Clock as definition;

use acts::{Raise, Timer};
use kinds::words::number_in;
use state::State;
use state::variables::consulted;
use std::alloc::Allocator;

/// The variable that holds for how many seconds a wait goes on (expect(1), timeout).
const TIMEOUT: &[u8] = b"timeout";

/// For how many seconds a wait goes on where no variable says so (expect(1), timeout).
const SECONDS: u64 = 10;

/// The timer of a wait: the one that was started before, else one that is started now.
///
/// # Errors
/// What the variable `timeout` holds is no number; or memory is refused for the error.
pub(crate) fn clock_of<A: Allocator + Copy>(
    alloc: A,
    state: &State<A>,
    clock: Option<Timer>,
    seconds: Option<i64>,
) -> Result<Timer, Raise<A>>
    ensures clock { (s : Status) → FitsState state.now s →
        Answers (λ timer. timer) (definition.clock_of clock seconds s) result }
    ensures running { IsTrue (is_some clock) → IsOk result }
{
    match clock {
        Some(clock) => Ok(clock),
        None => started(alloc, state, seconds),
    }
}

/// A timer that is started: that of `-timeout`, else that of the variable `timeout`, else one of
/// `SECONDS` seconds.
fn started<A: Allocator + Copy>(
    alloc: A,
    state: &State<A>,
    seconds: Option<i64>,
) -> Result<Timer, Raise<A>>
    ensures { (s : Status) → FitsState state.now s →
        Answers (λ timer. timer) (definition.started seconds s) result }
{
    if let Some(seconds) = seconds {
        return Ok(timer_of(seconds));
    }
    match consulted(state, TIMEOUT) {
        Some(text) => Ok(timer_of(number_in(alloc, text)?)),
        None => Ok(Timer::Start(SECONDS)),
    }
}

/// The timer of a number of seconds; a negative number means that there is no timer.
fn timer_of(seconds: i64) -> Timer
    ensures { result ≡ definition.timer_of seconds }
{
    if seconds < 0 {
        Timer::Endless
    } else {
        Timer::Start(seconds.unsigned_abs())
    }
}

/// The timer of the waits after one with this timer.
pub(crate) fn later(clock: Timer) -> Timer
    ensures { result ≡ definition.later clock }
{
    match clock {
        Timer::Endless => Timer::Endless,
        _ => Timer::Running,
    }
}
