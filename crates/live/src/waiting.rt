//! How long a wait may go on.

ghost use Rattle.std.specs.Prelude.{◌≡◌, true, List, IfOk, MatchBool};
ghost use Rattle.std.specs.List.{AllByRecursion};
ghost use Rattle.acts.specs.Fits.{runs_out};
ghost use Rattle.acts.specs.declared.act.Timer.TheVariants.{Running};
ghost use Rattle.live.specs.Calls.{Call, Made};
ghost use Rattle.live.specs.Waiting.{Asks, IsNow, Leaves, ShowsUp, Starts};
ghost use Rattle.live.specs.declared.waiting.Left.TheVariants.{Nothing};

use crate::calls::System;
use acts::Timer;
use std::io;
use std::time::{Duration, Instant};

/// How long a wait may go on.
#[derive(Clone, Copy, Debug, PartialEq, Eq)]
pub enum Left {
    /// As long as it takes.
    Endless,
    /// For this long.
    For(Duration),
    /// The time is up.
    Nothing,
}

/// Starts the timer where a wait does so, and gives the time at which it runs out: `None` where
/// that time lies beyond what the clock can represent, or no timer was started.
pub fn time_from<S: System>(
    system: &mut S,
    earlier: Option<Instant>,
    timer: Timer,
) -> io::Result<Option<Instant>>
    ensures { IfOk result (λ deadline. (calls : List Call)
        × Made S.step system.old calls system.new × AllByRecursion IsNow calls
        × Starts timer earlier deadline calls) }
{
    match timer {
        Timer::Start(seconds) => {
            let now = system.now()?;
            Ok(now.checked_add(Duration::from_secs(seconds)))
        }
        Timer::Running | Timer::Endless => Ok(earlier),
    }
}

/// How long a wait with this timer may still go on, where the timer runs out at this time.
pub fn time_left<S: System>(
    system: &mut S,
    deadline: Option<Instant>,
    timer: Timer,
) -> io::Result<Left>
    ensures up { IfOk result (λ left. left ≡ Nothing → runs_out timer ≡ true) }
    ensures leaves { IfOk result (λ left. Leaves S.step system.old timer deadline left system.new) }
{
    if timer == Timer::Endless {
        return Ok(Left::Endless);
    }
    let Some(deadline) = deadline else {
        return Ok(Left::Endless);
    };
    let now = system.now()?;
    if now >= deadline {
        return Ok(Left::Nothing);
    }
    Ok(Left::For(deadline.saturating_duration_since(now)))
}

/// Whether a timer that goes on has run out at this time.
pub fn is_over<S: System>(
    system: &mut S,
    deadline: Option<Instant>,
    timer: Timer,
) -> io::Result<bool>
    ensures up { IfOk result (λ over. over ≡ true → runs_out timer ≡ true) }
    ensures running { IfOk result (λ over. over ≡ true → timer ≡ Running) }
    ensures shows { IfOk result (λ over. MatchBool over
        (ShowsUp S.step system.old deadline system.new) (Asks S.step system.old system.new)) }
{
    if timer != Timer::Running {
        return Ok(false);
    }
    match time_left(system, deadline, timer)? {
        Left::Nothing => Ok(true),
        Left::For(_) | Left::Endless => Ok(false),
    }
}
