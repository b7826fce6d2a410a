//! Where bytes that stand for themselves fit in a window.
ghost use Rattle.std.specs.Prelude.{ℕ, ◌+◌, ◌*◌, ◌≤◌, ◌↔◌, IsTrue, length, map, MatchOption};
ghost use Rattle.patterns.specs.Glob.{exact};
ghost use Rattle.patterns.specs.Item.{literal};
ghost use Rattle.patterns.specs.Match.{IsFound, Sits, SitsNowhere};
ghost use Rattle.patterns.specs.Runs.{Fits, IsFirstPlace, IsLastPlace, FitsNowhere};

use crate::window::Window;
use memchr::memmem;

/// Whether the text begins with the bytes. Each of the bytes counts as one step.
pub fn fits(bytes: &[u8], text: Window<'_>, steps: &mut u64) -> bool
    ensures fits { IsTrue result ↔ Fits (map literal bytes.now) text.entry }
    ensures steps { steps.new ≤ steps.old + length bytes.now }
{
    *steps = steps.saturating_add(bytes.len() as u64);
    match text.as_bytes() {
        Some(text) => text.starts_with(bytes),
        None => begins(text, bytes),
    }
}

/// Whether the text begins with the bytes.
fn begins(text: Window<'_>, bytes: &[u8]) -> bool
    ensures { IsTrue result ↔ Fits (map literal bytes.now) text.entry }
{
    let mut rest = text;
    let mut wanted = bytes;
    while let [byte, more @ ..] = wanted {
        let Some((first, behind)) = rest.split_first() else {
            return false;
        };
        if first != *byte {
            return false;
        }
        wanted = more;
        rest = behind;
    }
    true
}

/// The first place of the window, at or after `from`, at which the bytes stand.
///
/// Takes time linear in the length of the window and the bytes. Each byte of the window that is
/// passed counts as one step, and so does each of the bytes that are found.
pub fn first_place(bytes: &[u8], window: &[u8], from: usize, steps: &mut u64) -> Option<usize>
    requires { from ≤ length window.now }
    ensures place { let items = map literal bytes.now in MatchOption result
        (FitsNowhere items window.now from)
        (IsFirstPlace items window.now from) }
    ensures steps { steps.new ≤ steps.old + length bytes.now * (length window.now + 1) }
{
    if bytes.is_empty() {
        return Some(from);
    }
    let behind = &window[from..];
    let Some(passed) = memmem::find(behind, bytes) else {
        *steps = steps.saturating_add(behind.len() as u64);
        return None;
    };
    *steps = steps.saturating_add((passed + bytes.len()) as u64);
    Some(from + passed)
}

/// The first place of the window at which a text stands, if the text is known to stand at no place
/// before `from`. Takes no memory, and time linear in the length of the window from `from` on.
pub fn find_text(text: &[u8], window: &[u8], from: usize) -> Option<usize>
    requires inside { from ≤ length window.now }
    requires low { (s e : ℕ) → Sits (exact text.now) window.now s e → from ≤ s }
    ensures { MatchOption result
        (SitsNowhere (exact text.now) window.now)
        (λ place. IsFound (exact text.now) window.now place (place + length text.now)) }
{
    let mut steps = 0;
    first_place(text, window, from, &mut steps)
}

/// The last place of the window, at or after `from`, at which the bytes stand. Time and steps are
/// those of [`first_place`].
pub fn last_place(bytes: &[u8], window: &[u8], from: usize, steps: &mut u64) -> Option<usize>
    requires { from ≤ length window.now }
    ensures place { let items = map literal bytes.now in MatchOption result
        (FitsNowhere items window.now from)
        (IsLastPlace items window.now from) }
    ensures steps { steps.new ≤ steps.old + length bytes.now * (length window.now + 1) }
{
    if bytes.is_empty() {
        return Some(window.len());
    }
    let behind = &window[from..];
    let Some(before) = memmem::rfind(behind, bytes) else {
        *steps = steps.saturating_add(behind.len() as u64);
        return None;
    };
    *steps = steps.saturating_add((behind.len() - before) as u64);
    Some(from + before)
}
