//! Scripts of a file, one a line in hexadecimal digits: what each prints, and its error.

use acts::{Act, Answer, Limits, World, fits};
use anyhow::{Context, Result};
use engine::{End, run};
use rowfiles::record::push_hex;
use std::alloc::{Allocator, Global};
use std::fs;
use std::io::Write;
use std::rt::Files;

/// The ticks of a script.
const TICKS: u64 = 100_000;

/// A world that does each act that can be done, and keeps what is printed.
#[derive(Drop)]
struct Printing {
    out: Vec<u8>,
}

impl<A: Allocator> World<A> for Printing {
    ghost step = { λ _ _ _ _. Unit {0} };

    fn act(&mut self, act: &Act<A>) -> Answer<A> {
        if let Act::Out(bytes) = act {
            if self.out.extend_from_slice(bytes).is_err() {
                return Answer::NoMore;
            }
        }
        if fits(act, &Answer::<A>::Done) {
            Answer::Done
        } else {
            Answer::NoMore
        }
    }
}

/// Runs each script of a file, and writes a line for each: what it printed, and the text of its
/// error or `-`, in hexadecimal digits.
pub fn run_scripts<R: Files + AllocGlobal, W: Write>(
    rt: &R,
    writer: &mut W,
    path: &str,
) -> Result<()> {
    let text = fs::read_to_string(rt, path)?;
    for line in text.lines() {
        let script = hex::decode(rt.alloc(), line.as_bytes()).context("no script")?;
        let mut answer = run_script(rt.alloc(), &script)?;
        answer.push_str("\n")?;
        writer.write_all(answer.as_bytes())?;
    }
    Ok(())
}

/// The line of a script.
fn run_script(alloc: Global, script: &[u8]) -> Result<String> {
    let limits = Limits::new(TICKS).context("ticks")?;
    let mut world = Printing {
        out: Vec::new(alloc),
    };
    let ended = run(alloc, script, &[], limits, &mut world).context("no memory")?;
    let mut line = String::new(alloc);
    push_hex(&mut line, &world.out)?;
    line.push_str(" ")?;
    match &ended {
        End::Exit(_) => line.push_str("-")?,
        End::Error(text) => push_hex(&mut line, text)?,
        End::Limit => push_hex(&mut line, b"command limit reached")?,
        _ => push_hex(&mut line, b"no answer")?,
    }
    Ok(line)
}
