//! Texts that are kept.

use code::{CodedScript, Instruction};
use kept::Kept;
use memory::NoMemory;
use std::alloc::Allocator;
use std::rc::Rc;
use tables::{Answers, number, push_shown};

/// The table of how many texts are kept.
pub struct KeptTexts;

impl Answers for KeptTexts {
    fn answer<A: Allocator + Copy>(
        &self,
        row: &[Vec<u8>],
        answer: &mut Vec<u8, A>,
    ) -> Result<(), NoMemory> {
        let [texts, most] = row else {
            return Ok(());
        };
        let (texts, most) = (number(texts) as usize, number(most) as usize);
        let mut kept = Kept::new(*answer.allocator());
        let first = keep(*answer.allocator(), &mut kept, texts, most)?;
        tell_again(answer, &mut kept, &first)
    }
}

/// Keeps so many texts, and gives their scripts as far as each is the same when it is asked for
/// again, and no more than `most` are kept.
fn keep<A: Allocator + Copy>(
    alloc: A,
    kept: &mut Kept<A>,
    texts: usize,
    most: usize,
) -> Result<Vec<CodedScript<A>, A>, NoMemory> {
    let mut first = Vec::new(alloc);
    for n in 0..texts {
        if let Some(script) = keep_next(alloc, kept, n, most)? {
            first.push(script)?;
        }
    }
    Ok(first)
}

/// Keeps the text after so many, and gives its script, where that is the same when it is asked for
/// again, and no more than `most` are kept.
fn keep_next<A: Allocator + Copy>(
    alloc: A,
    kept: &mut Kept<A>,
    n: usize,
    most: usize,
) -> Result<Option<CodedScript<A>>, NoMemory> {
    let text = format!(in alloc; "set x {n}")?;
    let script = kept.get(text.as_bytes())?;
    let wanted = n.saturating_add(1).min(most);
    let is_kept = kept.len() == wanted;
    if is_same(kept, text.as_bytes(), &script)? && is_kept && kept.len() == wanted {
        Ok(Some(script))
    } else {
        Ok(None)
    }
}

/// Whether a text has this script when it is asked for.
fn is_same<A: Allocator + Copy>(
    kept: &mut Kept<A>,
    text: &[u8],
    script: &CodedScript<A>,
) -> Result<bool, NoMemory> {
    let again = kept.get(text)?;
    Ok(Rc::ptr_eq(script.code(), again.code()))
}

/// Writes of how many scripts there are, and of those, from the newest to the oldest so that no
/// kept text goes out before it is asked for, which is the first that is not the same any more, and
/// how many are of one command.
fn tell_again<A: Allocator + Copy>(
    answer: &mut Vec<u8, A>,
    kept: &mut Kept<A>,
    first: &Vec<CodedScript<A>, A>,
) -> Result<(), NoMemory> {
    let mut same = 0u64;
    let mut single = 0u64;
    let mut gone = 0usize;
    for (n, script) in first.iter().enumerate().rev() {
        let text = format!(in *answer.allocator(); "set x {n}")?;
        if is_same(kept, text.as_bytes(), script)? {
            same = same.saturating_add(1);
        } else {
            gone = gone.max(n);
        }
        if commands_in(script) == 1 {
            single = single.saturating_add(1);
        }
    }
    push_shown(
        answer,
        format_args!("{same} same, {gone} gone, {single} single"),
    )
}

/// How many commands a script has, those of scripts in brackets among them.
pub(crate) fn commands_in<A: Allocator>(script: &CodedScript<A>) -> usize {
    let mut count = 0usize;
    for it in script.code().iter() {
        if let Instruction::Next(_) = it {
            count = count.saturating_add(1);
        }
    }
    count
}
