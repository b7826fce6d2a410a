//! Code is put after the code that stands there already: that of parts, of words, and of commands.

ghost use Rattle.std.specs.Prelude.{◌≡◌, true, length, option_map, IfOk, OnOk};
ghost use Rattle.code.specs.Blocks.{ArgumentBlock, CommandBlock, CommandsBlock, OwnBlock, PartsBlock, ScriptBlock, ValueBlock, ValuesBlock, WordBlock, WordsBlock};
ghost use Rattle.tclparse.specs.Seen.{fault_of};
ghost use Rattle.tclparse.specs.Tree.{no_commands, no_parts, no_words};
ghost use Rattle.tclparse.specs.View.{commands_of, commands_then, part_view, parts_then, word_view, words_then};

use crate::direct::{direct_of, direct_on};
use crate::each::{emit_each, read_each};
use crate::formula::fill;
use crate::instruction::Instruction;
use crate::nest::Nest;
use crate::own::{Own, emit_its};
use crate::switch::{emit_switch, read_switch};
use memory::NoMemory;
use std::alloc::Allocator;
use tclparse::{Command, Part, Script, Word};
use tcltext::Value;

/// Puts code that puts the value of a part on top.
#[cycle(emit)]
fn emit_value<A: Allocator + Copy, N: Nest<A>>(
    code: &mut Vec<Instruction<A>, A>,
    part: &Part<A>,
    nest: &N,
) -> Result<(), NoMemory>
    ensures { OnOk result (ValueBlock code.old.items code.new.items (part_view part.now)) }
{
    match part {
        Part::Literal(text) => {
            let text = text.share()?;
            code.push(Instruction::Text(text))?;
        }
        Part::Variable(name) => {
            let name = name.share()?;
            code.push(Instruction::Variable(name))?;
        }
        Part::Element(name, index) => {
            emit_parts(code, index, nest)?;
            let name = name.share()?;
            code.push(Instruction::Element(name))?;
        }
        Part::Bracket(commands) => {
            code.push(Instruction::Enter)?;
            emit_commands(code, commands, nest)?;
            code.push(Instruction::Leave)?;
        }
    }
    Ok(())
}

/// Puts code that puts the value of a word on top.
#[cycle(emit)]
pub(crate) fn emit_parts<A: Allocator + Copy, N: Nest<A>>(
    code: &mut Vec<Instruction<A>, A>,
    parts: &[Part<A>],
    nest: &N,
) -> Result<(), NoMemory>
    ensures { OnOk result (PartsBlock code.old.items code.new.items
        (parts_then parts.now no_parts)) }
{
    let Some((first, rest)) = parts.split_first() else {
        code.push(Instruction::Text(Value::empty()))?;
        return Ok(());
    };
    emit_value(code, first, nest)?;
    for part in rest {
        emit_value(code, part, nest)?;
        code.push(Instruction::Join)?;
    }
    Ok(())
}

/// Puts the code of a word of a command, before which this many words stand, and says whether the
/// words of the command are counted from now on.
#[cycle(emit)]
fn emit_word<A: Allocator + Copy, N: Nest<A>>(
    code: &mut Vec<Instruction<A>, A>,
    word: &Word<A>,
    count: usize,
    counted: bool,
    nest: &N,
) -> Result<bool, NoMemory>
    ensures block { IfOk result (λ counts. WordBlock counted counts count code.old.items
        code.new.items (word_view word.now)) }
    ensures stays { IfOk result (λ counts. counted ≡ true → counts ≡ true) }
{
    if !word.expands {
        emit_parts(code, &word.parts, nest)?;
        return Ok(counted);
    }
    if !counted {
        code.push(Instruction::Count(count))?;
    }
    emit_parts(code, &word.parts, nest)?;
    code.push(Instruction::Spread)?;
    Ok(true)
}

/// Puts code that puts the values of words on top, which are counted or not, and says whether they
/// are counted after the last one.
#[cycle(emit)]
fn emit_values<A: Allocator + Copy, N: Nest<A>>(
    code: &mut Vec<Instruction<A>, A>,
    words: &[Word<A>],
    counted: bool,
    nest: &N,
) -> Result<bool, NoMemory>
    ensures block { IfOk result (λ counts. ValuesBlock counted counts (length words.now)
        code.old.items code.new.items (words_then words.now no_words)) }
    ensures stays { IfOk result (λ counts. counted ≡ true → counts ≡ true) }
{
    let mut counts = counted;
    for (count, word) in words.iter().enumerate() {
        counts = emit_word(code, word, count, counts, nest)?;
    }
    Ok(counts)
}

/// Puts code that puts the values of the words of a command on top, and begins the command.
#[cycle(emit)]
pub(crate) fn emit_words<A: Allocator + Copy, N: Nest<A>>(
    code: &mut Vec<Instruction<A>, A>,
    words: &[Word<A>],
    nest: &N,
) -> Result<(), NoMemory>
    ensures { OnOk result (WordsBlock code.old.items code.new.items
        (words_then words.now no_words)) }
{
    let counted = emit_values(code, words, false, nest)?;
    code.push(if counted {
        Instruction::Counted
    } else {
        Instruction::Command(words.len())
    })?;
    Ok(())
}

/// Puts code that puts the values of the words of an argument in braces after the name of its
/// command, which is on top, and gives the branches of that.
pub(crate) fn emit_argument<A: Allocator + Copy, N: Nest<A>>(
    code: &mut Vec<Instruction<A>, A>,
    words: &[Word<A>],
    nest: &N,
) -> Result<(), NoMemory>
    ensures { OnOk result (ArgumentBlock code.old.items code.new.items
        (words_then words.now no_words)) }
{
    code.push(Instruction::Count(1))?;
    emit_values(code, words, true, nest)?;
    code.push(Instruction::Say)?;
    Ok(())
}

/// Puts the code of a `set`, an `append` or an `incr` of three words, where the first two are
/// literals, and says whether these words are one.
#[cycle(emit)]
fn emit_of_three<A: Allocator + Copy, N: Nest<A>>(
    code: &mut Vec<Instruction<A>, A>,
    words: &[Word<A>],
    nest: &N,
) -> Result<bool, NoMemory>
    ensures { IfOk result (λ put. OwnBlock put code.old.items code.new.items
        (words_then words.now no_words)) }
{
    let [command, name, value] = words else {
        return Ok(false);
    };
    if value.expands {
        return Ok(false);
    }
    let Some(direct) = direct_on(*code.allocator(), command, name)? else {
        return Ok(false);
    };
    emit_parts(code, &value.parts, nest)?;
    code.push(direct)?;
    Ok(true)
}

/// Puts the code of an `incr` or a `return` of two words, and says whether these words are one.
#[cycle(emit)]
fn emit_of_two<A: Allocator + Copy, N: Nest<A>>(
    code: &mut Vec<Instruction<A>, A>,
    words: &[Word<A>],
    nest: &N,
) -> Result<bool, NoMemory>
    ensures { IfOk result (λ put. OwnBlock put code.old.items code.new.items
        (words_then words.now no_words)) }
{
    let [command, last] = words else {
        return Ok(false);
    };
    if last.expands {
        return Ok(false);
    }
    let Some(direct) = direct_of(command) else {
        return Ok(false);
    };
    emit_parts(code, &last.parts, nest)?;
    code.push(direct)?;
    Ok(true)
}

/// Puts the code of a command whose words are literals: its words, for where a procedure hides it,
/// and then what it does. Says whether these words are one that has such code.
#[cycle(emit)]
#[inline(never)]
fn emit_of_literals<A: Allocator + Copy, N: Nest<A>>(
    code: &mut Vec<Instruction<A>, A>,
    words: &[Word<A>],
    nest: &N,
) -> Result<bool, NoMemory>
    ensures { IfOk result (λ put. OwnBlock put code.old.items code.new.items
        (words_then words.now no_words)) }
{
    let Some(own) = Own::of_literals(*code.allocator(), words)? else {
        return Ok(false);
    };
    let name = Value::from_slice(*code.allocator(), own.name())?;
    let unhidden = code.len();
    code.push(Instruction::Hole)?;
    emit_words(code, words, nest)?;
    let over = code.len();
    code.push(Instruction::Hole)?;
    fill(code, unhidden, Instruction::Unhidden(name, code.len()));
    emit_its(code, &own, nest)?;
    fill(code, over, Instruction::Jump(code.len()));
    Ok(true)
}

/// Puts the code of a `foreach` that has code of its own, and says whether these words are one: its
/// list, and its turns.
#[cycle(emit)]
#[inline(never)]
fn emit_of_list<A: Allocator + Copy, N: Nest<A>>(
    code: &mut Vec<Instruction<A>, A>,
    words: &[Word<A>],
    nest: &N,
) -> Result<bool, NoMemory>
    ensures { IfOk result (λ put. OwnBlock put code.old.items code.new.items
        (words_then words.now no_words)) }
{
    let Some(own) = read_each(*code.allocator(), words)? else {
        return Ok(false);
    };
    let Some(list) = words.get(2) else {
        return Ok(false);
    };
    emit_parts(code, &list.parts, nest)?;
    emit_each(code, &own, nest)?;
    Ok(true)
}

/// Puts the code of a `switch` that has code of its own, and says whether these words are one: its
/// string, and its patterns with their bodies.
#[cycle(emit)]
#[inline(never)]
fn emit_of_string<A: Allocator + Copy, N: Nest<A>>(
    code: &mut Vec<Instruction<A>, A>,
    words: &[Word<A>],
    nest: &N,
) -> Result<bool, NoMemory>
    ensures { IfOk result (λ put. OwnBlock put code.old.items code.new.items
        (words_then words.now no_words)) }
{
    let Some(own) = read_switch(*code.allocator(), words)? else {
        return Ok(false);
    };
    let Some(string) = words.get(own.options.before()) else {
        return Ok(false);
    };
    emit_parts(code, &string.parts, nest)?;
    emit_switch(code, own, nest)?;
    Ok(true)
}

/// Puts the code of a command that has code of its own, and says whether it has any.
#[cycle(emit)]
fn emit_whole<A: Allocator + Copy, N: Nest<A>>(
    code: &mut Vec<Instruction<A>, A>,
    words: &[Word<A>],
    nest: &N,
) -> Result<bool, NoMemory>
    ensures { IfOk result (λ put. OwnBlock put code.old.items code.new.items
        (words_then words.now no_words)) }
{
    if emit_of_literals(code, words, nest)? {
        return Ok(true);
    }
    if nest.put_argued(code, words)? {
        return Ok(true);
    }
    if emit_of_list(code, words, nest)? {
        return Ok(true);
    }
    Ok(emit_of_string(code, words, nest)?)
}

/// Puts the code of a command that has code or an instruction of its own, and says whether it has.
#[cycle(emit)]
fn emit_own<A: Allocator + Copy, N: Nest<A>>(
    code: &mut Vec<Instruction<A>, A>,
    words: &[Word<A>],
    nest: &N,
) -> Result<bool, NoMemory>
    ensures { IfOk result (λ put. OwnBlock put code.old.items code.new.items
        (words_then words.now no_words)) }
{
    if emit_whole(code, words, nest)? {
        return Ok(true);
    }
    if emit_of_three(code, words, nest)? {
        return Ok(true);
    }
    Ok(emit_of_two(code, words, nest)?)
}

/// Puts the code of a command, which begins so many bytes before the end of its text.
#[cycle(emit)]
fn emit_command<A: Allocator + Copy, N: Nest<A>>(
    code: &mut Vec<Instruction<A>, A>,
    from_end: usize,
    words: &[Word<A>],
    nest: &N,
) -> Result<(), NoMemory>
    ensures { OnOk result (CommandBlock code.old.items code.new.items
        (words_then words.now no_words)) }
{
    code.push(Instruction::Next(from_end))?;
    if !emit_own(code, words, nest)? {
        emit_words(code, words, nest)?;
    }
    Ok(())
}

/// Puts the code of commands.
#[cycle(emit)]
fn emit_commands<A: Allocator + Copy, N: Nest<A>>(
    code: &mut Vec<Instruction<A>, A>,
    commands: &[Command<A>],
    nest: &N,
) -> Result<(), NoMemory>
    ensures { OnOk result (CommandsBlock code.old.items code.new.items
        (commands_then commands.now no_commands)) }
{
    for command in commands {
        emit_command(code, command.from_end, &command.words, nest)?;
    }
    Ok(())
}

/// Puts the code of a script: its commands one after the other, and its fault, if it has one.
pub(crate) fn emit_script<A: Allocator + Copy, N: Nest<A>>(
    code: &mut Vec<Instruction<A>, A>,
    script: &Script<A>,
    nest: &N,
) -> Result<(), NoMemory>
    ensures { OnOk result (ScriptBlock code.old.items code.new.items
        (commands_of script.now.commands) (option_map fault_of script.now.fault)) }
{
    emit_commands(code, &script.commands, nest)?;
    if let Some(fault) = script.fault {
        code.push(Instruction::Fault(fault))?;
    }
    Ok(())
}
