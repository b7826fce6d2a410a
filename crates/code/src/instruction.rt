//! What is done at one place of the code.

use crate::options::Options;
use patterns::Pattern;
use std::alloc::Allocator;
use tclparse::{Binary, Fault, Function, Unary};
use tcltext::Value;

/// What is done at one place of the code. The operands are a stack of texts.
#[derive(Drop)]
pub enum Instruction<A: Allocator> {
    /// A command begins, so many bytes before the end of the text that it stands in: the value of
    /// the command before it, which is on top, is dropped, and a tick is taken (Tcl(n), rule 1).
    Next(usize),
    /// Puts a text on top.
    Text(Value<A>),
    /// Puts the value of the variable of this name on top (Tcl(n), rule 8).
    Variable(Value<A>),
    /// Replaces the index on top by the value of the element at it of the array of this name
    /// (Tcl(n), rule 8).
    Element(Value<A>),
    /// Puts the text on top after the text below it, so that both are one (Tcl(n), rule 11).
    Join,
    /// A script in brackets begins, one level deeper; the empty text, its value so far, is put on
    /// top (Tcl(n), rule 7).
    Enter,
    /// A script that is a word of a command begins, one level deeper, in the same way; so many
    /// words stand after it (if(n)).
    Body(usize),
    /// That script is over; its value is on top (Tcl(n), rule 7).
    Leave,
    /// The script of this text runs, one level deeper, and its value is put on top; so many words
    /// stand after it (Tcl(n), rule 7; if(n)).
    Run(Value<A>, usize),
    /// From here on the words of a command are counted, since one is after `{*}`; this many of them
    /// are operands already (Tcl(n), rule 5).
    Count(usize),
    /// Replaces the list on top by its elements, each a word (Tcl(n), rule 5).
    Spread,
    /// Begins a command whose words are this many operands, the last word on top (Tcl(n), rule 2).
    Command(usize),
    /// Begins a command whose words were counted (Tcl(n), rule 2).
    Counted,
    /// These words, which were counted, are those of an argument in braces, after the name of its
    /// command: they give the branches of that (expect(1), expect).
    Say,
    /// The text has this fault, which ends its script (Tcl(n)).
    Fault(Fault),
    /// Puts the value of a numeral on top (expr(n), operands).
    Numeral(Value<A>),
    /// Replaces the operand on top by the value of a prefix operator (expr(n), operators).
    Prefix(Unary),
    /// Replaces the two upper operands by the value of an operator (expr(n), operators).
    Binary(Binary),
    /// Replaces this many upper operands by the value of a function (mathfunc(n)).
    Call(Function, usize),
    /// `&&` after its left operand: where that is false, its value is 0, and this place is next;
    /// where it is true it is dropped (expr(n), operators).
    AndAlso(usize),
    /// `||` after its left operand: where that is true, its value is 1, and this place is next;
    /// where it is false it is dropped (expr(n), operators).
    OrElse(usize),
    /// Replaces the operand on top by its truth value, 0 or 1 (expr(n), operators).
    Truth,
    /// The value of this text as a formula is put on top (expr(n)).
    Evaluate(Value<A>),
    /// Replaces the value of a formula on top by what `expr` gives: a number in decimal, all else
    /// as it stands (expr(n)).
    Result,
    /// Drops the truth value on top; where it is false, this place is next (expr(n), operators).
    Unless(usize),
    /// This place is next.
    Jump(usize),
    /// Where no procedure has this name, this place is next: there stands the code that the command
    /// of this name has of its own (proc(n)).
    Unhidden(Value<A>, usize),
    /// Drops the truth value of a loop's test. Where it is true, a tick is taken, and the first
    /// place, where the body stands, is next: this and `Begin` are the only ways back. Within the
    /// body `continue` goes to the second place, where the body ends, with the empty text on top,
    /// and `break` to the place after this one (while(n)).
    Turn(usize, usize),
    /// The body of a turn is over: its value, which is on top, is dropped, and the script that runs
    /// after each turn begins. Within it `break` goes where it went within the body, and `continue`
    /// is passed on to what is around the loop (for(n)).
    Step,
    /// A turn is over: the value on top is dropped (while(n), for(n)).
    EndTurn,
    /// The value on top is dropped (for(n)).
    Discard,
    /// A `foreach` with these variables and this body, whose list is on top. Where a procedure has
    /// its name, the command begins by its words, and this place is next (foreach(n); proc(n)).
    Foreach(Value<A>, Value<A>, usize),
    /// Replaces the list on top by its elements, the first one on top, and marks how many operands
    /// stand below them; this place is next (foreach(n)).
    Deal(usize),
    /// Where no element is left, this place is next (foreach(n)).
    More(usize),
    /// The variable of this name takes the next element, or the empty text where none is left
    /// (foreach(n)).
    Assign(Value<A>),
    /// Takes a tick, and begins a turn: the first place, where the body stands, is next. Within the
    /// body `continue` goes to the second place, where the body ends, with the empty text on top,
    /// and `break` to the place after this one (foreach(n)).
    Begin(usize, usize),
    /// A `foreach` is over: the elements that are left are dropped, with their mark, and the empty
    /// text is put on top (foreach(n)).
    Done,
    /// A `switch` with these options and with these words after its string, which is on top. Where
    /// a procedure has its name, or where the string would be taken for an option, the command
    /// begins by its words, and this place is next (switch(n); proc(n)).
    Switch(Options, Vec<Value<A>, A>, usize),
    /// Where the string on top is this text, the first place is next, else the second (switch(n)).
    Equals(Value<A>, usize, usize),
    /// Where this glob takes the string on top, the first place is next, else the second
    /// (switch(n); string(n), match).
    Matches(Pattern<A>, usize, usize),
    /// The script of a `catch` begins, at the next place. Within it each outcome that is no value,
    /// but for a stop of the run, goes to this place, with the number of its code on top, and above
    /// that the value that came with it (catch(n)).
    Catch(usize),
    /// That script is over: the number of ok, 0, is put below its value, which is on top
    /// (catch(n)).
    EndCatch,
    /// The variable of this name takes the value on top, which is dropped (catch(n)).
    Store(Value<A>),
    /// The variable of this name takes the value on top, which stays there. Where a procedure has
    /// the name of `set`, that begins by its words, of which this value is the last (set(n);
    /// proc(n)).
    Set(Value<A>),
    /// The text on top is put after that of the variable of this name, whose new text takes its
    /// place. Where a procedure has the name of `append`, that begins by its words, of which this
    /// text is the last (append(n); proc(n)).
    Append(Value<A>),
    /// The number on top is added to the variable of this name, and the sum takes its place. Where
    /// a procedure has the name of `incr`, that begins by its words, of which this number is the
    /// last (incr(n); proc(n)).
    Add(Value<A>),
    /// Adds one to the variable of the name on top, and puts the sum in the name's place. Where a
    /// procedure has the name of `incr`, that begins by its words, of which this name is the last
    /// (incr(n); proc(n)).
    Increment,
    /// The script is left by `return` with the value on top. Where a procedure has the name of
    /// `return`, that begins by its words, of which this value is the last (return(n); proc(n)).
    Return,
    /// Nothing yet: a jump will stand here. No code that is whole has it.
    Hole,
}
