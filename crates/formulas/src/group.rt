//! How operators group: each level joins what tighter levels made.

ghost use Rattle.std.specs.Prelude.{◌≡◌, ◌+◌, IfOk, Bool, false};
ghost use Rattle.tclparse.specs.Operator as binds;
ghost use Rattle.tclparse.specs.Formula.{no_links};
ghost use Rattle.tclparse.specs.Grouping.{row_of, joined_at, grouped};
ghost use Rattle.formulas.specs.View.{formula_of, links_then};
ghost use Rattle.formulas.specs.Group.{has_level};

use crate::tree::{Formula, Link, Row};
use memory::NoMemory;
use std::alloc::Allocator;
use std::rc::Rc;
use tclparse::{Binary, Infix};

// The tightest level of operators between operands, and how many levels there are.
const TIGHTEST: u8 = 2;

const LEVELS: u8 = 12;

fn binary_level(operator: Binary) -> u8
    ensures { result ≡ binds.binary_level operator }
{
    match operator {
        Binary::Multiply | Binary::Divide | Binary::Remainder => 2,
        Binary::Add | Binary::Subtract => 3,
        Binary::ShiftLeft | Binary::ShiftRight => 4,
        Binary::Less | Binary::Greater | Binary::LessEqual | Binary::GreaterEqual => 5,
        Binary::Equal | Binary::NotEqual => 6,
        Binary::TextEqual | Binary::TextNotEqual => 7,
        Binary::In | Binary::NotIn => 8,
        Binary::And => 9,
        Binary::Xor => 10,
        Binary::Or => 11,
    }
}

// The level of an operator: the lower it is, the tighter the operator binds (expr(n), operators).
fn level_of(operator: Infix) -> u8
    ensures { result ≡ binds.level operator }
{
    match operator {
        Infix::Both(operator) => binary_level(operator),
        Infix::AndAlso => 12,
        Infix::OrElse => 13,
    }
}

// The row of an operand and the operators after it; where there are none, the operand itself.
fn row<A: Allocator + Copy>(
    alloc: A,
    first: Formula<A>,
    links: Vec<Link<A>, A>,
) -> Result<Formula<A>, NoMemory>
    ensures { IfOk result (λ f. formula_of f
        ≡ row_of (formula_of first) (links_then links.items no_links)) }
{
    if links.is_empty() {
        Ok(first)
    } else {
        let row = Rc::new(alloc, Row { first, links })?;
        Ok(Formula::Row(row))
    }
}

// Whether one of these operators has that level.
fn has_level<A: Allocator>(level: u8, links: &[Link<A>]) -> bool
    ensures { result ≡ has_level level (links_then links.now no_links) }
{
    for link in links {
        if level_of(link.operator) == level {
            return true;
        }
    }
    false
}

// Joins the operators of a level that may be absent: gives the joined first operand, and the
// operators that remain.
#[tactic(auto, using(crate::proofs::Groups::none_joined))]
fn join_level<A: Allocator + Copy>(
    alloc: A,
    level: u8,
    first: Formula<A>,
    links: Vec<Link<A>, A>,
) -> Result<(Formula<A>, Vec<Link<A>, A>), NoMemory>
    ensures { IfOk result (λ r. (formula_of r.0, links_then r.1.items no_links)
        ≡ joined_at level (formula_of first, links_then links.items no_links)) }
{
    if has_level(level, &links) {
        join(alloc, level, first, links)
    } else {
        Ok((first, links))
    }
}

// Joins the operators of one level: gives the joined first operand, and the operators that remain.
fn join<A: Allocator + Copy>(
    alloc: A,
    level: u8,
    first: Formula<A>,
    links: Vec<Link<A>, A>,
) -> Result<(Formula<A>, Vec<Link<A>, A>), NoMemory>
    ensures { IfOk result (λ r. (formula_of r.0, links_then r.1.items no_links)
        ≡ joined_at level (formula_of first, links_then links.items no_links)) }
{
    let mut links = links;
    let mut run = Vec::new(alloc);
    let mut rest = Vec::new(alloc);
    while let Some(Link { operator, operand }) = links.pop() {
        if level_of(operator) == level {
            run.push(Link { operator, operand })?;
        } else {
            run.reverse();
            let operand = row(alloc, operand, run)?;
            run = Vec::new(alloc);
            rest.push(Link { operator, operand })?;
        }
    }
    run.reverse();
    rest.reverse();
    let part = row(alloc, first, run)?;
    Ok((part, rest))
}

/// The formula of operands in a row, with the operators between them.
pub(crate) fn group<A: Allocator + Copy>(
    alloc: A,
    first: Formula<A>,
    links: Vec<Link<A>, A>,
) -> Result<Formula<A>, NoMemory>
    ensures { IfOk result (λ f. formula_of f
        ≡ grouped (formula_of first) (links_then links.items no_links)) }
{
    let mut part = first;
    let mut rest = links;
    for done in 0..LEVELS {
        let level = done + TIGHTEST;
        let (joined, left) = join_level(alloc, level, part, rest)?;
        part = joined;
        rest = left;
    }
    row(alloc, part, rest)
}
