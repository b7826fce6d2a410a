//! The operators and functions of formulas (expr(n)).

/// An operator before its operand (expr(n), operators).
#[derive(Clone, Copy, Debug, PartialEq, Eq)]
pub enum Unary {
    /// `-`
    Negate,
    /// `+`
    Plus,
    /// `~`: each bit is inverted.
    Complement,
    /// `!`
    Not,
}

/// An operator between two operands, both of which are evaluated (expr(n), operators).
#[derive(Clone, Copy, Debug, PartialEq, Eq)]
pub enum Binary {
    /// `*`
    Multiply,
    /// `/`
    Divide,
    /// `%`
    Remainder,
    /// `+`
    Add,
    /// `-`
    Subtract,
    /// `<<`
    ShiftLeft,
    /// `>>`
    ShiftRight,
    /// `<`
    Less,
    /// `>`
    Greater,
    /// `<=`
    LessEqual,
    /// `>=`
    GreaterEqual,
    /// `==`
    Equal,
    /// `!=`
    NotEqual,
    /// `eq`
    TextEqual,
    /// `ne`
    TextNotEqual,
    /// `in`
    In,
    /// `ni`
    NotIn,
    /// `&`, bit by bit
    And,
    /// `^`, bit by bit
    Xor,
    /// `|`, bit by bit
    Or,
}

/// What joins two operands (expr(n), operators).
#[derive(Clone, Copy, Debug, PartialEq, Eq)]
pub enum Infix {
    /// An operator that needs the values of both operands.
    Both(Binary),
    /// `&&`: the right operand is evaluated only where the left one is true.
    AndAlso,
    /// `||`: the right operand is evaluated only where the left one is false.
    OrElse,
}

/// A function by its name (mathfunc(n)).
#[derive(Clone, Copy, Debug, PartialEq, Eq)]
pub enum Function {
    /// `abs(a)`
    Abs,
    /// `min(a, ..)`
    Min,
    /// `max(a, ..)`
    Max,
}
