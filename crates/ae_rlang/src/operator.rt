// The operators, how tightly they bind, and what they take.
ghost use Rattle.std.specs.Prelude.{◌≡◌};
ghost use Rattle.ae_rlang.specs.Operator.{binds, left_binds, right_binds, operator_of, result_kind, same_kind, is_other, is_wrong, earlier, bad_where};

use crate::token::Mark;

/// What stands between two expressions.
#[derive(Clone, Copy, Debug, PartialEq, Eq)]
pub enum Operator {
    Or,
    And,
    Equal,
    Unequal,
    Less,
    AtMost,
    Plus,
    Minus,
}

/// What an expression's value is.
#[derive(Clone, Copy, Debug, PartialEq, Eq)]
pub enum Kind {
    Number,
    Text,
    Flag,
}

/// The operator that the mark is.
pub(crate) fn operator_of(mark: Mark) -> Option<Operator>
    ensures { result ≡ operator_of mark }
{
    match mark {
        Mark::Or => Some(Operator::Or),
        Mark::And => Some(Operator::And),
        Mark::Equal => Some(Operator::Equal),
        Mark::Unequal => Some(Operator::Unequal),
        Mark::Less => Some(Operator::Less),
        Mark::AtMost => Some(Operator::AtMost),
        Mark::Plus => Some(Operator::Plus),
        Mark::Minus => Some(Operator::Minus),
        _ => None,
    }
}

impl Operator {
    /// How tightly it binds: 0 the loosest, 2 is `not`.
    pub(crate) fn binds(self) -> u8
        ensures { result ≡ binds self }
    {
        match self {
            Operator::Or => 0,
            Operator::And => 1,
            Operator::Equal | Operator::Unequal | Operator::Less | Operator::AtMost => 3,
            Operator::Plus | Operator::Minus => 4,
        }
    }

    /// How tightly its left side has to bind.
    pub(crate) fn left_binds(self) -> u8
        ensures { result ≡ left_binds self }
    {
        match self {
            Operator::Or => 0,
            Operator::And => 1,
            _ => 4,
        }
    }

    /// How tightly its right side has to bind.
    pub(crate) fn right_binds(self) -> u8
        ensures { result ≡ right_binds self }
    {
        match self {
            Operator::Or => 1,
            Operator::And => 2,
            Operator::Equal | Operator::Unequal | Operator::Less | Operator::AtMost => 4,
            Operator::Plus | Operator::Minus => 5,
        }
    }

    /// What its value is.
    pub(crate) fn result(self) -> Kind
        ensures { result ≡ result_kind self }
    {
        match self {
            Operator::Plus | Operator::Minus => Kind::Number,
            _ => Kind::Flag,
        }
    }

    /// Whether a side has a wrong kind; one that isn't known is never wrong.
    pub(crate) fn is_wrong(self, left: Option<Kind>, right: Option<Kind>) -> bool
        ensures { result ≡ is_wrong self left right }
    {
        match self {
            Operator::Or | Operator::And => {
                is_other(left, Kind::Flag) || is_other(right, Kind::Flag)
            }
            Operator::Equal | Operator::Unequal => match right {
                Some(kind) => is_other(left, kind),
                None => false,
            },
            _ => is_other(left, Kind::Number) || is_other(right, Kind::Number),
        }
    }
}

fn same_kind(a: Kind, b: Kind) -> bool
    ensures { result ≡ same_kind a b }
{
    match a {
        Kind::Number => matches!(b, Kind::Number),
        Kind::Text => matches!(b, Kind::Text),
        Kind::Flag => matches!(b, Kind::Flag),
    }
}

/// Whether the kind is known to be another.
pub(crate) fn is_other(kind: Option<Kind>, wanted: Kind) -> bool
    ensures { result ≡ is_other kind wanted }
{
    match kind {
        None => false,
        Some(found) => !same_kind(found, wanted),
    }
}

/// The earlier of two lines.
pub(crate) fn earlier(a: Option<u32>, b: Option<u32>) -> Option<u32>
    ensures { result ≡ earlier a b }
{
    match (a, b) {
        (None, _) => b,
        (Some(_), None) => a,
        (Some(x), Some(y)) => { if y < x { b } else { a } }
    }
}

/// The line, where it is bad.
pub(crate) fn bad_where(bad: bool, line: u32) -> Option<u32>
    ensures { result ≡ bad_where bad line }
{
    if bad { Some(line) } else { None }
}
