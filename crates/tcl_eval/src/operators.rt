//! The operators of expressions.

ghost use Rattle.std.specs.Prelude.{◌≡◌, ◌≢◌, pos, negsuc, neg_ℤ, ◌+ℤ◌, ◌-ℤ◌, int_div, MatchBool};
ghost use Rattle.std.specs.Prelude.{◌+◌, ◌<◌, ◌≤◌, length, drop, IfSome, MatchOption, Ok, Err, IsTrue, ◌↔◌};
ghost use Rattle.tcl_eval.specs.Numbers.{IsValue, IsNot, alive, Applies, IsDecided, IsNeeded, IsAgainst, IsAlong};
ghost use Rattle.tcl_eval.specs.Settings.{IsSum};
ghost use Rattle.std.specs.List.{prefix_len};
ghost use Rattle.tcl_words.specs.Tokens.{in_blank};
ghost use Rattle.tcl_eval.specs.Operators.{tier_of, front_of, operator_from, place};
ghost use Rattle.lab_base.specs.declared.fault.Kind.TheVariants as kinds;
ghost use Rattle.tcl_eval.specs.declared.operators.Operator.TheVariants.{Over, Modulo};

use lab_base::Kind;

/// An operator between two sides.
#[derive(Clone, Copy, Drop)]
pub enum Operator {
    Or,
    And,
    Equal,
    Unequal,
    AtMost,
    AtLeast,
    Below,
    Above,
    Plus,
    Minus,
    Times,
    Over,
    Modulo,
}

/// The number of tiers of operators.
pub const TIERS: u32 = 6;

impl Operator {
    /// The tier of the operator; 0 is the loosest.
    pub fn tier(self) -> u32
        ensures { result ≡ tier_of self }
    {
        match self {
            Operator::Or => 0,
            Operator::And => 1,
            Operator::Equal | Operator::Unequal => 2,
            Operator::AtMost | Operator::AtLeast | Operator::Below | Operator::Above => 3,
            Operator::Plus | Operator::Minus => 4,
            Operator::Times | Operator::Over | Operator::Modulo => 5,
        }
    }

    /// Whether the left side decides, so that the right side isn't evaluated.
    pub fn is_decided(self, left: i64) -> bool
        ensures { IsTrue result ↔ IsDecided self left }
    {
        match self {
            Operator::Or => left != 0,
            Operator::And => left == 0,
            _ => false,
        }
    }

    /// Whether the right side is evaluated: the expression is live, and the left side doesn't decide.
    pub fn is_needed(self, left: i64, live: bool) -> bool
        ensures { IsNeeded live self left result }
    {
        if live { !self.is_decided(left) } else { false }
    }

    /// The result of both sides. A side that isn't evaluated counts as 0.
    pub fn apply(self, left: i64, right: i64) -> Result<i64, Kind>
        ensures { Applies self left right result }
    {
        match self {
            Operator::Or => Ok(i64::from(left != 0 || right != 0)),
            Operator::And => Ok(i64::from(left != 0 && right != 0)),
            Operator::Equal => Ok(i64::from(left == right)),
            Operator::Unequal => Ok(i64::from(left != right)),
            Operator::AtMost => Ok(i64::from(left <= right)),
            Operator::AtLeast => Ok(i64::from(left >= right)),
            Operator::Below => Ok(i64::from(left < right)),
            Operator::Above => Ok(i64::from(left > right)),
            Operator::Plus => in_range(left.checked_add(right)),
            Operator::Minus => in_range(left.checked_sub(right)),
            Operator::Times => in_range(left.checked_mul(right)),
            Operator::Over => quotient(left, right),
            Operator::Modulo => remainder(left, right),
        }
    }
}

/// The value, or the fault where it doesn't fit in 64 bits.
fn in_range(value: Option<i64>) -> Result<i64, Kind>
    ensures { MatchOption value (result ≡ Err kinds.Overflow) (λ z. result ≡ Ok z) }
{
    match value {
        Some(value) => Ok(value),
        None => Err(Kind::Overflow),
    }
}

/// The sum of two numbers, or the first of their faults.
pub fn added(left: Result<i64, Kind>, right: Result<i64, Kind>) -> Result<i64, Kind>
    ensures { IsSum left right result }
{
    match (left, right) {
        (Ok(left), Ok(right)) => in_range(left.checked_add(right)),
        (Ok(_), Err(kind)) => Err(kind),
        (Err(kind), _) => Err(kind),
    }
}

/// The negative of a number.
pub fn negated(value: i64) -> Result<i64, Kind>
    ensures { IsValue (neg_ℤ value) result }
{
    in_range(value.checked_neg())
}

/// The negation of a condition: 1 for 0, else 0.
pub fn turned(value: i64) -> i64
    ensures { IsNot value result }
{
    i64::from(value == 0)
}

/// Whether a condition of this value holds.
pub fn holds(value: i64) -> bool
    ensures { MatchBool result (value ≢ pos 0) (value ≡ pos 0) }
{
    value != 0
}

/// The number, or 0 where it isn't live.
pub fn alive(value: i64, live: bool) -> i64
    ensures { result ≡ alive live value }
{
    if live { value } else { 0 }
}

/// Whether a remainder has another sign than the divisor.
fn is_against(rest: i64, right: i64) -> bool
    requires { right ≢ pos 0 }
    ensures { MatchBool result (IsAgainst rest right) (IsAlong rest right) }
{
    if right > 0 { rest < 0 } else { rest > 0 }
}

/// The quotient, cut towards 0.
fn cut(left: i64, right: i64) -> i64
    requires some { right ≢ pos 0 }
    requires no_sign { right ≢ negsuc 0 }
    ensures { result ≡ int_div left right }
{
    left / right
}

/// The number before this one.
fn less_one(value: i64) -> Result<i64, Kind>
    ensures { IsValue (value -ℤ pos 1) result }
{
    in_range(value.checked_sub(1))
}

/// The quotient, rounded towards minus infinity.
fn quotient(left: i64, right: i64) -> Result<i64, Kind>
    ensures { Applies Over left right result }
{
    if right == 0 {
        return Err(Kind::Zero);
    }
    if right == -1 {
        return negated(left);
    }
    let rest = left.wrapping_rem(right);
    if is_against(rest, right) {
        less_one(cut(left, right))
    } else {
        Ok(cut(left, right))
    }
}

/// The remainder with the divisor's sign.
fn with_sign(rest: i64, right: i64) -> i64
    requires { IsAgainst rest right }
    ensures { result ≡ rest +ℤ right }
{
    rest + right
}

/// The remainder of the rounded quotient, which has the divisor's sign.
fn remainder(left: i64, right: i64) -> Result<i64, Kind>
    ensures { Applies Modulo left right result }
{
    if right == 0 {
        return Err(Kind::Zero);
    }
    let rest = left.wrapping_rem(right);
    if is_against(rest, right) {
        Ok(with_sign(rest, right))
    } else {
        Ok(rest)
    }
}

/// The number of blanks at the front.
fn blanks_size(rest: &[u8]) -> usize
    ensures size { result ≡ prefix_len in_blank rest.now }
    ensures fits { result ≤ length rest.now }
{
    rest.iter()
        .take_while(|b| **b == b' ' || **b == b'\t')
        .count()
}

/// The place after the blanks at a place.
pub fn after_blanks(text: &[u8], at: usize) -> usize
    requires { at ≤ length text.now }
    ensures place { result ≡ place text.now at }
    ensures forward { at ≤ result }
    ensures fits { result ≤ length text.now }
{
    at + blanks_size(&text[at..])
}

/// The longest operator at the front, and the number of its bytes.
fn front_operator(rest: &[u8]) -> Option<(Operator, usize)>
    ensures front { result ≡ front_of rest.now }
    ensures some { IfSome result (λ found. 0 < found.1) }
    ensures fits { IfSome result (λ found. found.1 ≤ length rest.now) }
{
    match rest {
        [b'|', b'|', ..] => Some((Operator::Or, 2)),
        [b'&', b'&', ..] => Some((Operator::And, 2)),
        [b'=', b'=', ..] => Some((Operator::Equal, 2)),
        [b'!', b'=', ..] => Some((Operator::Unequal, 2)),
        [b'<', b'=', ..] => Some((Operator::AtMost, 2)),
        [b'>', b'=', ..] => Some((Operator::AtLeast, 2)),
        [b'<', ..] => Some((Operator::Below, 1)),
        [b'>', ..] => Some((Operator::Above, 1)),
        [b'+', ..] => Some((Operator::Plus, 1)),
        [b'-', ..] => Some((Operator::Minus, 1)),
        [b'*', ..] => Some((Operator::Times, 1)),
        [b'/', ..] => Some((Operator::Over, 1)),
        [b'%', ..] => Some((Operator::Modulo, 1)),
        _ => None,
    }
}

/// The operator at a place, and the number of its bytes.
fn front_operator_at(text: &[u8], at: usize) -> Option<(Operator, usize)>
    requires { at ≤ length text.now }
    ensures front { result ≡ front_of (drop at text.now) }
    ensures some { IfSome result (λ found. 0 < found.1) }
    ensures fits { IfSome result (λ found. at + found.1 ≤ length text.now) }
{
    front_operator(&text[at..])
}

/// The operator of this tier after the blanks at a place, and the place after it.
pub fn operator_at(text: &[u8], at: usize, tier: u32) -> Option<(Operator, usize)>
    requires { at ≤ length text.now }
    ensures operator { result ≡ operator_from text.now at tier }
    ensures forward { IfSome result (λ found. at < found.1) }
    ensures fits { IfSome result (λ found. found.1 ≤ length text.now) }
{
    let start = after_blanks(text, at);
    let (operator, size) = front_operator_at(text, start)?;
    if operator.tier() == tier {
        Some((operator, start + size))
    } else {
        None
    }
}
