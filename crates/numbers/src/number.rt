// Numbers that may be missing: the operators, the house table of loads and the relations. Rests on word::fields.
ghost use Rattle.std.specs.Prelude.{◌≡◌};
ghost use Rattle.std.proofs.Math.Option.{bind};
ghost use Rattle.std.specs.Int.Signed.{lt_z, le_z};
ghost use Rattle.semantics.specs.Answer.{option_of};
ghost use Rattle.semantics.specs.Expression as expression;
ghost use Rattle.semantics.specs.Expression.{bounded, operate, load_of, house_table};
ghost use Rattle.semantics.specs.Order.{same_integer};
ghost use Rattle.semantics.specs.Enabling.{related, compared};
ghost use Rattle.semantics.specs.ReadNet.{relation_of};
ghost use Rattle.word.specs.Operator.{operator_of};

use word::fields::modulo;

// z where it is a value: values are -2^31 to 2^31 - 1.
pub fn short_of(z: i64) -> Option<i32>
    ensures { option_of result ≡ bounded z }
{
    if z < -2147483648 || 2147483647 < z {
        return None;
    }
    Some(z as i32)
}

pub fn add(x: i32, y: i32) -> Option<i32>
    ensures { option_of result ≡ operate expression.add x y }
{
    short_of(i64::from(x) + i64::from(y))
}

pub fn subtract(x: i32, y: i32) -> Option<i32>
    ensures { option_of result ≡ operate expression.subtract x y }
{
    short_of(i64::from(x) - i64::from(y))
}

pub fn multiply(x: i32, y: i32) -> Option<i32>
    ensures { option_of result ≡ operate expression.multiply x y }
{
    short_of(i64::from(x) * i64::from(y))
}

pub fn remainder(x: i32, d: i32) -> Option<i32>
    ensures { option_of result ≡ operate expression.remainder x d }
{
    if 0 < d {
        Some(modulo(x, d as u32) as i32)
    } else {
        None
    }
}

// The operators by their codes: 0 add, 1 subtract, 2 multiply, 3 remainder.
pub fn binary(code: u32, x: i32, y: i32) -> Option<i32>
    ensures { option_of result ≡ operate (operator_of code) x y }
{
    match code {
        0 => add(x, y),
        1 => subtract(x, y),
        2 => multiply(x, y),
        _ => remainder(x, y),
    }
}

// The same of operands that may be missing: one without value leaves none.
pub fn operate(code: u32, x: Option<i32>, y: Option<i32>) -> Option<i32>
    ensures { option_of result ≡ bind (option_of x) (λ a. bind (option_of y) (λ b. operate (operator_of code) a b)) }
{
    binary(code, x?, y?)
}

// The house table of full tiller load in pump units, depth 0 to 15.
pub const LOADS: [u8; 16] = [0, 2, 3, 4, 5, 6, 7, 8, 9, 10, 11, 12, 12, 13, 13, 14];

// The load of a depth: no value outside the table.
pub fn load(depth: i32) -> Option<i32>
    ensures { option_of result ≡ load_of house_table depth }
{
    if depth < 0 {
        return None;
    }
    let load = LOADS.get(depth as usize)?;
    Some(i32::from(*load))
}

// The same of an operand that may be missing.
pub fn apply_load(x: Option<i32>) -> Option<i32>
    ensures { option_of result ≡ bind (option_of x) (load_of house_table) }
{
    load(x?)
}

pub fn equal(x: i32, y: i32) -> bool
    ensures { result ≡ same_integer x y }
{
    x == y
}

pub fn less(x: i32, y: i32) -> bool
    ensures { result ≡ lt_z x y }
{
    x < y
}

pub fn at_most(x: i32, y: i32) -> bool
    ensures { result ≡ le_z x y }
{
    x <= y
}

// The relations by their codes: 0 =, 1 ≠, 2 <, 3 ≤.
pub fn related(relation: u32, x: i32, y: i32) -> bool
    ensures { result ≡ related (relation_of relation) x y }
{
    match relation {
        0 => equal(x, y),
        1 => !equal(x, y),
        2 => less(x, y),
        _ => at_most(x, y),
    }
}

// The same of two sides that may be missing: no relation holds of a side without value.
pub fn compared(relation: u32, x: Option<i32>, y: Option<i32>) -> bool
    ensures { result ≡ compared (relation_of relation) (option_of x) (option_of y) }
{
    match (x, y) {
        (Some(a), Some(b)) => related(relation, a, b),
        _ => false,
    }
}
