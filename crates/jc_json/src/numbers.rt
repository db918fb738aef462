//! Whole numbers.

ghost use Rattle.std.specs.Prelude.{◌≡◌, ◌≤ℤ◌, List, ℕ, IfOk};
ghost use Rattle.jc_json.specs.Field.{bounded_number};
ghost use Rattle.jc_json.specs.Exact.{refused_number};
ghost use Rattle.jc_json.specs.View.{view};

use crate::value::Value;

// Why a value is no number that is wanted.
#[derive(Clone, Copy)]
pub enum Unfit {
    // It is no whole number that is kept as 64 bits.
    OfType,
    // The number lies outside its bounds.
    OfRange,
}

// The whole number that a value is, from `least` to `greatest`.
pub fn number_within(value: &Value, least: i64, greatest: i64) -> Result<i64, Unfit>
    ensures read { (path : List ℕ) → refused_number path result
        ≡ bounded_number path least greatest (view value.now) }
    ensures fits { IfOk result (λ n. (least ≤ℤ n) × (n ≤ℤ greatest)) }
{
    let Value::Number(number) = value else {
        return Err(Unfit::OfType);
    };
    match number.as_i64() {
        Some(number) if least <= number && number <= greatest => Ok(number),
        // One that only fits 64 bits without a sign lies above every bound.
        None if !number.is_u64() => Err(Unfit::OfType),
        _ => Err(Unfit::OfRange),
    }
}
