//! Many values at once: SUM, MIN, MAX, COUNT, AND and OR.

ghost use Rattle.std.specs.Prelude.{◌≡◌, ◌+◌, ◌*◌, ◌<◌, ◌≤◌, ◌^◌, pos, neg_ℤ, ◌≤ℤ◌, if◌then◌else◌};
ghost use Rattle.std.specs.Ordering.{int_eq};

use crate::arithmetic::truth;
use crate::value::Value;

/// What a function makes of the errors of cells that it reads in references and ranges.
#[derive(Clone, Copy, Debug, PartialEq, Eq)]
pub enum CellErrors {
    /// The first one is its value.
    Heeded,
    /// `#DIV/0!` and `#NUM!` are left out, as blanks are. `Err:522` is heeded.
    Skipped,
}

impl CellErrors {
    ghost use Rattle.std.specs.Prelude.{[], ◌∷◌, Some};
    ghost use Rattle.ds_eval.specs.declared.value.Value as values;
    ghost use Rattle.ds_eval.specs.Numbers.{first_error};
    ghost use Rattle.ds_eval.specs.Evaluation.{as_seen};

    /// Whether the error of a cell is heeded.
    pub fn heeds(self, error: Value) -> bool
        requires { first_error (error ∷ []) ≡ Some error }
        ensures { as_seen self error ≡ (if result then error else Value.Blank) }
    {
        match self {
            CellErrors::Heeded => true,
            CellErrors::Skipped => error == Value::Circular,
        }
    }

    /// The value of a cell to the function.
    pub fn seen(self, value: Value) -> Value
        ensures { result ≡ as_seen self value }
    {
        match self {
            CellErrors::Heeded => value,
            CellErrors::Skipped => match value {
                Value::DivZero | Value::Num => Value::Blank,
                Value::Blank | Value::Number(_) | Value::Circular => value,
            },
        }
    }
}

/// What a function wants of many numbers, beside how many there are: each loop keeps that alone.
#[derive(Clone, Copy, Debug, PartialEq, Eq)]
pub enum Wants {
    /// No more than that: COUNT.
    Count,
    /// Their sum: SUM.
    Sum,
    /// The least: MIN.
    Least,
    /// The greatest: MAX.
    Greatest,
    /// How many are 0: AND and OR.
    Zeros,
}

/// How a function of many values reads them.
#[derive(Clone, Copy, Debug, PartialEq, Eq)]
pub struct Fold {
    /// What it makes of the errors of cells.
    pub errors: CellErrors,
    /// What it wants of the numbers.
    pub wants: Wants,
}

// 1 for a number that is 0, else 0.
fn one_if_zero(number: i64) -> usize
    ensures value { result ≡ (if int_eq number (pos 0) then 1 else 0) }
    ensures at_most { result ≤ 1 }
{
    if number == 0 { 1 } else { 0 }
}

/// What functions of many values want of some numbers: how many there are, and of the rest what the fold wants.
/// The sum is bounded by the count, so that it cannot leave 128 bits. Before the first number the least one is the
/// greatest that a number could be, and the greatest one the least.
#[derive(Clone, Copy, Debug)]
pub struct Totals {
    count: usize,
    zeros: usize,
    sum: i128,
    least: i64,
    greatest: i64,
    ghost above: { neg_ℤ (pos (2 ^ 63 * count)) ≤ℤ sum },
    ghost below: { sum ≤ℤ pos (2 ^ 63 * count) },
    ghost few_zeros: { zeros ≤ count },
}

impl Totals {
    ghost use Rattle.std.specs.Prelude.{[], ◌+ℤ◌};
    ghost use Rattle.std.specs.Int.{int_min, int_max};
    ghost use Rattle.ds_eval.specs.declared.tally.Wants.TheVariants as wanted;
    ghost use Rattle.ds_eval.specs.Tally.{AreTotals};

    /// The totals of no numbers.
    pub fn new() -> Totals
        ensures totals { (wants : Wants) → AreTotals wants [] result }
        ensures count { result.count ≡ 0 }
    {
        Totals {
            count: 0,
            zeros: 0,
            sum: 0,
            least: i64::MAX,
            greatest: i64::MIN,
        }
    }

    // The sum with one more number.
    fn sum_with(self, number: i64) -> i128
        requires { self.count < 2 ^ 32 }
        ensures { result ≡ self.sum +ℤ number }
    {
        self.sum + i128::from(number)
    }

    // One more number, of which nothing else is wanted.
    fn one_more(self) -> Totals
        requires { self.count < 2 ^ 32 }
        ensures count { result.count ≡ self.count + 1 }
    {
        Totals {
            count: self.count + 1,
            zeros: self.zeros,
            sum: self.sum,
            least: self.least,
            greatest: self.greatest,
        }
    }

    // One more number in the sum.
    fn with_summed(self, number: i64) -> Totals
        requires { self.count < 2 ^ 32 }
        ensures count { result.count ≡ self.count + 1 }
        ensures sum { result.sum ≡ self.sum +ℤ number }
    {
        Totals {
            count: self.count + 1,
            zeros: self.zeros,
            sum: self.sum_with(number),
            least: self.least,
            greatest: self.greatest,
        }
    }

    // One more number that may be the least.
    fn with_least(self, number: i64) -> Totals
        requires { self.count < 2 ^ 32 }
        ensures count { result.count ≡ self.count + 1 }
        ensures least { result.least ≡ int_min self.least number }
    {
        Totals {
            count: self.count + 1,
            zeros: self.zeros,
            sum: self.sum,
            least: self.least.min(number),
            greatest: self.greatest,
        }
    }

    // One more number that may be the greatest.
    fn with_greatest(self, number: i64) -> Totals
        requires { self.count < 2 ^ 32 }
        ensures count { result.count ≡ self.count + 1 }
        ensures greatest { result.greatest ≡ int_max self.greatest number }
    {
        Totals {
            count: self.count + 1,
            zeros: self.zeros,
            sum: self.sum,
            least: self.least,
            greatest: self.greatest.max(number),
        }
    }

    // One more number that may be 0.
    fn with_tested(self, number: i64) -> Totals
        requires { self.count < 2 ^ 32 }
        ensures count { result.count ≡ self.count + 1 }
        ensures zeros { result.zeros ≡ self.zeros + (if int_eq number (pos 0) then 1 else 0) }
    {
        Totals {
            count: self.count + 1,
            zeros: self.zeros + one_if_zero(number),
            sum: self.sum,
            least: self.least,
            greatest: self.greatest,
        }
    }

    /// The totals with one more number, as far as they are wanted.
    pub fn with(self, wants: Wants, number: i64) -> Totals
        requires { self.count < 2 ^ 32 }
        ensures count { result.count ≡ self.count + 1 }
        ensures zeros { wants ≡ wanted.Zeros → result.zeros ≡ self.zeros + (if int_eq number (pos 0) then 1 else 0) }
        ensures sum { wants ≡ wanted.Sum → result.sum ≡ self.sum +ℤ number }
        ensures least { wants ≡ wanted.Least → result.least ≡ int_min self.least number }
        ensures greatest { wants ≡ wanted.Greatest → result.greatest ≡ int_max self.greatest number }
    {
        match wants {
            Wants::Count => self.one_more(),
            Wants::Sum => self.with_summed(number),
            Wants::Least => self.with_least(number),
            Wants::Greatest => self.with_greatest(number),
            Wants::Zeros => self.with_tested(number),
        }
    }
}

/// The numbers among some values, or the first error among them, after which nothing is used.
#[derive(Clone, Copy, Debug)]
pub struct Tally {
    /// What is wanted of the numbers, as long as there is no error.
    pub totals: Totals,
    /// The first error.
    pub error: Option<Value>,
}

impl Tally {
    ghost use Rattle.std.specs.Prelude.{List, [], ◌∷◌, ◌++◌, length};
    ghost use Rattle.ds_eval.specs.declared.value.Value as values;
    ghost use Rattle.ds_eval.specs.Numbers as exact;
    ghost use Rattle.ds_eval.specs.Tally.{IsTally};
    ghost use Rattle.ds_eval.specs.declared.tally.Wants.TheVariants as wanted;

    /// The tally of no values.
    pub fn new() -> Tally
        ensures tally { (wants : Wants) → IsTally wants [] result }
        ensures count { result.totals.count ≡ 0 }
    {
        Tally {
            totals: Totals::new(),
            error: None,
        }
    }

    /// The tally with one more value: a blank is left out.
    pub fn with(self, wants: Wants, value: Value) -> Tally
        requires { self.totals.count < 2 ^ 32 }
        ensures tally { (vs : List values.Value) → IsTally wants vs self → IsTally wants (vs ++ value ∷ []) result }
        ensures count { result.totals.count ≤ self.totals.count + 1 }
    {
        match value {
            Value::Number(number) => Tally {
                totals: self.totals.with(wants, number),
                error: self.error,
            },
            Value::Blank => self,
            Value::DivZero | Value::Num | Value::Circular => Tally {
                totals: self.totals,
                error: Some(self.error.unwrap_or(value)),
            },
        }
    }

    /// SUM (OpenFormula 6.16.61): added exactly before the range is asked for.
    pub fn total(self) -> Value
        ensures { (vs : List values.Value) → IsTally wanted.Sum vs self → result ≡ exact.with_all vs (λ ns. exact.in_range (exact.total ns)) }
    {
        match self.error {
            Some(error) => error,
            None => match i64::try_from(self.totals.sum) {
                Ok(sum) => Value::Number(sum),
                Err(_) => Value::Num,
            },
        }
    }

    /// MIN (OpenFormula 6.18.48): 0 of no numbers.
    pub fn least(self) -> Value
        ensures { (vs : List values.Value) → IsTally wanted.Least vs self → result ≡ exact.with_all vs (λ ns. Value.Number (exact.least ns)) }
    {
        match self.error {
            Some(error) => error,
            None if self.totals.count == 0 => Value::Number(0),
            None => Value::Number(self.totals.least),
        }
    }

    /// MAX (OpenFormula 6.18.45): 0 of no numbers.
    pub fn greatest(self) -> Value
        ensures { (vs : List values.Value) → IsTally wanted.Greatest vs self → result ≡ exact.with_all vs (λ ns. Value.Number (exact.greatest ns)) }
    {
        match self.error {
            Some(error) => error,
            None if self.totals.count == 0 => Value::Number(0),
            None => Value::Number(self.totals.greatest),
        }
    }

    /// COUNT (OpenFormula 6.13.6): how many numbers there are.
    pub fn count(self) -> Value
        ensures { (vs : List values.Value) → IsTally wanted.Count vs self → result ≡ exact.with_all vs (λ ns. exact.in_range (pos (length ns))) }
    {
        match self.error {
            Some(error) => error,
            None => match i64::try_from(self.totals.count) {
                Ok(count) => Value::Number(count),
                Err(_) => Value::Num,
            },
        }
    }

    /// AND (OpenFormula 6.15.2): whether none is 0, 1 of no numbers.
    pub fn all_true(self) -> Value
        ensures { (vs : List values.Value) → IsTally wanted.Zeros vs self → result ≡ exact.with_all vs (λ ns. exact.truth (exact.all_true ns)) }
    {
        let no_zero = self.totals.zeros == 0;
        match self.error {
            Some(error) => error,
            None => truth(no_zero),
        }
    }

    /// OR (OpenFormula 6.15.8): whether some one is not 0, 0 of no numbers.
    pub fn some_true(self) -> Value
        ensures { (vs : List values.Value) → IsTally wanted.Zeros vs self → result ≡ exact.with_all vs (λ ns. exact.truth (exact.some_true ns)) }
    {
        match self.error {
            Some(error) => error,
            None => truth(self.totals.zeros < self.totals.count),
        }
    }
}
