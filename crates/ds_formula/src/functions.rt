//! The functions of formulas, in one table: their names, how many arguments they take, and which take ranges.

ghost use Rattle.std.specs.Prelude.{◌≡◌, true, false};
ghost use Rattle.ds_formula.specs.Functions.{signature_of, name_of, is_name_of, function_named, takes, takes_ranges, all_functions};

use crate::content::Function;

// All functions, in the order in which a name is looked for.
const FUNCTIONS: [Function; 11] = [
    Function::Sum,
    Function::Min,
    Function::Max,
    Function::Abs,
    Function::Mod,
    Function::Quotient,
    Function::If,
    Function::Count,
    Function::And,
    Function::Or,
    Function::Not,
];

// A function as texts call it.
#[derive(Clone, Copy, Debug)]
struct Signature {
    // the name, in capital letters
    name: &'static str,
    // how few arguments it takes
    least: usize,
    // how many arguments it takes, where that has an end
    most: Option<usize>,
    // whether a range, or a plain reference, stands for its cells as a whole argument
    ranges: bool,
}

// A function with no end of arguments, ranges among them.
fn of_many(name: &'static str) -> Signature
    ensures name { result.name.now ≡ name.now }
    ensures least { result.least ≡ 1 }
    ensures most { result.most ≡ None }
    ensures ranges { result.ranges ≡ true }
{
    Signature {
        name,
        least: 1,
        most: None,
        ranges: true,
    }
}

// A function of any number of values between these two.
fn of_values(name: &'static str, least: usize, most: usize) -> Signature
    ensures name { result.name.now ≡ name.now }
    ensures least { result.least ≡ least }
    ensures most { result.most ≡ Some most }
    ensures ranges { result.ranges ≡ false }
{
    Signature {
        name,
        least,
        most: Some(most),
        ranges: false,
    }
}

// The table of the functions.
fn signature_of(function: Function) -> Signature
    ensures name { result.name.now ≡ (signature_of function).name }
    ensures least { result.least ≡ (signature_of function).least }
    ensures most { result.most ≡ (signature_of function).most }
    ensures ranges { result.ranges ≡ (signature_of function).ranges }
{
    match function {
        Function::Sum => of_many("SUM"),
        Function::Min => of_many("MIN"),
        Function::Max => of_many("MAX"),
        Function::Abs => of_values("ABS", 1, 1),
        Function::Mod => of_values("MOD", 2, 2),
        Function::Quotient => of_values("QUOTIENT", 2, 2),
        Function::If => of_values("IF", 2, 3),
        Function::Count => of_many("COUNT"),
        Function::And => of_many("AND"),
        Function::Or => of_many("OR"),
        Function::Not => of_values("NOT", 1, 1),
    }
}

// Whether the bytes are the function's name, in letters of either case.
fn is_name_of(function: Function, name: &[u8]) -> bool
    ensures { result ≡ is_name_of function name.now }
{
    let wanted = function.name();
    name.eq_ignore_ascii_case(wanted.as_bytes())
}

// The first of these functions that has the name.
fn named_among(functions: &[Function], name: &[u8]) -> Option<Function>
    ensures { result ≡ function_named functions.now name.now }
{
    match functions {
        [] => None,
        [first, ..] if is_name_of(*first, name) => Some(*first),
        [_, rest @ ..] => named_among(rest, name),
    }
}

impl Function {
    /// Its name as texts show it, in capital letters (OpenFormula 6.16.61, 6.18.48, 6.18.45, 6.16.2, 6.16.42, 6.16.48,
    /// 6.15.4, 6.13.6, 6.15.2, 6.15.8 and 6.15.7).
    pub fn name(self) -> &'static str
        ensures { result.now ≡ name_of self }
    {
        signature_of(self).name
    }

    /// The function that has this name, in letters of either case.
    pub fn named(name: &[u8]) -> Option<Function>
        ensures { result ≡ function_named all_functions name.now }
    {
        named_among(&FUNCTIONS, name)
    }

    /// Whether it may have this many arguments.
    pub fn takes(self, count: usize) -> bool
        ensures { result ≡ takes self count }
    {
        let signature = signature_of(self);
        signature.least <= count && signature.most.is_none_or(|most| count <= most)
    }

    /// Whether a range, or a plain reference, stands for its cells as one of its arguments.
    pub fn takes_ranges(self) -> bool
        ensures { result ≡ takes_ranges self }
    {
        signature_of(self).ranges
    }
}
