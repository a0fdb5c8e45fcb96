//! One bit for each of many numbers, 64 in a word.

ghost use Rattle.std.specs.Prelude.{◌≡◌, ◌≢◌, ◌<◌, ◌≤◌, ℕ, ◌↔◌, IsTrue, IfSome, IfNone, bit_or};
ghost use Rattle.ds_layout.specs.Bits.{HasBit, HaveBit, HaveNoBit, IsFirstBit, bit_of, part_with, parts_for};

/// The part, a word, in which the bit of a number stands.
#[inline(always)]
pub fn part(number: usize) -> usize
    ensures { result ≡ part_with number }
{
    number / 64
}

/// How many words the bits of that number of numbers take.
#[inline(always)]
pub fn parts(numbers: usize) -> usize
    ensures { result ≡ parts_for numbers }
{
    numbers.div_ceil(64)
}

/// The word with the bit of a number alone.
pub fn bit(number: usize) -> u64
    ensures value { result ≡ bit_of number }
    ensures sets { (word : ℕ) → HasBit (bit_or word result) number }
    ensures keeps { (word other : ℕ) → HasBit word other → HasBit (bit_or word result) other }
    ensures alone { (word other : ℕ) → part_with other ≡ part_with number → other ≢ number
        → HasBit (bit_or word result) other → HasBit word other }
{
    1u64 << (number % 64)
}

/// Whether the bit of a number is set in the word of its part.
pub fn has_bit(word: u64, number: usize) -> bool
    ensures { IsTrue result ↔ HasBit word number }
{
    word >> (number % 64) & 1 == 1
}

// Whether the words have the bit of a number. A word that is not there has none.
fn have_bit(words: &[u64], number: usize) -> bool
    ensures { IsTrue result ↔ HaveBit words.now number }
{
    let at = part(number);
    at < words.len() && has_bit(words[at], number)
}

// This number, where the word of its bit has bits; else the first number of the next word that has some, or the end
// where none below the end has.
#[inline(always)]
fn behind_blanks(words: &[u64], number: usize, end: usize) -> usize
    requires { number ≤ end }
    ensures within { (number ≤ result) × (result ≤ end) }
    ensures none { HaveNoBit words.now number result }
{
    let parts = parts(end).min(words.len());
    let mut at = part(number);
    while at < parts && words[at] == 0 {
        at += 1;
    }
    if at < parts { number.max(64 * at) } else { end }
}

// The number after those that have their bits in the same word, at most the end.
#[inline(always)]
fn word_end(number: usize, end: usize) -> usize
    requires { number ≤ end }
    ensures within { (number ≤ result) × (result ≤ end) }
    ensures further { number < end → number < result }
{
    let left = 64 - number % 64;
    if end - number < left {
        end
    } else {
        number + left
    }
}

// The first of these numbers whose bit the words have, bit by bit.
fn first_between(words: &[u64], start: usize, end: usize) -> Option<usize>
    requires { start ≤ end }
    ensures first { IfSome result (λ first. (first < end) × IsFirstBit words.now start first) }
    ensures none { IfNone result (HaveNoBit words.now start end) }
{
    for number in start..end {
        if have_bit(words, number) {
            return Some(number);
        }
    }
    None
}

/// The first number from this one on, and below the end, whose bit the words have. Words without bits
/// are passed over whole; one that is not there has none.
pub fn first_bit(words: &[u64], start: usize, end: usize) -> Option<usize>
    ensures first { IfSome result (λ first. (first < end) × IsFirstBit words.now start first) }
    ensures none { IfNone result (HaveNoBit words.now start end) }
{
    let mut number = start;
    while number < end {
        let from = behind_blanks(words, number, end);
        let stop = word_end(from, end);
        if let Some(first) = first_between(words, from, stop) {
            return Some(first);
        }
        number = stop;
    }
    None
}
