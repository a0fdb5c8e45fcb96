//! Groups of blocks.

ghost use Rattle.std.specs.Prelude.{◌≡◌, ◌≢◌, ◌<◌, ◌≤◌, ◌+◌, ◌^◌, ◌++◌, ◌↔◌, ℕ, [], None, IfErr, IfOk, IfSome, IsTrue, OnOk, codes, false, length, take};
ghost use Rattle.ds_script_stops.specs.StopBlocks.{stop_text};
ghost use Rattle.ds_stop_groups.specs.declared.groups.NoGroups.TheVariants.{NoBlocks, NoMemory};
ghost use Rattle.ds_stop_groups.specs.Groups.{AreLines, BeginsWith, HasNoBlocks, IsBlockOf, IsGrouped, IsLineAt, group_line, one_line, stops_text};

use std::alloc::{AllocError, Global};

/// Why a text has no groups.
#[derive(Clone, Copy, Debug, PartialEq, Eq, Drop)]
pub enum NoGroups {
    /// It does not begin with the line of the first stop, or its stops come to 2^64.
    NoBlocks,
    /// An allocation failed.
    NoMemory,
}

impl From<AllocError> for NoGroups {
    ghost from_gives = { λ _ fault. fault ≡ NoMemory };

    fn from(_error: AllocError) -> NoGroups {
        NoGroups::NoMemory
    }
}

// A block: what it says, and what is after it.
#[derive(Clone, Copy, Debug)]
struct Block<'a> {
    answers: &'a [u8],
    after: &'a [u8],
}

// Blocks that follow each other and say the same: of the first stop, and how many more.
#[derive(Clone, Copy, Debug)]
struct Group<'a> {
    first: u64,
    more: u64,
    answers: &'a [u8],
}

// The line of a stop.
fn stop_line(alloc: Global, stop: u128) -> Result<Vec<u8>, AllocError>
    ensures { IfOk result (λ line. line.items ≡ stop_text stop) }
{
    Ok(format!(in alloc; "stop {stop}\n")?.into_bytes())
}

// Whether two texts are the same.
fn are_same(one: &[u8], other: &[u8]) -> bool
    ensures same { IsTrue result → one.now ≡ other.now }
    ensures another { result ≡ false → one.now ≢ other.now }
{
    one == other
}

// What is after the line, where the text begins with it.
fn after_line<'a>(text: &'a [u8], line: &[u8]) -> Option<&'a [u8]>
    ensures some { IfSome result (λ rest. text.now ≡ line.now ++ rest.now) }
    ensures none { result ≡ None → BeginsWith text.now line.now → ⊥ }
{
    if line.len() > text.len() {
        return None;
    }
    let (front, rest) = text.split_at(line.len());
    if are_same(front, line) {
        Some(rest)
    } else {
        None
    }
}

// Whether a line of the text begins at this place.
fn begins_line(text: &[u8], place: usize) -> bool
    requires { place ≤ length text.now }
    ensures { IsTrue result ↔ AreLines (take place text.now) }
{
    place == 0 || text[place - 1] == b'\n'
}

// Whether a line of the text begins at this place, and it is this one.
fn is_line_at(text: &[u8], line: &[u8], place: usize) -> bool
    requires { place ≤ length text.now }
    ensures { IsTrue result ↔ IsLineAt text.now line.now place }
{
    if !begins_line(text, place) {
        return false;
    }
    let (_, rest) = text.split_at(place);
    after_line(rest, line).is_some()
}

// The first place of the text where the line is one of it, or its end where there is none.
fn place_of(text: &[u8], line: &[u8]) -> usize
    ensures within { result ≤ length text.now }
    ensures first { (place : ℕ) → place < result → IsLineAt text.now line.now place → ⊥ }
    ensures is { result < length text.now → IsLineAt text.now line.now result }
{
    for place in 0..text.len() {
        if is_line_at(text, line, place) {
            return place;
        }
    }
    text.len()
}

// The block that ends at this place.
fn block_up_to(rest: &[u8], place: usize) -> Block<'_>
    requires { place ≤ length rest.now }
    ensures whole { rest.now ≡ result.answers.now ++ result.after.now }
    ensures place { length result.answers.now ≡ place }
{
    let (answers, after) = rest.split_at(place);
    Block { answers, after }
}

// The block of a stop, at the front of the text.
fn block_of<'a>(alloc: Global, text: &'a [u8], stop: u64) -> Result<Block<'a>, NoGroups>
    ensures block { IfOk result (λ block. IsBlockOf text.now stop block.answers.now block.after.now) }
    ensures fault { IfErr result (λ fault. fault ≡ NoBlocks → BeginsWith text.now (stop_text stop) → ⊥) }
{
    let line = stop_line(alloc, stop as u128)?;
    let next = stop_line(alloc, stop as u128 + 1)?;
    match after_line(text, &line) {
        Some(rest) => Ok(block_up_to(rest, place_of(rest, &next))),
        None => Err(NoGroups::NoBlocks),
    }
}

// Which stops the group is of.
fn stops_text(alloc: Global, first: u64, more: u64) -> Result<Vec<u8>, NoGroups>
    ensures stops { IfOk result (λ text. text.items ≡ stops_text first more) }
    ensures fault { IfErr result (λ fault. fault ≡ NoBlocks → 2 ^ 64 ≤ first + more) }
{
    if more == 0 {
        return Ok(format!(in alloc; "stop {first}: ")?.into_bytes());
    }
    match first.checked_add(more) {
        Some(last) => Ok(format!(in alloc; "stops {first}-{last}: ")?.into_bytes()),
        None => Err(NoGroups::NoBlocks),
    }
}

// Appends the lines of an answer as one.
fn put_one_line(lines: &mut Vec<u8>, answers: &[u8]) -> Result<(), AllocError>
    ensures { OnOk result (lines.new.items ≡ lines.old.items ++ one_line answers.now) }
{
    let mut rest = answers;
    while let [byte, after @ ..] = rest {
        if *byte != b'\n' {
            lines.push(*byte)?;
        } else if !after.is_empty() {
            lines.extend_from_slice(b" | ")?;
        }
        rest = after;
    }
    Ok(())
}

// Appends the line of a group: which stops it is of, and what they say.
fn put_line(lines: &mut Vec<u8>, stops: &[u8], answers: &[u8]) -> Result<(), AllocError>
    ensures { OnOk result (lines.new.items ≡ lines.old.items ++ (stops.now ++ (one_line answers.now ++ codes "\n"))) }
{
    lines.extend_from_slice(stops)?;
    put_one_line(lines, answers)?;
    lines.extend_from_slice(b"\n")
}

// Appends the line of a group.
fn put_group(alloc: Global, lines: &mut Vec<u8>, group: Group<'_>) -> Result<(), NoGroups>
    ensures line { OnOk result (lines.new.items ≡ lines.old.items ++ group_line group.entry.first group.entry.more group.entry.answers.now) }
    ensures fault { IfErr result (λ fault. fault ≡ NoBlocks → 2 ^ 64 ≤ group.entry.first + group.entry.more) }
{
    let stops = stops_text(alloc, group.first, group.more)?;
    put_line(lines, &stops, group.answers)?;
    Ok(())
}

// Whether nothing is left of a text.
fn is_over(rest: &[u8]) -> bool
    ensures { IsTrue result ↔ (rest.now ≡ []) }
{
    rest.is_empty()
}

// The stop after those of a group.
fn stop_after(group: Group<'_>) -> Result<u64, NoGroups>
    ensures stop { IfOk result (λ stop. stop ≡ group.entry.first + group.entry.more + 1) }
    ensures fault { IfErr result (λ _. 2 ^ 64 ≤ group.entry.first + group.entry.more + 1) }
{
    let Some(last) = group.first.checked_add(group.more) else {
        return Err(NoGroups::NoBlocks);
    };
    last.checked_add(1).ok_or(NoGroups::NoBlocks)
}

// The lines of a text of at least one block.
fn lines_of(alloc: Global, text: &[u8], start: u64) -> Result<Vec<u8>, NoGroups>
    ensures groups { IfOk result (λ lines. IsGrouped start text.now lines.items) }
    ensures fault { IfErr result (λ fault. fault ≡ NoBlocks → HasNoBlocks start text.now) }
{
    let mut lines = Vec::new(alloc);
    let block = block_of(alloc, text, start)?;
    let mut rest = block.after;
    let mut group = Group {
        first: start,
        more: 0,
        answers: block.answers,
    };
    'blocks: loop {
        if is_over(rest) {
            put_group(alloc, &mut lines, group)?;
            return Ok(lines);
        }
        let stop = stop_after(group)?;
        let block = block_of(alloc, rest, stop)?;
        if are_same(block.answers, group.answers) {
            group.more += 1;
        } else {
            put_group(alloc, &mut lines, group)?;
            group = Group {
                first: stop,
                more: 0,
                answers: block.answers,
            };
        }
        rest = block.after;
    }
}

/// The blocks of stops that follow each other, from this one on, in short: a line for all those that say the same, one
/// after the other, with the range of their stops. An error is a text that does not begin with that stop's line, numbers
/// beyond 64 bits, or a failed allocation.
pub fn grouped(alloc: Global, text: &[u8], start: u64) -> Result<Vec<u8>, NoGroups>
    ensures groups { IfOk result (λ lines. IsGrouped start text.now lines.items) }
    ensures fault { IfErr result (λ fault. fault ≡ NoBlocks → HasNoBlocks start text.now) }
{
    if is_over(text) {
        return Ok(Vec::new(alloc));
    }
    lines_of(alloc, text, start)
}
