//! Reads the command of a line.

ghost use Rattle.std.specs.Prelude.{◌≡◌, ◌<◌, ◌≤◌, option_map, IfSome, IfOk};
ghost use Rattle.std.specs.Option.{ForSome};
ghost use Rattle.ds_formula.specs.Cells.{IsInside};
ghost use Rattle.ds_layout.specs.Places.{IsPlace};
ghost use Rattle.ds_layout.specs.declared.layout.Layout.{Layout};
ghost use Rattle.ds_state.specs.Value.{world_of};
ghost use Rattle.ds_script.specs.Points.{lacks};
ghost use Rattle.ds_script.specs.Orders.{CanDo, beginning, command_view, read_view, answer_view, point_named, name_of_verb, call_named, alone, of_process, set_of, work_of, run_by, run_of, evict_of, word_order, peek_of, sheet_of, edition_numbered, layout_of, or_bad_field, begin_edit_of, begin_work_of, begin_by, begin_words, verb_of, fields_of, order_by, checked, order_of};
ghost use Rattle.ds_script.specs.Orders as deed;

use crate::places::{last_number, read_place};
use crate::point::{PointName, is_lacking};
use ds_formula::cells::{COLUMN_LIMIT, Cell, ROW_LIMIT, Shape};
use ds_layout::layout::{Layout, PROCESS_LIMIT};
use ds_layout::place::{Edition, Place};
use ds_script_io::ending::ScriptFault;
use ds_script_io::fields::{is_skipped, named, numbered};
use ds_script_io::line::word;
use ds_state::world::World;

/// The first word of a line.
#[derive(Clone, Copy, Debug, PartialEq, Eq)]
pub enum Verb {
    /// `sheet`.
    Sheet,
    /// `set`.
    Set,
    /// `work`.
    Work,
    /// `recover`.
    Recover,
    /// `report`.
    Report,
    /// `settle`.
    Settle,
    /// `recalc`.
    Recalculate,
    /// `begin`.
    Begin,
    /// `step`.
    Step,
    /// `run`.
    Run,
    /// `stop`.
    Stop,
    /// `crash`.
    Crash,
    /// `evict`.
    Evict,
    /// `peek`.
    Peek,
    /// `word`.
    Word,
    /// `layout`.
    Layout,
    /// `migrate`.
    Migrate,
}

impl Verb {
    /// As scripts write it.
    pub fn name(self) -> &'static str
        ensures { result.now ≡ name_of_verb self }
    {
        match self {
            Verb::Sheet => "sheet",
            Verb::Set => "set",
            Verb::Work => "work",
            Verb::Recover => "recover",
            Verb::Report => "report",
            Verb::Settle => "settle",
            Verb::Recalculate => "recalc",
            Verb::Begin => "begin",
            Verb::Step => "step",
            Verb::Run => "run",
            Verb::Stop => "stop",
            Verb::Crash => "crash",
            Verb::Evict => "evict",
            Verb::Peek => "peek",
            Verb::Word => "word",
            Verb::Layout => "layout",
            Verb::Migrate => "migrate",
        }
    }
}

/// A call, as `begin` names it.
#[derive(Clone, Copy, Debug, PartialEq, Eq)]
pub enum CallName {
    /// `set`.
    Edit,
    /// `work`.
    Work,
    /// `show`.
    Show,
    /// `recover`.
    Recovery,
    /// `migrate`.
    Migration,
}

/// What came before a line.
#[derive(Clone, Copy, Debug, PartialEq, Eq)]
pub enum Begun {
    /// No command.
    Nothing,
    /// `sheet` alone.
    Sheet,
    /// Another command.
    Command,
}

/// A call of a process.
#[derive(Clone, Copy, Debug)]
pub enum Call<'a> {
    /// An edit of the cell, with the text that it is to hold.
    Edit(Cell, &'a [u8]),
    /// Work on the cell.
    Work(Cell),
    /// A report.
    Show,
    /// A recovery.
    Recovery,
    /// A migration.
    Migration,
}

/// A command of a script.
#[derive(Clone, Copy, Debug)]
pub enum Command<'a> {
    /// `sheet COLUMNS ROWS PROCESSES`: a new sheet, in the second layout.
    Sheet(Layout),
    /// `layout 1`, `layout 2`: a new sheet in that layout, of the shape and the processes of the one that is there.
    Layout(Layout, Edition),
    /// `set PROCESS CELL TEXT`, `work PROCESS CELL`, `report PROCESS`, `recover PROCESS`, `migrate PROCESS`: a whole
    /// call.
    Whole(usize, Call<'a>),
    /// `begin PROCESS` and `set CELL TEXT`, `work CELL`, `show`, `recover` or `migrate`: the beginning of a call.
    Begin(usize, Call<'a>),
    /// `settle PROCESS`: works until no cell is marked.
    Settle(usize),
    /// `recalc PROCESS`: works on each marked cell in the order of the references, then as `settle`.
    Recalculate(usize),
    /// `step PROCESS`: one step.
    Step(usize),
    /// `run PROCESS to POINT`: steps until the point is reached.
    RunTo(usize, PointName),
    /// `run PROCESS`: steps to the end.
    Run(usize),
    /// `stop PROCESS`: a stop.
    Stop(usize),
    /// `crash`: a crash.
    Crash,
    /// `evict PLACE`: an eviction.
    Evict(Place),
    /// `peek CELL`: what a cell shows.
    Peek(Cell),
    /// `word PLACE`: both sides of a word.
    Word(Place),
}

fn sheet<'a>(_layout: &Layout, rest: Option<&'a [u8]>) -> Option<Command<'a>>
    ensures value { option_map command_view result ≡ sheet_of (option_map (λ r. r.now) rest.entry) }
    ensures can { IfSome result (CanDo _layout.now) }
{
    let (columns, rest) = numbered(COLUMN_LIMIT + 1, rest)?;
    let (rows, rest) = numbered(ROW_LIMIT + 1, rest)?;
    let (processes, rest) = numbered(PROCESS_LIMIT + 1, rest)?;
    let shape = Shape::new(columns, rows)?;
    if processes == 0 || rest.is_some() {
        return None;
    }
    Some(Command::Sheet(Layout { shape, processes }))
}

fn edition_numbered(number: usize) -> Option<Edition>
    ensures { result ≡ edition_numbered number }
{
    match number {
        1 => Some(Edition::First),
        2 => Some(Edition::Second),
        _ => None,
    }
}

fn layout_as<'a>(layout: &Layout, rest: Option<&'a [u8]>) -> Option<Command<'a>>
    ensures value { option_map command_view result ≡ layout_of layout.now (option_map (λ r. r.now) rest.entry) }
    ensures can { IfSome result (CanDo layout.now) }
{
    let number = last_number(3, rest)?;
    Some(Command::Layout(*layout, edition_numbered(number)?))
}

fn set<'a>(layout: &Layout, rest: Option<&'a [u8]>) -> Option<Command<'a>>
    ensures value { option_map command_view result ≡ set_of layout.now (option_map (λ r. r.now) rest.entry) }
    ensures can { IfSome result (CanDo layout.now) }
{
    let (process, rest) = numbered(layout.processes, rest)?;
    let (cell, text) = named(&layout.shape, rest)?;
    Some(Command::Whole(process, Call::Edit(cell, text.unwrap_or(&[]))))
}

fn work<'a>(layout: &Layout, rest: Option<&'a [u8]>) -> Option<Command<'a>>
    ensures value { option_map command_view result ≡ work_of layout.now (option_map (λ r. r.now) rest.entry) }
    ensures can { IfSome result (CanDo layout.now) }
{
    let (process, rest) = numbered(layout.processes, rest)?;
    let (cell, rest) = named(&layout.shape, rest)?;
    if rest.is_some() {
        return None;
    }
    Some(Command::Whole(process, Call::Work(cell)))
}

fn crash<'a>(rest: Option<&'a [u8]>) -> Option<Command<'a>>
    ensures value { option_map command_view result ≡ alone deed.Crash (option_map (λ r. r.now) rest.entry) }
    ensures can { IfSome result (λ c. (layout : Layout) → CanDo layout c) }
{
    match rest {
        None => Some(Command::Crash),
        Some(_) => None,
    }
}

// The names of points.
const POINTS: [PointName; 16] = [
    PointName::Written,
    PointName::Announced,
    PointName::Indexed,
    PointName::Helped,
    PointName::Swung,
    PointName::Kept,
    PointName::Marked,
    PointName::Answered,
    PointName::Held,
    PointName::Stored,
    PointName::Valued,
    PointName::Spread,
    PointName::Cleared,
    PointName::Freed,
    PointName::Copied,
    PointName::Switched,
];

fn point(word: &[u8]) -> Option<PointName>
    ensures { result ≡ point_named word.now }
{
    for name in POINTS {
        if word == name.name().as_bytes() {
            return Some(name);
        }
    }
    None
}

fn run_words(process: usize, rest: Option<&[u8]>) -> Option<Command<'_>>
    ensures value { option_map command_view result ≡ run_by process (option_map (λ r. r.now) rest.entry) }
    ensures can { IfSome result (λ c. (layout : Layout) → CanDo layout c) }
{
    let Some(bytes) = rest else {
        return Some(Command::Run(process));
    };
    let (first, rest) = word(bytes);
    if first == b"to".as_slice() {
        Some(Command::RunTo(process, point(rest?)?))
    } else {
        None
    }
}

fn run<'a>(layout: &Layout, rest: Option<&'a [u8]>) -> Option<Command<'a>>
    ensures value { option_map command_view result ≡ run_of layout.now (option_map (λ r. r.now) rest.entry) }
    ensures can { IfSome result (CanDo layout.now) }
{
    let (process, rest) = numbered(layout.processes, rest)?;
    run_words(process, rest)
}

fn evict<'a>(layout: &Layout, rest: Option<&'a [u8]>) -> Option<Command<'a>>
    ensures value { option_map command_view result ≡ evict_of layout.now (option_map (λ r. r.now) rest.entry) }
    ensures can { IfSome result (CanDo layout.now) }
{
    Some(Command::Evict(read_place(layout, rest)?))
}

fn word_at<'a>(layout: &Layout, rest: Option<&'a [u8]>) -> Option<Command<'a>>
    ensures value { option_map command_view result ≡ word_order layout.now (option_map (λ r. r.now) rest.entry) }
    ensures can { IfSome result (CanDo layout.now) }
{
    Some(Command::Word(read_place(layout, rest)?))
}

fn peek<'a>(layout: &Layout, rest: Option<&'a [u8]>) -> Option<Command<'a>>
    ensures value { option_map command_view result ≡ peek_of layout.now (option_map (λ r. r.now) rest.entry) }
    ensures can { IfSome result (CanDo layout.now) }
{
    match named(&layout.shape, rest)? {
        (cell, None) => Some(Command::Peek(cell)),
        (_, Some(_)) => None,
    }
}

// `set CELL TEXT` after `begin PROCESS`.
fn begin_edit<'a>(layout: &Layout, process: usize, rest: Option<&'a [u8]>) -> Option<Command<'a>>
    ensures value { option_map command_view result ≡ begin_edit_of layout.now process (option_map (λ r. r.now) rest.entry) }
    ensures can { IfSome result (CanDo layout.now) }
{
    let (cell, text) = named(&layout.shape, rest)?;
    Some(Command::Begin(process, Call::Edit(cell, text.unwrap_or(&[]))))
}

// `work CELL` after it.
fn begin_work<'a>(layout: &Layout, process: usize, rest: Option<&'a [u8]>) -> Option<Command<'a>>
    ensures value { option_map command_view result ≡ begin_work_of layout.now process (option_map (λ r. r.now) rest.entry) }
    ensures can { IfSome result (CanDo layout.now) }
{
    match named(&layout.shape, rest)? {
        (cell, None) => Some(Command::Begin(process, Call::Work(cell))),
        (_, Some(_)) => None,
    }
}

fn call_named(word: &[u8]) -> Option<CallName>
    ensures { result ≡ call_named word.now }
{
    if word == b"set".as_slice() {
        Some(CallName::Edit)
    } else if word == b"work".as_slice() {
        Some(CallName::Work)
    } else if word == b"show".as_slice() {
        Some(CallName::Show)
    } else if word == b"recover".as_slice() {
        Some(CallName::Recovery)
    } else if word == b"migrate".as_slice() {
        Some(CallName::Migration)
    } else {
        None
    }
}

// A call that takes no further word, after `begin PROCESS`.
fn begin_bare<'a>(process: usize, call: Call<'a>, rest: Option<&'a [u8]>) -> Option<Command<'a>>
    ensures value { option_map command_view result ≡ alone (deed.Begin process (beginning process call.entry)) (option_map (λ r. r.now) rest.entry) }
    ensures can { IfSome result (λ c. (layout : Layout) → CanDo layout c) }
{
    match rest {
        None => Some(Command::Begin(process, call)),
        Some(_) => None,
    }
}

// The call with this name and the words after it.
fn begin_call<'a>(
    layout: &Layout,
    process: usize,
    name: Option<CallName>,
    rest: Option<&'a [u8]>,
) -> Result<Command<'a>, ScriptFault>
    ensures value { read_view result ≡ begin_by layout.now process name (option_map (λ r. r.now) rest.entry) }
    ensures can { IfOk result (CanDo layout.now) }
{
    match name {
        None => Err(ScriptFault::UnknownCommand),
        Some(CallName::Edit) => found(layout, begin_edit(layout, process, rest)),
        Some(CallName::Work) => found(layout, begin_work(layout, process, rest)),
        Some(CallName::Show) => found(layout, begin_bare(process, Call::Show, rest)),
        Some(CallName::Recovery) => found(layout, begin_bare(process, Call::Recovery, rest)),
        Some(CallName::Migration) => found(layout, begin_bare(process, Call::Migration, rest)),
    }
}

// The words after `begin PROCESS`.
fn begin_words<'a>(
    layout: &Layout,
    process: usize,
    rest: Option<&'a [u8]>,
) -> Result<Command<'a>, ScriptFault>
    ensures value { read_view result ≡ begin_words layout.now process (option_map (λ r. r.now) rest.entry) }
    ensures can { IfOk result (CanDo layout.now) }
{
    let Some(bytes) = rest else {
        return Err(ScriptFault::BadField);
    };
    let (first, rest) = word(bytes);
    begin_call(layout, process, call_named(first), rest)
}

// A command that names a process and no more.
fn of_process<'a>(verb: Verb, layout: &Layout, rest: Option<&'a [u8]>) -> Option<Command<'a>>
    ensures value { option_map command_view result ≡ of_process verb layout.now (option_map (λ r. r.now) rest.entry) }
    ensures can { IfSome result (CanDo layout.now) }
{
    let process = last_number(layout.processes, rest)?;
    match verb {
        Verb::Recover => Some(Command::Whole(process, Call::Recovery)),
        Verb::Report => Some(Command::Whole(process, Call::Show)),
        Verb::Migrate => Some(Command::Whole(process, Call::Migration)),
        Verb::Settle => Some(Command::Settle(process)),
        Verb::Recalculate => Some(Command::Recalculate(process)),
        Verb::Step => Some(Command::Step(process)),
        Verb::Stop => Some(Command::Stop(process)),
        _ => None,
    }
}

// The commands.
const VERBS: [Verb; 17] = [
    Verb::Sheet,
    Verb::Set,
    Verb::Work,
    Verb::Recover,
    Verb::Report,
    Verb::Settle,
    Verb::Recalculate,
    Verb::Begin,
    Verb::Step,
    Verb::Run,
    Verb::Stop,
    Verb::Crash,
    Verb::Evict,
    Verb::Peek,
    Verb::Word,
    Verb::Layout,
    Verb::Migrate,
];

fn verb_named(word: &[u8]) -> Option<Verb>
    ensures { result ≡ verb_of word.now }
{
    for verb in VERBS {
        if word == verb.name().as_bytes() {
            return Some(verb);
        }
    }
    None
}

// What is no command has a bad field.
fn found<'a>(layout: &Layout, command: Option<Command<'a>>) -> Result<Command<'a>, ScriptFault>
    requires { ForSome command (CanDo layout.now) }
    ensures value { read_view result ≡ or_bad_field (option_map command_view command.entry) }
    ensures can { IfOk result (CanDo layout.now) }
{
    match command {
        Some(command) => Ok(command),
        None => Err(ScriptFault::BadField),
    }
}

// The command of a first word and the words after it.
fn fields<'a>(
    verb: Verb,
    layout: &Layout,
    rest: Option<&'a [u8]>,
) -> Result<Command<'a>, ScriptFault>
    ensures value { read_view result ≡ fields_of verb layout.now (option_map (λ r. r.now) rest.entry) }
    ensures can { IfOk result (CanDo layout.now) }
{
    match verb {
        Verb::Begin => match numbered(layout.processes, rest) {
            Some((process, rest)) => begin_words(layout, process, rest),
            None => Err(ScriptFault::BadField),
        },
        Verb::Sheet => found(layout, sheet(layout, rest)),
        Verb::Set => found(layout, set(layout, rest)),
        Verb::Work => found(layout, work(layout, rest)),
        Verb::Layout => found(layout, layout_as(layout, rest)),
        Verb::Recover | Verb::Report => found(layout, of_process(verb, layout, rest)),
        Verb::Migrate => found(layout, of_process(verb, layout, rest)),
        Verb::Settle | Verb::Recalculate => found(layout, of_process(verb, layout, rest)),
        Verb::Step | Verb::Stop => found(layout, of_process(verb, layout, rest)),
        Verb::Run => found(layout, run(layout, rest)),
        Verb::Crash => found(layout, crash(rest)),
        Verb::Evict => found(layout, evict(layout, rest)),
        Verb::Peek => found(layout, peek(layout, rest)),
        Verb::Word => found(layout, word_at(layout, rest)),
    }
}

// The command of a line's words, whatever the processes are in.
fn command_of<'a>(
    verb: Option<Verb>,
    begun: Begun,
    layout: &Layout,
    rest: Option<&'a [u8]>,
) -> Result<Command<'a>, ScriptFault>
    ensures value { read_view result ≡ order_by verb begun layout.now (option_map (λ r. r.now) rest.entry) }
    ensures can { IfOk result (CanDo layout.now) }
{
    match (verb, begun) {
        (None, _) => Err(ScriptFault::UnknownCommand),
        (Some(Verb::Sheet), Begun::Sheet | Begun::Command) => Err(ScriptFault::SheetNotFirst),
        (Some(Verb::Layout), Begun::Command) => Err(ScriptFault::LayoutNotFirst),
        (Some(verb), _) => fields(verb, layout, rest),
    }
}

fn lacks_point(world: &World, process: usize, name: PointName) -> bool
    ensures { result ≡ lacks ((world_of world.now).situation process) name }
{
    if process < world.situations.len() {
        is_lacking(&world.situations[process], name)
    } else {
        false
    }
}

// A point that the process's call does not have is a bad field.
fn check<'a>(world: &World, command: Command<'a>) -> Result<Command<'a>, ScriptFault>
    requires { CanDo world.now.sheet.layout command }
    ensures value { read_view result ≡ checked world.now (command_view command.entry) }
    ensures can { IfOk result (CanDo world.now.sheet.layout) }
{
    match command {
        Command::RunTo(process, name) if lacks_point(world, process, name) => {
            Err(ScriptFault::BadField)
        }
        command => Ok(command),
    }
}

/// The command of a line, at this point of a script; `None` for an empty line or a comment. An
/// error is the fault of the line.
pub fn read_order<'a>(
    line: &'a [u8],
    begun: Begun,
    world: &World,
) -> Result<Option<Command<'a>>, ScriptFault>
    ensures value { answer_view result ≡ order_of begun world.now line.now }
    ensures can { IfOk result (λ command. IfSome command (CanDo world.now.sheet.layout)) }
{
    if is_skipped(line) {
        return Ok(None);
    }
    let (first, rest) = word(line);
    let command = command_of(verb_named(first), begun, &world.words.layout(), rest)?;
    Ok(Some(check(world, command)?))
}
