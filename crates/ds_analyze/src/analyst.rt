//! Questions about scripts, which a server passes on.

ghost use Rattle.std.specs.Prelude.{IfOk, IsUtf8, ℕ};
ghost use Rattle.ds_explore.specs.Whole.{IsExploration, LacksExploration};
ghost use Rattle.ds_analyze.specs.Analyses.{Finds, FindsOrders, FindsRun, IsNoText, with_crashes};

use ds_analyst::question::{Analysis, Analyst, Question};
use ds_explore::exploration::{Exploration, Unexplored, explored};
use ds_explore::options::{Options, Watcher};
use ds_explore_summary::json::lines;
use ds_script_io::streams::Writing;
use ds_trace_picture::script::{Detail, PictureEnd, draw_script};
use std::alloc::{AllocError, Global};
use std::str;

/// How many states a server goes through for one question: some seconds' work.
pub const STATES_MOST: usize = 20_000;

/// Answers questions about scripts by going through all orders of their calls, or by drawing their run.
#[derive(Clone, Copy, Debug, PartialEq, Eq)]
pub struct ScriptAnalyst {
    /// How many states are gone through at most.
    pub states_most: usize,
}

// Nobody is shown how many states there are so far.
#[derive(Clone, Copy, Debug)]
struct Unwatched;

impl Watcher for Unwatched {
    fn found(&mut self, _states: usize) {}
}

// That a script is no text.
fn no_text(alloc: Global, script: &[u8]) -> Result<Analysis, AllocError>
    requires { IsUtf8 script.now → ⊥ }
    ensures { (most : ℕ) → IfOk result (FindsOrders most script.now) }
{
    let why = "the script is not UTF-8, and JSON is";
    Ok(Analysis::Unfit(Vec::from_slice(alloc, why.as_bytes())?))
}

// An exploration of a script that is a text, as lines of JSON. They are such texts as well, since what is put after the
// script is ASCII.
fn found_orders(
    alloc: Global,
    exploration: &Exploration,
    script: &[u8],
    states_most: usize,
) -> Result<Analysis, AllocError>
    requires text { IsUtf8 script.now }
    requires explores { IsExploration script.now (with_crashes states_most) exploration.now }
    ensures { IfOk result (FindsOrders states_most script.now) }
{
    match lines(alloc, exploration) {
        Ok(text) => Ok(Analysis::Found(text)),
        Err(_) => Err(AllocError),
    }
}

// Why there is no exploration of a script that is a text.
fn lacks_orders(
    alloc: Global,
    lack: Unexplored,
    script: &[u8],
    states_most: usize,
) -> Result<Analysis, AllocError>
    requires text { IsUtf8 script.now }
    requires lacks { LacksExploration script.now lack }
    ensures { IfOk result (FindsOrders states_most script.now) }
{
    match lack {
        Unexplored::NoMemory => Err(AllocError),
        lack => Ok(Analysis::Unfit(lack.end().to_string(alloc)?.into_bytes())),
    }
}

// What all orders come to.
fn orders(alloc: Global, script: &[u8], states_most: usize) -> Result<Analysis, AllocError>
    ensures { IfOk result (FindsOrders states_most script.now) }
{
    if str::from_utf8(script).is_err() {
        return no_text(alloc, script);
    }
    let options = Options {
        crashes: true,
        stops: false,
        evictions: false,
        most: states_most,
    };
    match explored(alloc, script, options, &mut Unwatched) {
        Ok(exploration) => found_orders(alloc, &exploration, script, states_most),
        Err(lack) => lacks_orders(alloc, lack, script, states_most),
    }
}

// A picture of the run, in brief.
fn run(alloc: Global, script: &[u8]) -> Result<Analysis, AllocError>
    ensures { IfOk result (FindsRun script.now) }
{
    let mut writer = Writing::new(Vec::new(alloc));
    match draw_script(alloc, script, Detail::Brief, &mut writer) {
        PictureEnd::Drawn => Ok(Analysis::Found(writer.into_inner())),
        PictureEnd::NoMemory | PictureEnd::WriteFailed => Err(AllocError),
        end => Ok(Analysis::Unfit(end.to_string(alloc)?.into_bytes())),
    }
}

impl Analyst for ScriptAnalyst {
    ghost finds = { λ analyst question script analysis. Finds analyst.states_most question script analysis };

    fn analyze(
        &self,
        alloc: Global,
        question: Question,
        script: &[u8],
    ) -> Result<Analysis, AllocError> {
        match question {
            Question::Orders => orders(alloc, script, self.states_most),
            Question::Run => run(alloc, script),
        }
    }
}
