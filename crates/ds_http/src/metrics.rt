//! The numbers of a server, and their text.

ghost use Rattle.std.specs.Prelude.{◌≡◌, ◌++◌, IfOk, OnOk, string_bytes};
ghost use Rattle.ds_http.specs.MetricTexts.{calls_text, commits_text, help_line, seconds_line, metric_text, metrics_text, type_line, value_line};

use std::alloc::{AllocError, Global};

/// What a server has done so far, and does now.
#[derive(Clone, Copy, Debug, PartialEq, Eq)]
pub struct Metrics {
    /// Edits that were answered `done`.
    pub edits_done: u64,
    /// Edits that were answered `overtaken`.
    pub edits_overtaken: u64,
    /// Edits and reports that were refused, or for which an allocation failed.
    pub calls_refused: u64,
    /// Reports that were answered, settled or not.
    pub reports: u64,
    /// How often a process was joined, by a session or for an edit by a request.
    pub sessions_joined: u64,
    /// How many connections are served now.
    pub sessions: u64,
    /// Commits of edits and keys in the store.
    pub commits: u64,
    /// How long these took in all, in microseconds.
    pub commit_microseconds: u64,
}

/// Whoever counts what a server does.
pub trait Counts {
    ghost use Rattle.ds_http.specs.declared.metrics.Metrics.{Metrics};

    /// The numbers that it may give.
    ghost gives: { Self → Metrics → Type 0 };

    /// The numbers at this moment.
    fn metrics(&self) -> Metrics
        ensures { gives self.now result };
}

// Whether a number only grows.
#[derive(Clone, Copy, Debug, PartialEq, Eq)]
enum MetricKind {
    // It does, while the server runs.
    Counter,
    // It goes up and down.
    Gauge,
    // A sum and how many it is of, which only grow.
    Summary,
}

// The line that says what a number is.
fn help_line(alloc: Global, name: &str, about: &str) -> Result<String, AllocError>
    ensures { IfOk result (λ line. string_bytes line ≡ help_line name.now about.now) }
{
    format!(in alloc; "# HELP {name} {about}\n")
}

// The line of its type.
fn type_line(alloc: Global, name: &str, kind: MetricKind) -> Result<String, AllocError>
    ensures { IfOk result (λ line. string_bytes line ≡ type_line name.now kind) }
{
    match kind {
        MetricKind::Counter => format!(in alloc; "# TYPE {name} counter\n"),
        MetricKind::Gauge => format!(in alloc; "# TYPE {name} gauge\n"),
        MetricKind::Summary => format!(in alloc; "# TYPE {name} summary\n"),
    }
}

// The line of its value.
fn value_line(alloc: Global, name: &str, value: u64) -> Result<String, AllocError>
    ensures { IfOk result (λ line. string_bytes line ≡ value_line name.now value) }
{
    format!(in alloc; "{name} {value}\n")
}

// The line of a time in seconds.
fn seconds_line(alloc: Global, name: &str, microseconds: u64) -> Result<String, AllocError>
    ensures { IfOk result (λ line. string_bytes line ≡ seconds_line name.now microseconds) }
{
    format!(in alloc; "{name} {microseconds}e-6\n")
}

// A number by its name: what it is, its type, and its value.
fn metric_text(
    alloc: Global,
    name: &str,
    kind: MetricKind,
    about: &str,
    value: u64,
) -> Result<Vec<u8>, AllocError>
    ensures { IfOk result (λ text. text.items ≡ metric_text name.now kind about.now value) }
{
    let mut text = help_line(alloc, name, about)?.into_bytes();
    text.extend_from_slice(type_line(alloc, name, kind)?.as_bytes())?;
    text.extend_from_slice(value_line(alloc, name, value)?.as_bytes())?;
    Ok(text)
}

// Adds the lines of a number.
fn add_metric(
    alloc: Global,
    text: &mut Vec<u8>,
    name: &str,
    kind: MetricKind,
    about: &str,
    value: u64,
) -> Result<(), AllocError>
    ensures { OnOk result (text.new.items ≡ text.old.items ++ metric_text name.now kind about.now value) }
{
    let lines = metric_text(alloc, name, kind, about, value)?;
    text.extend_from_slice(&lines)
}

// Adds the lines of a number that only grows.
fn add_counter(
    alloc: Global,
    text: &mut Vec<u8>,
    name: &str,
    about: &str,
    value: u64,
) -> Result<(), AllocError>
    ensures { OnOk result (text.new.items ≡ text.old.items ++ metric_text name.now MetricKind.Counter about.now value) }
{
    add_metric(alloc, text, name, MetricKind::Counter, about, value)
}

// The lines of the calls that were made.
fn calls_text(alloc: Global, metrics: &Metrics) -> Result<Vec<u8>, AllocError>
    ensures { IfOk result (λ text. text.items ≡ calls_text metrics.now) }
{
    let mut text = Vec::new(alloc);
    let (name, about) = ("dsheet_edits_done_total", "Edits that were answered done.");
    add_counter(alloc, &mut text, name, about, metrics.edits_done)?;
    let name = "dsheet_edits_overtaken_total";
    let about = "Edits that were overtaken and never take effect.";
    add_counter(alloc, &mut text, name, about, metrics.edits_overtaken)?;
    let (name, about) = (
        "dsheet_calls_refused_total",
        "Edits and reports that were refused.",
    );
    add_counter(alloc, &mut text, name, about, metrics.calls_refused)?;
    let (name, about) = (
        "dsheet_reports_total",
        "Reports that were answered, settled or not.",
    );
    add_counter(alloc, &mut text, name, about, metrics.reports)?;
    Ok(text)
}

// The lines of the commits: how long they took, and how many they were.
fn commits_text(alloc: Global, metrics: &Metrics) -> Result<Vec<u8>, AllocError>
    ensures { IfOk result (λ text. text.items ≡ commits_text metrics.now) }
{
    let name = "dsheet_commit_seconds";
    let mut text = help_line(alloc, name, "Commits of edits in the store.")?.into_bytes();
    text.extend_from_slice(type_line(alloc, name, MetricKind::Summary)?.as_bytes())?;
    let (sum, took) = ("dsheet_commit_seconds_sum", metrics.commit_microseconds);
    text.extend_from_slice(seconds_line(alloc, sum, took)?.as_bytes())?;
    let (count, commits) = ("dsheet_commit_seconds_count", metrics.commits);
    text.extend_from_slice(value_line(alloc, count, commits)?.as_bytes())?;
    Ok(text)
}

/// The numbers as a text, in the format of Prometheus, version 0.0.4. An error means that an allocation failed.
pub(crate) fn metrics_text(alloc: Global, metrics: &Metrics) -> Result<Vec<u8>, AllocError>
    ensures { IfOk result (λ text. text.items ≡ metrics_text metrics.now) }
{
    let mut text = calls_text(alloc, metrics)?;
    let name = "dsheet_sessions_joined_total";
    let about = "Joins of a process, by sessions and for edits by requests.";
    add_counter(alloc, &mut text, name, about, metrics.sessions_joined)?;
    let (name, about) = ("dsheet_sessions", "Connections that are served now.");
    add_metric(
        alloc,
        &mut text,
        name,
        MetricKind::Gauge,
        about,
        metrics.sessions,
    )?;
    text.extend_from_slice(&commits_text(alloc, metrics)?)?;
    Ok(text)
}
