//! Which points of its call a process reaches by an event.

ghost use Rattle.std.specs.Prelude.{◌≡◌, ◌≤◌, [], IfOk, OnOk, length, string_bytes};
ghost use Rattle.ds_trace_scene.specs.Points.{begun_by, course, course_by, name_more, names_after, passed, passing, points_of, points_reached, points_text};

use crate::lanes::is_of;
use ds_core::reply::Reply;
use ds_script::point::PointName;
use ds_trace::row::{Begin, Happening, Trace, TraceRow};
use std::alloc::{AllocError, Global};

/// How far the call of a process has come.
#[derive(Clone, Copy, Debug, PartialEq, Eq)]
pub struct Course {
    /// The call that the process has begun last.
    pub call: Option<Begin>,
    /// How many of its points it has reached.
    pub reached: usize,
}

/// The course of a process that has begun no call.
pub const NO_COURSE: Course = Course {
    call: None,
    reached: 0,
};

// The points of a call, in their order.
fn points_of(call: Option<Begin>) -> &'static [PointName]
    ensures { result.now ≡ points_of call }
{
    match call {
        Some(Begin::Edit(_)) => &[
            PointName::Written,
            PointName::Announced,
            PointName::Indexed,
            PointName::Helped,
            PointName::Swung,
            PointName::Kept,
            PointName::Marked,
            PointName::Answered,
        ],
        Some(Begin::Work(_)) => &[
            PointName::Held,
            PointName::Stored,
            PointName::Valued,
            PointName::Spread,
            PointName::Cleared,
        ],
        Some(Begin::Recovery) => &[
            PointName::Freed,
            PointName::Kept,
            PointName::Marked,
            PointName::Answered,
        ],
        Some(Begin::Migration) => &[PointName::Copied, PointName::Switched],
        Some(Begin::Show) | None => &[],
    }
}

// How many of its points a call has passed that has passed this one last.
fn passed(call: Option<Begin>, last: Option<PointName>) -> usize
    ensures { result ≡ passed call last }
{
    match (call, last) {
        (Some(Begin::Edit(_)), Some(PointName::Written)) => 1,
        (Some(Begin::Edit(_)), Some(PointName::Announced)) => 2,
        (Some(Begin::Edit(_)), Some(PointName::Indexed)) => 3,
        (Some(Begin::Edit(_)), Some(PointName::Helped)) => 4,
        (Some(Begin::Edit(_)), Some(PointName::Swung)) => 5,
        (Some(Begin::Edit(_)), Some(PointName::Kept)) => 6,
        (Some(Begin::Edit(_)), Some(PointName::Marked)) => 7,
        (Some(Begin::Edit(_)), Some(PointName::Answered)) => 8,
        (Some(Begin::Work(_)), Some(PointName::Held)) => 1,
        (Some(Begin::Work(_)), Some(PointName::Stored)) => 2,
        (Some(Begin::Work(_)), Some(PointName::Valued)) => 3,
        (Some(Begin::Work(_)), Some(PointName::Spread)) => 4,
        (Some(Begin::Work(_)), Some(PointName::Cleared)) => 5,
        (Some(Begin::Recovery), Some(PointName::Freed)) => 1,
        (Some(Begin::Recovery), Some(PointName::Kept)) => 2,
        (Some(Begin::Recovery), Some(PointName::Marked)) => 3,
        (Some(Begin::Recovery), Some(PointName::Answered)) => 4,
        (Some(Begin::Migration), Some(PointName::Copied)) => 1,
        (Some(Begin::Migration), Some(PointName::Switched)) => 2,
        _ => 0,
    }
}

// A call that begins has reached none of its points.
fn begun_by(what: Happening, reply: Reply, before: Course) -> Course
    ensures { result ≡ begun_by what reply before }
{
    match (what, reply) {
        (Happening::Begins(_, begin), Reply::Begun(_) | Reply::Entered) => Course {
            call: Some(begin),
            reached: 0,
        },
        _ => before,
    }
}

// The course after an event of the process, after which its call has passed this point last.
fn passing(last: Option<PointName>, course: Course) -> Course
    ensures { result ≡ passing last course }
{
    Course {
        call: course.call,
        reached: passed(course.call, last).max(course.reached),
    }
}

/// The course of the process's call after the row's event.
pub fn course_by(process: usize, row: &TraceRow, before: Course) -> Course
    ensures { result ≡ course_by process row.now before }
{
    if is_of(row, process) {
        passing(row.behind, begun_by(row.what, row.reply, before))
    } else {
        before
    }
}

/// The course of the process's call before the event with this number, from 0.
pub fn course_before(trace: &Trace, process: usize, event: usize) -> Course
    requires { event ≤ length trace.now.rows.items }
    ensures { result ≡ course process trace.now.rows.items event }
{
    let mut course = NO_COURSE;
    for number in 0..event {
        course = course_by(process, &trace.rows[number], course);
    }
    course
}

// One name more, after a space.
fn put_name(names: &mut String, point: PointName) -> Result<(), AllocError>
    ensures { OnOk result (string_bytes names.new ≡ name_more (string_bytes names.old) point) }
{
    if !names.is_empty() {
        names.push(' ')?;
    }
    names.push_str(point.name())
}

// The names of points, parted by spaces.
fn names(alloc: Global, points: &[PointName]) -> Result<String, AllocError>
    ensures { IfOk result (λ names. string_bytes names ≡ names_after [] points.now) }
{
    let mut names = String::new(alloc);
    for point in points {
        put_name(&mut names, *point)?;
    }
    Ok(names)
}

// The names of the points that a call reaches by an event after which it has passed this one last.
fn reached(alloc: Global, last: Option<PointName>, course: Course) -> Result<String, AllocError>
    ensures { IfOk result (λ names. string_bytes names ≡ names_after [] (points_reached last course)) }
{
    let points = points_of(course.call);
    let to = passed(course.call, last);
    if course.reached < to && to <= points.len() {
        names(alloc, &points[course.reached..to])
    } else {
        Ok(String::new(alloc))
    }
}

/// The names of the points that the call of a process with this course reaches by the row's event, parted by spaces.
pub fn points_text(alloc: Global, row: &TraceRow, before: Course) -> Result<String, AllocError>
    ensures { IfOk result (λ names. string_bytes names ≡ points_text row.now before) }
{
    reached(alloc, row.behind, begun_by(row.what, row.reply, before))
}
