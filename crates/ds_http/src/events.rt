//! Server-sent events of the list of edits.

ghost use Rattle.std.specs.Prelude.{◌≡◌, ◌+◌, [], IfOk, length, map, option_copied, option_map, string_bytes};
ghost use Rattle.http_server.specs.Response.{fields_of};
ghost use Rattle.ds_server.specs.LineAnswers.{response_view};
ghost use Rattle.ds_server.specs.Replies.{entry_view};
ghost use Rattle.ds_http.specs.Bodies.{Says};
ghost use Rattle.ds_http.specs.Events.{event_text, events_from, id_line};
ghost use Rattle.ds_http.specs.Statuses.{status_of};

use crate::reading::{from_in, number_in};
use crate::reply::end;
use crate::status::status_of;
use ds_formula::cells::Shape;
use ds_server::answer::{Response as Answer, response_line};
use ds_server::desk::History;
use http::HeaderValue;
use http_server::Response;
use std::alloc::{AllocError, Global};

/// The place of the list from which a request asks for events, by the value of its field `last-event-id`, or else by its query.
pub(crate) fn events_from(head: Option<&HeaderValue>, query: Option<&str>) -> Option<usize>
    ensures { result ≡ events_from (option_copied head.entry) (option_map (λ q. q.now) query.entry) }
{
    match head {
        Some(value) => number_in(value.as_bytes()),
        None => from_in(query),
    }
}

// The place after a part of the list.
fn place_after(from: usize, history: &History) -> u128
    ensures { result ≡ from + length (map entry_view history.now.edits.items) }
{
    from as u128 + history.edits.len() as u128
}

// The line that names an event: by the place after its part of the list, if it has one.
fn id_line(alloc: Global, answer: &Answer) -> Result<String, AllocError>
    ensures { IfOk result (λ line. string_bytes line ≡ id_line (response_view answer.now)) }
{
    match answer {
        Answer::Listed(from, history) => {
            let next = place_after(*from, history);
            format!(in alloc; "id: {next}\n")
        }
        Answer::Joined(_, _)
        | Answer::JoinedLost(_, _)
        | Answer::Done(_)
        | Answer::Overtaken(_, _)
        | Answer::Settled(_)
        | Answer::Unsettled(_, _)
        | Answer::Tells(_)
        | Answer::GotCell(_, _, _)
        | Answer::Resolved(_)
        | Answer::Refused(_)
        | Answer::Faulted(_) => Ok(String::new(alloc)),
    }
}

// An event whose data is this answer.
fn event_text(alloc: Global, shape: &Shape, answer: &Answer) -> Result<Vec<u8>, AllocError>
    ensures { IfOk result (λ text. text.items ≡ event_text shape.now (response_view answer.now)) }
{
    let mut text = Vec::from_slice(alloc, b"retry: 1000\n")?;
    text.extend_from_slice(id_line(alloc, answer)?.as_bytes())?;
    text.extend_from_slice(b"data: ")?;
    text.extend_from_slice(&response_line(alloc, shape, answer)?)?;
    text.extend_from_slice(b"\n")?;
    Ok(text)
}

/// Ends a response by an answer of the sheet, as an event.
pub(crate) fn say_event(alloc: Global, response: &mut Response, shape: &Shape, answer: &Answer)
    requires { response.old.body.items ≡ [] }
    ensures { Says (status_of (response_view answer.now)) (fields_of response.old) (event_text shape.now (response_view answer.now)) response.new }
{
    end(
        response,
        status_of(answer),
        event_text(alloc, shape, answer),
    );
}
