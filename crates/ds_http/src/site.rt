//! What is answered to each request.

ghost use Rattle.std.specs.Prelude.{◌≡◌, None, OnOk, OnErr, IsTrue, bytes_eq, codes, option_map};
ghost use Rattle.http.specs.Request.{head_of, body_of};
ghost use Rattle.http_header.specs.HeaderMap.{get as value_of};
ghost use Rattle.http_server.specs.Response.{IsBlank};
ghost use Rattle.http_uri.specs.Uri.{uri_path};
ghost use Rattle.ds_http.specs.Resources.{allows, resource_at};
ghost use Rattle.ds_server.specs.DeskCalls.{View};
ghost use Rattle.ds_server.specs.LineAnswers.{response_view};
ghost use Rattle.ds_http.specs.Events.{events_from};
ghost use Rattle.ds_http.specs.Reading.{cell_in, from_in, key_in};
ghost use Rattle.ds_http.specs.Sites.{AnswersCall, AnswersCell, AnswersEdit, AnswersEdits, AnswersEvents, AnswersLines, AnswersList, AnswersMetricsIf, AnswersOfIf, AnswersOutcome, ListsFrom, Obeys, ObeysAt};

use crate::edits::post_edit;
use crate::events::{events_from, say_event};
use crate::handshake::shake;
use crate::lines::{play_lines, whole_lines};
use crate::metrics::{Counts, metrics_text};
use crate::origin::is_own;
use crate::problem::Problem;
use crate::reading::{cell_in, from_in, key_in};
use crate::reply::{Kind, begin, deny, end, refuse, refuse_method, say, tell};
use crate::resource::{Part, Resource, resource_at};
use crate::script::answer_question_if;
use crate::status::status_at;
use crate::token::may_act;
use bytes::Bytes;
use ds_analyst::question::Analyst;
use ds_server::answer::Response as Answer;
use ds_server::desk::Desk;
use ds_server::request::LineFault;
use ds_server::session::{get, history, resolve, view};
use http::{HeaderMap, HeaderValue, Request, StatusCode};
use http_server::{Response, Service};
use std::alloc::{AllocError, Global};

/// A sheet as one connection of HTTP sees it: a desk, who counts what the server does, who answers questions about scripts,
/// the address that is served, and the page for people.
#[derive(Drop)]
pub struct Site<'a, B: Desk, C: Counts, A: Analyst> {
    alloc: Global,
    address: &'a str,
    page: &'a str,
    desk: B,
    counts: C,
    analyst: &'a A,
}

impl<'a, B: Desk, C: Counts, A: Analyst> Site<'a, B, C, A> {
    /// Over this desk, with the numbers that `counts` gives, and what the analyst finds. Requests for another host than
    /// loopback or this address, as `192.168.1.5:8080`, are refused.
    pub fn new(
        alloc: Global,
        address: &'a str,
        page: &'a str,
        desk: B,
        counts: C,
        analyst: &'a A,
    ) -> Site<'a, B, C, A> {
        Site {
            alloc,
            address,
            page,
            desk,
            counts,
            analyst,
        }
    }
}

// The field by which a request gives its edit a key.
const KEY_FIELD: &str = "idempotency-key";

// One edit.
fn answer_edit<B: Desk>(
    alloc: Global,
    desk: &mut B,
    headers: &HeaderMap<HeaderValue>,
    body: &[u8],
    response: &mut Response,
) -> Result<(), AllocError>
    requires { IsBlank response.old }
    ensures answers { OnOk result (AnswersEdit B.rules desk.old (value_of headers.now (codes "idempotency-key")) body.now response.new desk.new) }
    ensures kept { OnErr result (desk.new ≡ desk.old) }
{
    begin(response, Kind::Json)?;
    let shape = desk.shape();
    let answer = post_edit(alloc, desk, headers.get(KEY_FIELD), body);
    say(alloc, response, &shape, &answer);
    Ok(())
}

// The values of the sheet.
fn answer_sheet<B: Desk>(
    alloc: Global,
    desk: &mut B,
    response: &mut Response,
) -> Result<(), AllocError>
    requires { IsBlank response.old }
    ensures answers { OnOk result (AnswersCall B.rules desk.old (View None) response.new desk.new) }
    ensures kept { OnErr result (desk.new ≡ desk.old) }
{
    begin(response, Kind::Json)?;
    let shape = desk.shape();
    let answer = view(alloc, desk, None);
    say(alloc, response, &shape, &answer);
    Ok(())
}

// What a cell is, where the path names one.
fn answer_cell<B: Desk>(
    alloc: Global,
    desk: &mut B,
    path: &str,
    response: &mut Response,
) -> Result<(), AllocError>
    requires { IsBlank response.old }
    ensures answers { OnOk result (AnswersCell B.rules desk.old (cell_in (B.rules.shape desk.old) path.now) response.new desk.new) }
    ensures kept { OnErr result (desk.new ≡ desk.old) }
{
    let shape = desk.shape();
    let Some(cell) = cell_in(path, &shape) else {
        return refuse(response, Problem::NotFound);
    };
    begin(response, Kind::Json)?;
    let answer = get(alloc, desk, None, cell);
    say(alloc, response, &shape, &answer);
    Ok(())
}

// What became of the edit with a key, where the path names one.
fn answer_outcome<B: Desk>(
    alloc: Global,
    desk: &mut B,
    path: &str,
    response: &mut Response,
) -> Result<(), AllocError>
    requires { IsBlank response.old }
    ensures answers { OnOk result (AnswersOutcome B.rules desk.old (key_in path.now) response.new desk.new) }
    ensures kept { OnErr result (desk.new ≡ desk.old) }
{
    let Some(key) = key_in(path) else {
        return refuse(response, Problem::NotFound);
    };
    begin(response, Kind::Json)?;
    let shape = desk.shape();
    let answer = resolve(alloc, desk, None, key);
    say(alloc, response, &shape, &answer);
    Ok(())
}

// What a query for the list of edits is answered.
fn listed<B: Desk>(alloc: Global, desk: &mut B, from: Option<usize>) -> Answer
    ensures { ListsFrom B.rules desk.old from (response_view result) desk.new }
{
    match from {
        Some(from) => history(alloc, desk, None, from),
        None => Answer::Faulted(LineFault::BadField),
    }
}

// A part of the list of edits.
fn answer_list<B: Desk>(
    alloc: Global,
    desk: &mut B,
    query: Option<&str>,
    response: &mut Response,
) -> Result<(), AllocError>
    requires { IsBlank response.old }
    ensures answers { OnOk result (AnswersList B.rules desk.old (from_in (option_map (λ q. q.now) query.entry)) response.new desk.new) }
    ensures kept { OnErr result (desk.new ≡ desk.old) }
{
    begin(response, Kind::Json)?;
    let shape = desk.shape();
    let answer = listed(alloc, desk, from_in(query));
    say(alloc, response, &shape, &answer);
    Ok(())
}

// The field by which a request says what events it has.
const EVENT_FIELD: &str = "last-event-id";

// A part of the list of edits, as an event.
fn answer_events<B: Desk>(
    alloc: Global,
    desk: &mut B,
    headers: &HeaderMap<HeaderValue>,
    query: Option<&str>,
    response: &mut Response,
) -> Result<(), AllocError>
    requires { IsBlank response.old }
    ensures answers { OnOk result (AnswersEvents B.rules desk.old (events_from (value_of headers.now (codes "last-event-id")) (option_map (λ q. q.now) query.entry)) response.new desk.new) }
    ensures kept { OnErr result (desk.new ≡ desk.old) }
{
    begin(response, Kind::Events)?;
    let shape = desk.shape();
    let from = events_from(headers.get(EVENT_FIELD), query);
    let answer = listed(alloc, desk, from);
    say_event(alloc, response, &shape, &answer);
    Ok(())
}

// The list of edits, or a new one.
fn answer_edits<B: Desk>(
    alloc: Global,
    desk: &mut B,
    request: &Request<Bytes>,
    response: &mut Response,
) -> Result<(), AllocError>
    requires { IsBlank response.old }
    ensures answers { OnOk result (AnswersEdits B.rules desk.old (bytes_eq (head_of request.now).method (codes "POST")) request.now response.new desk.new) }
    ensures kept { OnErr result (desk.new ≡ desk.old) }
{
    match request.method().as_str() == "POST" {
        true => answer_edit(
            alloc,
            desk,
            request.headers(),
            request.body().as_slice(),
            response,
        ),
        false => answer_list(alloc, desk, request.uri().query(), response),
    }
}

// What is asked of the sheet, where the request may act.
fn answer_of_if<B: Desk>(
    alloc: Global,
    desk: &mut B,
    may: bool,
    part: Part,
    request: &Request<Bytes>,
    response: &mut Response,
) -> Result<(), AllocError>
    requires { IsBlank response.old }
    ensures answers { OnOk result (AnswersOfIf B.rules desk.old may part request.now response.new desk.new) }
    ensures kept { OnErr result (desk.new ≡ desk.old) }
{
    if !may {
        return deny(response);
    }
    match part {
        Part::Values => answer_sheet(alloc, desk, response),
        Part::Cell => answer_cell(alloc, desk, request.uri().path(), response),
        Part::Edits => answer_edits(alloc, desk, request, response),
        Part::Outcome => answer_outcome(alloc, desk, request.uri().path(), response),
        Part::Events => answer_events(
            alloc,
            desk,
            request.headers(),
            request.uri().query(),
            response,
        ),
    }
}

// A session whose lines are the body.
fn answer_lines<B: Desk>(
    alloc: Global,
    desk: &mut B,
    body: &[u8],
    response: &mut Response,
) -> Result<(), AllocError>
    requires { IsBlank response.old }
    ensures answers { OnOk result (AnswersLines B.rules desk.old body.now response.new desk.new) }
    ensures kept { OnErr result (desk.new ≡ desk.old) }
{
    begin(response, Kind::Lines)?;
    let lines = whole_lines(alloc, body)?;
    let (answers, ended) = play_lines(alloc, desk, &lines);
    end(response, status_at(ended), Ok(answers));
    Ok(())
}

// The numbers of the server, where the request may act.
fn answer_metrics_if<C: Counts>(
    alloc: Global,
    counts: &C,
    may: bool,
    response: &mut Response,
) -> Result<(), AllocError>
    requires { IsBlank response.old }
    ensures { OnOk result (AnswersMetricsIf (C.gives counts.now) may response.new) }
{
    if !may {
        return deny(response);
    }
    begin(response, Kind::Metrics)?;
    let metrics = counts.metrics();
    end(response, StatusCode::OK, metrics_text(alloc, &metrics));
    Ok(())
}

// What is answered to a request for a resource, by a method that it allows.
fn obey<B: Desk, C: Counts, A: Analyst>(
    alloc: Global,
    desk: &mut B,
    counts: &C,
    analyst: &A,
    page: &str,
    resource: Resource,
    request: &Request<Bytes>,
    response: &mut Response,
) -> Result<(), AllocError>
    requires { IsBlank response.old }
    ensures obeys { OnOk result (Obeys B.rules (C.gives counts.now) (A.finds analyst.now) page.now desk.old resource request.now response.new desk.new) }
    ensures kept { OnErr result (desk.new ≡ desk.old) }
{
    match resource {
        Resource::Page => tell(response, Kind::Page, page.as_bytes()),
        Resource::Health => tell(response, Kind::Text, b"ok\n"),
        Resource::Metrics => {
            let may = may_act(desk, request.headers());
            answer_metrics_if(alloc, counts, may, response)
        }
        Resource::OfSheet(part) => {
            let may = may_act(desk, request.headers());
            answer_of_if(alloc, desk, may, part, request, response)
        }
        Resource::Lines => answer_lines(alloc, desk, request.body().as_slice(), response),
        Resource::Session => shake(alloc, request.headers(), response),
        Resource::OfScript(question) => {
            let may = may_act(desk, request.headers());
            let script = request.body().as_slice();
            answer_question_if(alloc, analyst, may, question, script, response)
        }
    }
}

// What is answered to a request that may be answered.
fn answer<B: Desk, C: Counts, A: Analyst>(
    alloc: Global,
    desk: &mut B,
    counts: &C,
    analyst: &A,
    page: &str,
    request: &Request<Bytes>,
    response: &mut Response,
) -> Result<(), AllocError>
    requires { IsBlank response.old }
    ensures obeys { OnOk result (ObeysAt B.rules (C.gives counts.now) (A.finds analyst.now) page.now desk.old (resource_at (uri_path (head_of request.now).uri)) request.now response.new desk.new) }
    ensures kept { OnErr result (desk.new ≡ desk.old) }
{
    match resource_at(request.uri().path()) {
        None => refuse(response, Problem::NotFound),
        Some(resource) if resource.allows(request.method().as_str()) => {
            obey(
                alloc, desk, counts, analyst, page, resource, request, response,
            )
        }
        Some(resource) => refuse_method(response, resource),
    }
}

impl<B: Desk, C: Counts, A: Analyst> Service for Site<'_, B, C, A> {
    ghost use Rattle.ds_http.specs.Sites.{Answers};

    ghost answers = { λ old request response new. Answers B.rules (C.gives old.counts) (A.finds old.analyst.now) old.address.now old.page.now old.desk request response new.desk × (new.address ≡ old.address) × (new.page ≡ old.page) × (new.counts ≡ old.counts) × (new.analyst ≡ old.analyst) };

    fn call(
        &mut self,
        request: &Request<Bytes>,
        response: &mut Response,
    ) -> Result<(), AllocError> {
        if !is_own(request.headers(), self.address) {
            return refuse(response, Problem::ForeignOrigin);
        }
        answer(
            self.alloc,
            &mut self.desk,
            &self.counts,
            self.analyst,
            self.page,
            request,
            response,
        )
    }
}
