//! Writes responses.

ghost use Rattle.std.specs.Prelude.{◌≡◌, ◌++◌, ◌∷◌, [], OnOk, MatchResult, codes};
ghost use Rattle.http_server.specs.Response.{IsBlank, IsResponse, fields_of};
ghost use Rattle.ds_server.specs.LineAnswers.{response_view};
ghost use Rattle.ds_server.specs.SessionTexts.{said_text};
ghost use Rattle.ds_http.specs.Resources.{methods_of};
ghost use Rattle.ds_http.specs.Statuses.{status_of};
ghost use Rattle.ds_http.specs.Bodies.{media_type, common_fields, policy, fields_for, denied_fields, Says, Refuses};

use crate::problem::Problem;
use crate::resource::Resource;
use crate::status::status_of;
use bytes::BufMut;
use ds_formula::cells::Shape;
use ds_server::answer::{Response as Answer, response_line};
use http::{HeaderName, HeaderValue, StatusCode, header};
use http_server::Response;
use std::alloc::{AllocError, Global};

/// What a body is.
#[derive(Clone, Copy, Debug, PartialEq, Eq)]
pub(crate) enum Kind {
    /// A line of JSON.
    Json,
    /// Lines of JSON.
    Lines,
    /// A text for people.
    Text,
    /// Numbers, in the text format of Prometheus.
    Metrics,
    /// Server-sent events.
    Events,
    /// A picture.
    Picture,
    /// The page.
    Page,
}

// What the page may do: it has all of its code, style and pictures, and speaks to its own server alone.
const POLICY: &str =
    "default-src 'none'; script-src 'unsafe-inline'; style-src 'unsafe-inline'; img-src data:; connect-src 'self'; base-uri 'none'; form-action 'none'; frame-ancestors 'none'";

impl Kind {
    // Its media type (RFC 9110, section 8.3).
    fn media_type(self) -> HeaderValue
        ensures { result.bytes ≡ media_type self }
    {
        HeaderValue::from_static(match self {
            Kind::Json => "application/json",
            Kind::Lines => "application/x-ndjson",
            Kind::Text => "text/plain; charset=utf-8",
            Kind::Metrics => "text/plain; version=0.0.4; charset=utf-8",
            Kind::Events => "text/event-stream",
            Kind::Picture => "image/svg+xml",
            Kind::Page => "text/html; charset=utf-8",
        })
    }
}

// The fields of every response with a body.
fn add_common(response: &mut Response, kind: Kind) -> Result<(), AllocError>
    ensures fields { OnOk result (fields_of response.new ≡ fields_of response.old ++ common_fields kind) }
    ensures status { response.new.status ≡ response.old.status }
    ensures body { response.new.body ≡ response.old.body }
{
    response.add_header(header::CONTENT_TYPE, kind.media_type())?;
    response.add_header(header::CACHE_CONTROL, HeaderValue::from_static("no-store"))?;
    response.add_header(
        header::X_CONTENT_TYPE_OPTIONS,
        HeaderValue::from_static("nosniff"),
    )
}

// What the page may do.
fn add_policy(response: &mut Response) -> Result<(), AllocError>
    ensures fields { OnOk result (fields_of response.new ≡ fields_of response.old ++ (codes "content-security-policy", policy) ∷ []) }
    ensures status { response.new.status ≡ response.old.status }
    ensures body { response.new.body ≡ response.old.body }
{
    response.add_header(
        header::CONTENT_SECURITY_POLICY,
        HeaderValue::from_static(POLICY),
    )
}

/// Says in the head what the body will be, after the fields that are there; no cache is to keep it.
pub(crate) fn begin(response: &mut Response, kind: Kind) -> Result<(), AllocError>
    ensures fields { OnOk result (fields_of response.new ≡ fields_of response.old ++ fields_for kind) }
    ensures status { response.new.status ≡ response.old.status }
    ensures body { response.new.body ≡ response.old.body }
{
    add_common(response, kind)?;
    match kind {
        Kind::Page => add_policy(response),
        Kind::Json | Kind::Lines | Kind::Text | Kind::Metrics | Kind::Events | Kind::Picture => Ok(
            (),
        ),
    }
}

/// Ends a response: this status and this body; or 500 and no body, where memory is short for it.
pub(crate) fn end(response: &mut Response, status: StatusCode, body: Result<Vec<u8>, AllocError>)
    requires { response.old.body.items ≡ [] }
    ensures { MatchResult body (λ bytes. Says status (fields_of response.old) bytes.items response.new) (λ _. IsResponse 500 (fields_of response.old) [] response.new) }
{
    response.status = status;
    let is_told = match body {
        Ok(bytes) => response.body.put_slice(&bytes).is_ok(),
        Err(_) => false,
    };
    if !is_told {
        response.status = StatusCode::INTERNAL_SERVER_ERROR;
        response.body.clear();
    }
}

/// Ends a response by an answer of the sheet.
pub(crate) fn say(alloc: Global, response: &mut Response, shape: &Shape, answer: &Answer)
    requires { response.old.body.items ≡ [] }
    ensures { Says (status_of (response_view answer.now)) (fields_of response.old) (said_text shape.now (response_view answer.now)) response.new }
{
    end(
        response,
        status_of(answer),
        response_line(alloc, shape, answer),
    );
}

/// A text, after the fields that are there.
pub(crate) fn tell(response: &mut Response, kind: Kind, text: &[u8]) -> Result<(), AllocError>
    requires { response.old.body.items ≡ [] }
    ensures { OnOk result (IsResponse response.old.status (fields_of response.old ++ fields_for kind) text.now response.new) }
{
    begin(response, kind)?;
    response.body.put_slice(text)
}

/// Why a request is refused, after the fields that are there.
pub(crate) fn refuse(response: &mut Response, problem: Problem) -> Result<(), AllocError>
    requires { response.old.body.items ≡ [] }
    ensures { OnOk result (Refuses (fields_of response.old) problem response.new) }
{
    response.status = problem.status();
    tell(response, Kind::Json, problem.text().as_bytes())
}

/// That the request acts by a process, and has not the token.
pub(crate) fn deny(response: &mut Response) -> Result<(), AllocError>
    requires { IsBlank response.old }
    ensures { OnOk result (Refuses denied_fields Problem.Denied response.new) }
{
    response.add_header(header::WWW_AUTHENTICATE, HeaderValue::from_static("Bearer"))?;
    refuse(response, Problem::Denied)
}

/// That what the path names is asked for by other methods.
pub(crate) fn refuse_method(response: &mut Response, resource: Resource) -> Result<(), AllocError>
    requires { IsBlank response.old }
    ensures { OnOk result (Refuses ((codes "allow", methods_of resource) ∷ []) Problem.MethodNotAllowed response.new) }
{
    response.add_header(header::ALLOW, HeaderValue::from_static(resource.methods()))?;
    refuse(response, Problem::MethodNotAllowed)
}
