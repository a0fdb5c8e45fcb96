//! The status of an answer of the sheet.

ghost use Rattle.std.specs.Prelude.{◌≡◌};
ghost use Rattle.ds_server.specs.LineAnswers.{response_view};
ghost use Rattle.ds_http.specs.Statuses.{status_of_refusal, status_of_fault, status_of, status_at};

use ds_server::answer::Response;
use ds_server::desk::CallRefusal;
use ds_server::request::LineFault;
use ds_server::session::SessionEnd;
use http::StatusCode;

// The status where the desk refuses the call.
fn status_of_refusal(why: CallRefusal) -> StatusCode
    ensures { result ≡ status_of_refusal why }
{
    match why {
        CallRefusal::ProcessTaken | CallRefusal::Stopped => StatusCode::SERVICE_UNAVAILABLE,
        CallRefusal::NoEdit => StatusCode::CONFLICT,
        CallRefusal::NoHistory => StatusCode::NOT_IMPLEMENTED,
        CallRefusal::Text(_) | CallRefusal::KeyReused => StatusCode::UNPROCESSABLE_ENTITY,
        CallRefusal::RecordsFull => StatusCode::INSUFFICIENT_STORAGE,
        CallRefusal::NoMemory => StatusCode::INTERNAL_SERVER_ERROR,
    }
}

// The status where the body asks for no call.
fn status_of_fault(fault: LineFault) -> StatusCode
    ensures { result ≡ status_of_fault fault }
{
    match fault {
        LineFault::NoMemory => StatusCode::INTERNAL_SERVER_ERROR,
        LineFault::Denied => StatusCode::UNAUTHORIZED,
        LineFault::LineTooLong => StatusCode::PAYLOAD_TOO_LARGE,
        LineFault::NotJson
        | LineFault::UnknownOp
        | LineFault::BadField
        | LineFault::NotJoined
        | LineFault::AlreadyJoined => StatusCode::BAD_REQUEST,
    }
}

/// The status of an answer of the sheet: 200 only where the call was made and did what it was to do.
pub(crate) fn status_of(response: &Response) -> StatusCode
    ensures { result ≡ status_of (response_view response.now) }
{
    match response {
        Response::Joined(_, _)
        | Response::JoinedLost(_, _)
        | Response::Done(_)
        | Response::Settled(_)
        | Response::Tells(_)
        | Response::GotCell(_, _, _)
        | Response::Listed(_, _)
        | Response::Resolved(_) => StatusCode::OK,
        Response::Overtaken(_, _) => StatusCode::CONFLICT,
        Response::Unsettled(_, _) => StatusCode::SERVICE_UNAVAILABLE,
        Response::Refused(why) => status_of_refusal(*why),
        Response::Faulted(fault) => status_of_fault(*fault),
    }
}

/// The status of a session that has ended so: 200 only where all of its lines are answered.
pub(crate) fn status_at(end: SessionEnd) -> StatusCode
    ensures { result ≡ status_at end }
{
    match end {
        SessionEnd::Ended => StatusCode::OK,
        SessionEnd::TooLong => StatusCode::PAYLOAD_TOO_LARGE,
        SessionEnd::ReadFailed | SessionEnd::WriteFailed | SessionEnd::NoMemory => {
            StatusCode::INTERNAL_SERVER_ERROR
        }
    }
}
