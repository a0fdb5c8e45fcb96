//! Why a request is refused before the sheet is asked.

ghost use Rattle.std.specs.Prelude.{◌≡◌};
ghost use Rattle.ds_http.specs.Problems.{problem_status, problem_text};

use http::StatusCode;

/// Why a request is refused. Nothing has changed.
#[derive(Clone, Copy, Debug, PartialEq, Eq)]
pub(crate) enum Problem {
    /// It comes from a page of elsewhere, or is for a host that is neither loopback nor the address served. Code 30.
    ForeignOrigin,
    /// It acts by a process, and has not the token that a join has to have. Code 20.
    Denied,
    /// Its path names nothing. Code 31.
    NotFound,
    /// What its path names is not asked for by this method. Code 32.
    MethodNotAllowed,
    /// A session wants a WebSocket, of version 13. Code 33.
    UpgradeRequired,
    /// The key of the WebSocket is not 16 bytes in base64. Code 34.
    BadKey,
}

impl Problem {
    /// The status of the answer.
    pub(crate) fn status(self) -> StatusCode
        ensures { result ≡ problem_status self }
    {
        match self {
            Problem::ForeignOrigin => StatusCode::FORBIDDEN,
            Problem::Denied => StatusCode::UNAUTHORIZED,
            Problem::NotFound => StatusCode::NOT_FOUND,
            Problem::MethodNotAllowed => StatusCode::METHOD_NOT_ALLOWED,
            Problem::UpgradeRequired => StatusCode::UPGRADE_REQUIRED,
            Problem::BadKey => StatusCode::BAD_REQUEST,
        }
    }

    /// The body of the answer.
    pub(crate) fn text(self) -> &'static str
        ensures { result.now ≡ problem_text self }
    {
        match self {
            Problem::ForeignOrigin => "{\"code\":30,\"error\":\"foreign-origin\"}\n",
            Problem::Denied => "{\"code\":20,\"error\":\"denied\"}\n",
            Problem::NotFound => "{\"code\":31,\"error\":\"not-found\"}\n",
            Problem::MethodNotAllowed => "{\"code\":32,\"error\":\"method-not-allowed\"}\n",
            Problem::UpgradeRequired => "{\"code\":33,\"error\":\"upgrade-required\"}\n",
            Problem::BadKey => "{\"code\":34,\"error\":\"bad-key\"}\n",
        }
    }
}
