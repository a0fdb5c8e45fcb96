//! What a request names, and how it may be asked for.

ghost use Rattle.std.specs.Prelude.{◌≡◌};
ghost use Rattle.ds_http.specs.Resources.{allows, methods_of, part_allows, part_at, part_methods, resource_at};

use ds_analyst::question::Question;

/// What of the sheet a path names. Where there is a token, a request for it has to have it.
#[derive(Clone, Copy, Debug, PartialEq, Eq)]
pub(crate) enum Part {
    /// The values of the sheet.
    Values,
    /// A cell: its value and its last edit.
    Cell,
    /// The list of edits; a new one, by a request of its own.
    Edits,
    /// What became of the edit with a key.
    Outcome,
    /// The list of edits, as events.
    Events,
}

/// What a path names.
#[derive(Clone, Copy, Debug, PartialEq, Eq)]
pub(crate) enum Resource {
    /// The page for people.
    Page,
    /// Whether the server answers.
    Health,
    /// The numbers of the server. Where there is a token, a request for them has to have it.
    Metrics,
    /// This of the sheet.
    OfSheet(Part),
    /// Sessions, each by a request of its own.
    Lines,
    /// A session over a WebSocket.
    Session,
    /// An answer to this question about a script. Where there is a token, a request for it has to have it.
    OfScript(Question),
}

// What of the sheet a path names, if anything.
fn part_at(path: &str) -> Option<Part>
    ensures { result ≡ part_at path.now }
{
    match path {
        "/sheet" => Some(Part::Values),
        "/edits" => Some(Part::Edits),
        "/events" => Some(Part::Events),
        _ if path.as_bytes().starts_with(b"/cells/") => Some(Part::Cell),
        _ if path.as_bytes().starts_with(b"/edits/") => Some(Part::Outcome),
        _ => None,
    }
}

/// What a path names, if anything.
pub(crate) fn resource_at(path: &str) -> Option<Resource>
    ensures { result ≡ resource_at path.now }
{
    match path {
        "/" => Some(Resource::Page),
        "/healthz" => Some(Resource::Health),
        "/metrics" => Some(Resource::Metrics),
        "/lines" => Some(Resource::Lines),
        "/session" => Some(Resource::Session),
        "/explore" => Some(Resource::OfScript(Question::Orders)),
        "/trace" => Some(Resource::OfScript(Question::Run)),
        _ => Some(Resource::OfSheet(part_at(path)?)),
    }
}

impl Part {
    // Whether it may be asked for by this method (RFC 9110, section 9).
    fn allows(self, method: &str) -> bool
        ensures { result ≡ part_allows self method.now }
    {
        match self {
            Part::Values | Part::Cell | Part::Outcome | Part::Events => {
                method == "GET" || method == "HEAD"
            }
            Part::Edits => method == "GET" || method == "HEAD" || method == "POST",
        }
    }

    // By which methods it may be asked for.
    fn methods(self) -> &'static str
        ensures { result.now ≡ part_methods self }
    {
        match self {
            Part::Values | Part::Cell | Part::Outcome | Part::Events => "GET, HEAD",
            Part::Edits => "GET, HEAD, POST",
        }
    }
}

impl Resource {
    /// Whether it may be asked for by this method (RFC 9110, section 9).
    pub(crate) fn allows(self, method: &str) -> bool
        ensures { result ≡ allows self method.now }
    {
        match self {
            Resource::Page | Resource::Health | Resource::Metrics => {
                method == "GET" || method == "HEAD"
            }
            Resource::OfSheet(part) => part.allows(method),
            Resource::Session => method == "GET",
            Resource::Lines | Resource::OfScript(_) => method == "POST",
        }
    }

    /// By which methods it may be asked for, as the field `allow` lists them (RFC 9110, section 10.2.1).
    pub(crate) fn methods(self) -> &'static str
        ensures { result.now ≡ methods_of self }
    {
        match self {
            Resource::Page | Resource::Health | Resource::Metrics => "GET, HEAD",
            Resource::OfSheet(part) => part.methods(),
            Resource::Session => "GET",
            Resource::Lines | Resource::OfScript(_) => "POST",
        }
    }
}
