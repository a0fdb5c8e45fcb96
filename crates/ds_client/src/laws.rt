//! What a client asks is what a server reads, and what it shows is what the server says.

ghost use Rattle.std.specs.Prelude.{◌≡◌, ◌≤◌, ◌<◌, ◌^◌, ℕ, List, Option, Some, None, Ok, codes, length, true};
ghost use Rattle.ds_key.specs.Keys.{is_key};
ghost use Rattle.ds_formula.specs.declared.cells.Shape.{Shape};
ghost use Rattle.ds_server.specs.DeskCalls.{JoinAny as JoinsAny, Last as LastCall, Listing, Report as AskedReport, View as Views};
ghost use Rattle.ds_server.specs.LineRequests.{call_of, join_by, number_field, or_bad_field};
ghost use Rattle.ds_server.specs.Replies.{Said};
ghost use Rattle.ds_server.specs.SessionLimits.{HISTORY_MOST};
ghost use Rattle.ds_server.specs.SessionTexts.{said_data};
ghost use Rattle.ds_client.specs.AnswerLines.{IsSaid, is_loss, said_lines, says_lost, shown};
ghost use Rattle.ds_client.specs.Asks.{Get, History, Join, JoinAny, Last, Outcome, Report, Set, Undo, View};
ghost use Rattle.ds_client.specs.Requests.{edit_named, get_named, outcome_named, undo_named, wish_data};
ghost use Rattle.ds_client.specs.DrawnKeys.{PREFIX_MOST, drawn_key};

/// A server reads each request as the call that was asked for: a join of that process where it has it, also one with the
/// token of a server that has one, and with the number of the client's last edit that was answered done; an edit of the
/// cell of that name, where the sheet has one, to that text, with that key, where it is one, a report, and what is reported of the last edit. Also a join of
/// any process, an undo of the cell of that name, and, by a process or, with the server's token, if it has one, without one, a
/// report, what the cell of that name is, the edits from that place on, and what became of the edit with that key.
#[tactic(auto, using(crate::proofs::Understood::joins, crate::proofs::Understood::joins_with, crate::proofs::Understood::said_done, crate::proofs::Understood::sets, crate::proofs::Understood::joins_any, crate::proofs::Understood::undoes, crate::proofs::Understood::views, crate::proofs::Understood::gets, crate::proofs::Understood::lists, crate::proofs::Understood::resolves))]
pub fn requests_are_read()
    ensures join { (shape : Shape) (processes process : ℕ) (done : Option ℕ) (token : Option (List ℕ))
        → call_of shape processes None None (wish_data (Join process done token)) ≡ or_bad_field (join_by processes process) }
    ensures join_with { (shape : Shape) (processes process : ℕ) (done : Option ℕ) (token : List ℕ)
        → call_of shape processes (Some token) None (wish_data (Join process done (Some token))) ≡ or_bad_field (join_by processes process) }
    ensures done { (process : ℕ) (done : Option ℕ) (token : Option (List ℕ)) → number_field (codes "told") (wish_data (Join process done token)) ≡ done }
    ensures set { (shape : Shape) (processes process : ℕ) (token : Option (List ℕ)) (cell text : List ℕ) (key : Option (List ℕ))
        → call_of shape processes token (Some process) (wish_data (Set cell text key)) ≡ or_bad_field (edit_named shape process cell text key) }
    ensures report { (shape : Shape) (processes process : ℕ) (token : Option (List ℕ)) → call_of shape processes token (Some process) (wish_data Report) ≡ Ok (AskedReport process) }
    ensures last { (shape : Shape) (processes process : ℕ) (token : Option (List ℕ)) → call_of shape processes token (Some process) (wish_data Last) ≡ Ok (LastCall process) }
    ensures join_any { (shape : Shape) (processes : ℕ) (token : Option (List ℕ)) → call_of shape processes token None (wish_data (JoinAny token)) ≡ Ok JoinsAny }
    ensures undo { (shape : Shape) (processes process : ℕ) (token : Option (List ℕ)) (cell : List ℕ)
        → call_of shape processes token (Some process) (wish_data (Undo cell)) ≡ or_bad_field (undo_named shape process cell) }
    ensures view { (shape : Shape) (processes : ℕ) (joined : Option ℕ) (token : Option (List ℕ)) → call_of shape processes token joined (wish_data (View token)) ≡ Ok (Views joined) }
    ensures get { (shape : Shape) (processes : ℕ) (joined : Option ℕ) (token : Option (List ℕ)) (cell : List ℕ)
        → call_of shape processes token joined (wish_data (Get cell token)) ≡ or_bad_field (get_named shape joined cell) }
    ensures history { (shape : Shape) (processes from : ℕ) (joined : Option ℕ) (token : Option (List ℕ))
        → call_of shape processes token joined (wish_data (History from token)) ≡ Ok (Listing from HISTORY_MOST) }
    ensures outcome { (shape : Shape) (processes : ℕ) (joined : Option ℕ) (token : Option (List ℕ)) (key : List ℕ)
        → call_of shape processes token joined (wish_data (Outcome key token)) ≡ or_bad_field (outcome_named key) }
{}

/// With a prefix of 1 to 43 visible characters each edit has a key, and no two edits have the same one.
#[tactic(auto, using(crate::proofs::Drawn::is_drawn, crate::proofs::Drawn::differ))]
pub fn keys_are_drawn()
    ensures keys { (prefix : List ℕ) (number : ℕ) → is_key prefix ≡ true → length prefix ≤ PREFIX_MOST → number < 2 ^ 64 → is_key (drawn_key prefix number) ≡ true }
    ensures differ { (prefix : List ℕ) (one other : ℕ) → one < 2 ^ 64 → other < 2 ^ 64 → drawn_key prefix one ≡ drawn_key prefix other → one ≡ other }
{}

/// What a client shows of an answer are the lines of a script's answer of that kind: of a settled report with its values.
#[tactic(auto, using(crate::proofs::Understood::shows))]
pub fn answers_are_shown()
    ensures { (process : ℕ) (key : List ℕ) (shape : Shape) (said : Said) → IsSaid said → shown process key (said_data shape said) ≡ Some (said_lines process key shape said) }
{}

/// A client reads of an answer just where it says that edits were lost.
#[tactic(auto, using(crate::proofs::Understood::losses))]
pub fn losses_are_read()
    ensures { (shape : Shape) (said : Said) → says_lost (said_data shape said) ≡ is_loss said }
{}
