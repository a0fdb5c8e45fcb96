//! Questions about a script, which is the body of a request.

ghost use Rattle.std.specs.Prelude.{◌≡◌, OnOk};
ghost use Rattle.http_server.specs.Response.{IsBlank};
ghost use Rattle.ds_http.specs.Scripts.{AnswersQuestion, AnswersQuestionIf, SaysAnalysis, kind_of};

use crate::reply::{Kind, begin, deny, end};
use ds_analyst::question::{Analysis, Analyst, Question};
use http::StatusCode;
use http_server::Response;
use std::alloc::{AllocError, Global};

// What a body is that answers the question.
fn kind_of(question: Question) -> Kind
    ensures { result ≡ kind_of question }
{
    match question {
        Question::Orders => Kind::Lines,
        Question::Run => Kind::Picture,
    }
}

// Says what was found, or why nothing can be.
fn say_analysis(
    response: &mut Response,
    question: Question,
    analysis: Analysis,
) -> Result<(), AllocError>
    requires { IsBlank response.old }
    ensures { OnOk result (SaysAnalysis question analysis response.new) }
{
    match analysis {
        Analysis::Found(text) => {
            begin(response, kind_of(question))?;
            end(response, StatusCode::OK, Ok(text));
        }
        Analysis::Unfit(why) => {
            begin(response, Kind::Text)?;
            end(response, StatusCode::UNPROCESSABLE_ENTITY, Ok(why));
        }
    }
    Ok(())
}

// What a question about a script comes to.
fn answer_question<A: Analyst>(
    alloc: Global,
    analyst: &A,
    question: Question,
    script: &[u8],
    response: &mut Response,
) -> Result<(), AllocError>
    requires { IsBlank response.old }
    ensures { OnOk result (AnswersQuestion (A.finds analyst.now question script.now) question response.new) }
{
    let analysis = analyst.analyze(alloc, question, script)?;
    say_analysis(response, question, analysis)?;
    Ok(())
}

/// What a question about a script comes to, where the request may act.
pub(crate) fn answer_question_if<A: Analyst>(
    alloc: Global,
    analyst: &A,
    may: bool,
    question: Question,
    script: &[u8],
    response: &mut Response,
) -> Result<(), AllocError>
    requires { IsBlank response.old }
    ensures { OnOk result (AnswersQuestionIf (A.finds analyst.now question script.now) may question response.new) }
{
    match may {
        true => answer_question(alloc, analyst, question, script, response),
        false => deny(response),
    }
}
