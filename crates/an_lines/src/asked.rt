ghost use Rattle.std.specs.Prelude.{◌≡◌, IfOk, Some, Ok, Err};
ghost use Rattle.an_routes.specs.Commands.{command_of};
ghost use Rattle.an_lines.specs.Asked.{query_asked};
ghost use Rattle.an_lines.specs.Asked.{route_asked, by_asked, words_asked, asked_of};
ghost use Rattle.an_lines.specs.Line.{by_of, lent_words, words_of};

use crate::line::{LineWords, words_of};
use an_base::{Moment, Name, name_in};
use an_code::Code;
use an_http::{Allow, Method};
use an_query::text_of;
use an_routes::{Read, Route, RouteError, command_of, route};
use an_state::Command;
use std::alloc::{AllocError, Global};

/// What a form prints whose name is no live reader's.
pub(crate) const NO_READER: &str = "no reader\n";

/// What a line asks. It is by a reader, or by nobody's name.
#[derive(Debug, Drop)]
pub(crate) enum Asked {
    /// It is empty.
    Nothing,
    Read {
        by: Option<Name>,
        read: Read,
    },
    /// A read whose query is refused.
    Unread {
        by: Option<Name>,
        allow: Allow,
        refusal: Code,
    },
    Write {
        moment: Moment,
        by: Option<Name>,
        command: Command,
    },
}

/// What a line asks, or why it is refused whatever the state is.
#[tactic(auto, unfolding(crate::specs::Asked::asked_of))]
pub(crate) fn asked_of(alloc: Global, line: &[u8]) -> Result<Result<Asked, Code>, AllocError>
    ensures { IfOk result (λ asked. asked ≡ asked_of line.now) }
{
    if line.is_empty() {
        return Ok(Ok(Asked::Nothing));
    }
    match text_of(line) {
        Some(text) => words_asked(alloc, text),
        None => Ok(Err(Code::Line)),
    }
}

fn words_asked(alloc: Global, text: &str) -> Result<Result<Asked, Code>, AllocError>
    ensures { IfOk result (λ asked. asked ≡ words_asked (words_of text.now)) }
{
    match words_of(text) {
        Some(words) => by_asked(alloc, &words),
        None => Ok(Err(Code::Line)),
    }
}

fn by_asked(alloc: Global, words: &LineWords<'_>) -> Result<Result<Asked, Code>, AllocError>
    ensures { IfOk result (λ asked. asked ≡ words_asked (Some (lent_words words.now))) }
{
    match by_of(alloc, words.by)? {
        Some(by) => target_asked(alloc, words, by),
        None => Ok(Err(Code::Line)),
    }
}

/// Nobody's name, or a reader's.
pub(crate) fn by_of(alloc: Global, text: &str) -> Result<Option<Option<Name>>, AllocError>
    ensures { IfOk result (λ by. by ≡ by_of text.now) }
{
    if text == "-" {
        return Ok(Some(None));
    }
    match name_in(alloc, text) {
        Ok(name) => match name {
            Some(name) => Ok(Some(Some(name))),
            None => Ok(None),
        },
        Err(error) => Err(error),
    }
}

fn target_asked(
    alloc: Global,
    words: &LineWords<'_>,
    by: Option<Name>,
) -> Result<Result<Asked, Code>, AllocError>
    ensures { IfOk result (λ asked. asked ≡ by_asked (lent_words words.now) (Some by)) }
{
    match route(alloc, Some(words.method), words.target) {
        Ok(route) => route_asked(alloc, words, by, route),
        Err(error) => error_asked(words, by, error),
    }
}

fn route_asked(
    alloc: Global,
    words: &LineWords<'_>,
    by: Option<Name>,
    route: Route,
) -> Result<Result<Asked, Code>, AllocError>
    ensures { IfOk result (λ asked. asked ≡ route_asked (lent_words words.now) by (Ok route)) }
{
    match route {
        Route::Options(_) => Ok(Err(Code::Line)),
        Route::Read(read) => Ok(Ok(Asked::Read { by, read })),
        Route::Write(write) => match command_of(alloc, write, words.tree.as_bytes())? {
            Ok(command) => Ok(Ok(Asked::Write {
                moment: words.moment,
                by,
                command,
            })),
            Err(refusal) => Ok(Err(refusal)),
        },
    }
}

fn error_asked(
    words: &LineWords<'_>,
    by: Option<Name>,
    error: RouteError,
) -> Result<Result<Asked, Code>, AllocError>
    ensures asked { IfOk result (λ asked. asked
        ≡ route_asked (lent_words words.now) by (Err error)) }
    ensures memory { IfOk result (λ _. ¬ (error ≡ RouteError.Memory)) }
{
    match error {
        RouteError::Target => Ok(Err(Code::Line)),
        RouteError::Route => Ok(Err(Code::Line)),
        RouteError::Method { .. } => Ok(Err(Code::Line)),
        RouteError::Query { allow, code } => Ok(query_asked(words.method, by, allow, code)),
        RouteError::Memory => Err(AllocError),
    }
}

/// A read whose query is refused is answered; a write isn't.
fn query_asked(method: Method, by: Option<Name>, allow: Allow, refusal: Code) -> Result<Asked, Code>
    ensures { result ≡ query_asked method by allow refusal }
{
    match method {
        Method::Get => Ok(Asked::Unread { by, allow, refusal }),
        _ => Err(refusal),
    }
}
