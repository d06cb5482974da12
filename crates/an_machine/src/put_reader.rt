//! A reader is put.
ghost use Rattle.std.specs.Prelude.{◌≡◌, IfOk};
ghost use Rattle.std.specs.Option.{option_copied};
ghost use Rattle.an_base.specs.Outcome.{Gives, passes};
ghost use Rattle.an_state.specs.State.{reader_row};
ghost use Rattle.an_machine.specs.Accepted.{reader_effect};
ghost use Rattle.an_machine.specs.Refusals.{is_taken_from, is_token_taken};
ghost use Rattle.an_machine.specs.Step.{judged};
ghost use Rattle.an_machine.specs.Versions.{holds_reader, same_reader, same_role};

use crate::asked::Asked;
use crate::command::Refused;
use crate::effect::{Effect, reader_change};
use crate::versions::{is_behind, reader_standing, unless_done};
use an_base::{Name, Text, TryCopy};
use an_policy::{Reader, Role};
use an_state::{Book, ReaderRow};
use std::alloc::{AllocError, Global};

/// What a put of a reader changes; nothing where it was done already.
pub(crate) fn put_reader(
    alloc: Global,
    book: &Book,
    reader: Reader,
) -> Result<Option<Effect>, Refused>
    ensures { Gives (λ e. e) Refused.Memory result (judged book.now.state (Asked.Reader reader)
        (reader_effect (reader_row book.now.state reader.name) reader)) }
{
    if is_token_taken(book, &reader.name, &reader.token) {
        return Err(Refused::TokenTaken);
    }
    let before = book.reader_row(&reader.name);
    let standing = reader_standing(before);
    if is_behind(standing, reader.version) {
        Ok(Some(reader_effect(alloc, before, reader)?))
    } else {
        unless_done(standing, reader.version, is_held(before, &reader))
    }
}

fn reader_effect(
    alloc: Global,
    before: Option<&ReaderRow>,
    reader: Reader,
) -> Result<Effect, AllocError>
    ensures { IfOk result (λ effect. effect ≡ reader_effect (option_copied before.entry) reader) }
{
    let row = ReaderRow {
        name: reader.name.copy()?,
        version: reader.version,
        reader: Some(reader),
    };
    reader_change(alloc, !reader_standing(before).live, row)
}

/// Whether the row is live with this reader.
fn is_held(row: Option<&ReaderRow>, reader: &Reader) -> bool
    ensures { result ≡ passes (holds_reader reader.now) (option_copied row.entry) }
{
    match row {
        Some(row) => match row.reader() {
            Some(live) => is_same_reader(live, reader),
            None => false,
        },
        None => false,
    }
}

fn is_same_reader(one: &Reader, other: &Reader) -> bool
    ensures { result ≡ same_reader one.now other.now }
{
    one.token == other.token
        && is_same_role(one.role, other.role)
        && one.user.get() == other.user.get()
        && one.groups == other.groups
}

fn is_same_role(one: Role, other: Role) -> bool
    ensures { result ≡ same_role one other }
{
    match one {
        Role::Reader => matches!(other, Role::Reader),
        Role::Writer => matches!(other, Role::Writer),
        Role::Curator => matches!(other, Role::Curator),
    }
}

/// Whether a live reader of another name has the token. Only rows with the token are looked at.
fn is_token_taken(book: &Book, name: &Name, token: &Text) -> bool
    ensures { result ≡ is_token_taken book.now.state name.now token.now }
{
    let mut start = 0;
    'marked: while let Some(place) = book.place_with_token(token.as_str(), start) {
        if takes_token(&book.readers()[place], name, token) {
            return true;
        }
        start = place + 1;
    }
    false
}

fn takes_token(row: &ReaderRow, name: &Name, token: &Text) -> bool
    ensures { result ≡ passes (is_taken_from name.now token.now) row.now.live }
{
    match row.reader() {
        Some(reader) => reader.token == *token && reader.name != *name,
        None => false,
    }
}
