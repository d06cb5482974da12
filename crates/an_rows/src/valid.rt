//! Whether what the types say of a row's parts makes it a valid one.
ghost use Rattle.std.specs.Prelude.{◌≡◌, true};
ghost use Rattle.std.specs.Option.{option_copied};
ghost use Rattle.an_base.specs.Moment.{is_moment};
ghost use Rattle.an_base.specs.Name.{is_name};
ghost use Rattle.an_policy.specs.Inner.{is_valid_inner};
ghost use Rattle.an_state.specs.Commands.{is_number};
ghost use Rattle.an_state.specs.Live.{lent_note};
ghost use Rattle.an_rows.specs.Valid.{if_any, is_iri, is_note, is_valid_activity};
ghost use Rattle.an_rows.specs.Valid.{is_valid_audience, is_valid_live_note, is_valid_note_row};

use crate::activities::is_valid_audience;
use an_base::{Moment, Name, Text, moments_are_told};
use an_keyed::Keyed;
use an_model::KeptNote;
use an_policy::{Audience, Inner, is_user, typed_inner};
use an_state::{Activity, LiveNote, NoteRow};

#[tactic(auto, unfolding(crate::specs::Valid::is_valid_activity))]
pub(crate) fn is_valid_activity(activity: &Activity) -> bool
    ensures valid { result ≡ is_valid_activity activity.now }
{
    let owner = activity.owner.as_ref();
    is_moment(activity.at)
        && is_name_if(activity.by.as_ref())
        && is_name_if(owner)
        && is_name(&activity.name)
        && is_audience_if(owner, activity.before.as_ref())
        && is_audience_if(owner, activity.after.as_ref())
        && (activity.before.is_some() || activity.after.is_some())
}

/// Whether the row is that of a live annotation, and valid.
pub(crate) fn is_valid_live_row(row: &NoteRow) -> bool
    ensures valid { result ≡ true → is_valid_note_row row.now ≡ true }
{
    match row.live() {
        Some(live) => is_valid_head(row) && is_valid_live(&live),
        None => false,
    }
}

fn is_valid_head(row: &NoteRow) -> bool
    ensures owner { result ≡ true → is_name row.now.owner ≡ true }
    ensures name { result ≡ true → is_name row.now.name ≡ true }
    ensures number { result ≡ true → is_number row.now.version ≡ true }
{
    is_name(row.owned_by()) && is_name(row.name()) && is_number(row.version())
}

fn is_valid_live(live: &LiveNote<'_>) -> bool
    ensures { result ≡ is_valid_live_note (lent_note live.now) }
{
    is_name(live.manifest)
        && is_valid_inner(live.group)
        && is_iri(live.creator.get())
        && is_moment(live.created)
        && is_moment_if(live.modified)
        && is_note(live.tree)
}

fn is_name(name: &Name) -> bool
    ensures { result ≡ is_name name.now }
{
    let _text = name.as_str();
    true
}

fn is_name_if(name: Option<&Name>) -> bool
    ensures { result ≡ if_any is_name (option_copied name.entry) }
{
    match name {
        Some(name) => is_name(name),
        None => true,
    }
}

fn is_moment(moment: Moment) -> bool
    ensures { result ≡ is_moment moment }
{
    moments_are_told();
    let _seconds = moment.seconds();
    true
}

fn is_moment_if(moment: Option<Moment>) -> bool
    ensures { result ≡ if_any is_moment moment }
{
    match moment {
        Some(moment) => is_moment(moment),
        None => true,
    }
}

fn is_audience_if(owner: Option<&Name>, audience: Option<&Audience>) -> bool
    ensures { result ≡ if_any (is_valid_audience (option_copied owner.entry))
        (option_copied audience.entry) }
{
    match audience {
        Some(audience) => is_valid_audience(owner, audience),
        None => true,
    }
}

fn is_valid_inner(inner: &Inner) -> bool
    ensures { result ≡ is_valid_inner inner.now }
{
    typed_inner(inner);
    true
}

fn is_iri(text: &Text) -> bool
    ensures { result ≡ is_iri text.now }
{
    is_user(text.as_str())
}

#[tactic(auto, unfolding(an_state::specs::Commands::is_number))]
fn is_number(version: u32) -> bool
    ensures { result ≡ is_number version }
{
    1 <= version && version < 1_000_000_000
}

#[tactic(auto, unfolding(crate::specs::Valid::is_note))]
fn is_note(note: &KeptNote) -> bool
    ensures { result ≡ is_note note.now }
{
    let _tree = note.kept_tree();
    true
}
