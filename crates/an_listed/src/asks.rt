ghost use Rattle.std.specs.Prelude.{◌≡◌, ◌++◌, ◌∷◌, ◌&&◌, [], IfOk, List, None, Some, false};
ghost use Rattle.std.specs.Prelude.{filter, if◌then◌else◌, map, true, ℕ};
ghost use Rattle.std.specs.List.{AllByRecursion};
ghost use Rattle.std.specs.Option.{option_copied};
ghost use Rattle.an_policy.specs.Audience.{identity};
ghost use Rattle.an_postings.specs.Postings.{places_in};
ghost use Rattle.an_slots.specs.Places.{Rises, has, places_from};
ghost use Rattle.an_slots.specs.Slot.{slot_of};
ghost use Rattle.an_state.specs.Terms.{has_term, totals_in};
ghost use Rattle.an_state.specs.View.{is_on};
ghost use Rattle.an_listed.specs.Filed.{is_under, reads, reads_within};
ghost use Rattle.an_listed.specs.Stands.{Stands, lists_within, text_within};

use crate::filed::Filed;
use crate::register::Register;
use an_base::{Name, TermTotal};
use an_policy::{Classes, Who, may};
use an_postings::Postings;
use an_slots::is_among;
use std::alloc::{AllocError, Global};

impl Register {
    pub(crate) fn on_manifest(
        &self,
        alloc: Global,
        manifest: &Name,
    ) -> Result<Vec<usize>, AllocError>
        ensures places { IfOk result (λ places. (rows : List Filed) → Stands self.now rows
            → places.items ≡ places_from (λ row. is_on manifest.now row.note) 0 rows) }
    {
        let manifest = manifest.as_str();
        let own = self.whole.classes(alloc, manifest, "")?;
        self.whole.places(alloc, manifest, "", own.as_slice())
    }

    pub(crate) fn readable_on(
        &self,
        alloc: Global,
        classes: &Classes,
        who: &Who<'_>,
        manifest: &Name,
    ) -> Result<Vec<usize>, AllocError>
        ensures places { IfOk result (λ places. (rows : List Filed) → Stands self.now rows
            → places.items ≡ places_from
            (reads_within (identity who.now) classes.now (Some manifest.now)) 0 rows) }
    {
        let manifest = manifest.as_str();
        let read = classes_read(alloc, &self.whole, manifest, "", classes, who)?;
        self.whole.places(alloc, manifest, "", read.as_slice())
    }

    pub(crate) fn with_term(
        &self,
        alloc: Global,
        classes: &Classes,
        who: &Who<'_>,
        manifest: Option<&Name>,
        term: &str,
    ) -> Result<Vec<usize>, AllocError>
        ensures places { IfOk result (λ places. (rows : List Filed) → Stands self.now rows
            → places.items ≡ places_from (λ row. reads_within (identity who.now) classes.now
            (option_copied manifest.entry) row && has_term term.now row.note) 0 rows) }
    {
        let lists = self.lists_within(manifest);
        let text = text_within(manifest);
        let read = classes_read(alloc, lists, text, term, classes, who)?;
        lists.places(alloc, text, term, read.as_slice())
    }

    pub(crate) fn terms_from(
        &self,
        alloc: Global,
        classes: &Classes,
        who: &Who<'_>,
        manifest: Option<&Name>,
        prefix: &str,
    ) -> Result<Vec<TermTotal>, AllocError>
        ensures terms { IfOk result (λ terms. (rows : List Filed) → Stands self.now rows
            → terms.items ≡ totals_in prefix.now (map (λ row. row.note)
            (filter (reads_within (identity who.now) classes.now (option_copied manifest.entry))
            rows))) }
    {
        let lists = self.lists_within(manifest);
        let read = self.classes_within(alloc, classes, who, manifest)?;
        lists.from_prefix(alloc, text_within(manifest), prefix, read.as_slice())
    }

    /// The lists in which words are sought on a manifest, or where none is named on any.
    pub(crate) fn lists_within(&self, manifest: Option<&Name>) -> &Postings
        ensures lists { result.now ≡ lists_within self.now (option_copied manifest.entry) }
    {
        match manifest {
            Some(_) => &self.words,
            None => &self.anywhere,
        }
    }

    /// Classes that the caller may read, ascending, and among them those of all such rows on the
    /// manifest, where one is named.
    fn classes_within(
        &self,
        alloc: Global,
        classes: &Classes,
        who: &Who<'_>,
        manifest: Option<&Name>,
    ) -> Result<Vec<usize>, AllocError>
        ensures rises { IfOk result (λ read. Rises 0 read.items) }
        ensures read { IfOk result (λ read. (rows : List Filed) → Stands self.now rows
            → AllByRecursion (λ row. (is_under (option_copied manifest.entry) row.note
            && has row.class read.items) ≡ reads_within (identity who.now) classes.now
            (option_copied manifest.entry) row) rows) }
    {
        match manifest {
            Some(name) => classes_read(alloc, &self.whole, name.as_str(), "", classes, who),
            None => all_read(alloc, classes, who),
        }
    }
}

/// What stands for the manifest in these lists.
pub(crate) fn text_within(manifest: Option<&Name>) -> &str
    ensures { result.now ≡ text_within (option_copied manifest.entry) }
{
    match manifest {
        Some(name) => name.as_str(),
        None => "",
    }
}

/// Classes that the caller may read, ascending, and among them all in whose lists of a term there
/// is a place.
pub(crate) fn classes_read(
    alloc: Global,
    lists: &Postings,
    text: &str,
    term: &str,
    classes: &Classes,
    who: &Who<'_>,
) -> Result<Vec<usize>, AllocError>
    ensures rises { IfOk result (λ read. Rises 0 read.items) }
    ensures read { IfOk result (λ read. (class : ℕ) → has class read.items ≡ true
        → reads (identity who.now) classes.now class ≡ true) }
    ensures others { IfOk result (λ read. (class : ℕ)
        → reads (identity who.now) classes.now class ≡ true → has class read.items ≡ false
        → places_in lists.now (slot_of text.now term.now class) ≡ []) }
{
    let own = lists.classes(alloc, text, term)?;
    those_read(alloc, classes, who, own.as_slice())
}

/// Those of the classes that the caller may read.
fn those_read(
    alloc: Global,
    classes: &Classes,
    who: &Who<'_>,
    own: &[usize],
) -> Result<Vec<usize>, AllocError>
    ensures read { IfOk result (λ read. read.items
        ≡ filter (reads (identity who.now) classes.now) own.now) }
{
    let mut read = Vec::new(alloc);
    for class in own {
        if classes.readable(who, *class) {
            read.push(*class)?;
        }
    }
    Ok(read)
}

/// All classes that the caller may read, ascending.
fn all_read(alloc: Global, classes: &Classes, who: &Who<'_>) -> Result<Vec<usize>, AllocError>
    ensures rises { IfOk result (λ read. Rises 0 read.items) }
    ensures read { IfOk result (λ read. (class : ℕ)
        → has class read.items ≡ reads (identity who.now) classes.now class) }
{
    let mut read = Vec::new(alloc);
    for (class, audience) in classes.as_slice().iter().enumerate() {
        if may(who, audience) {
            read.push(class)?;
        }
    }
    Ok(read)
}

/// The places of the live rows that the caller may read, whatever manifest they are on. No list is
/// kept of them: all rows are looked at, and each class is judged once.
pub(crate) fn readable_anywhere(
    alloc: Global,
    rows: &[Filed],
    classes: &Classes,
    who: &Who<'_>,
) -> Result<Vec<usize>, AllocError>
    ensures places { IfOk result (λ places. places.items
        ≡ places_from (reads_within (identity who.now) classes.now None) 0 rows.now) }
{
    let read = all_read(alloc, classes, who)?;
    places_of(alloc, rows, read.as_slice())
}

/// The places of the live rows of these classes, which ascend.
fn places_of(alloc: Global, rows: &[Filed], read: &[usize]) -> Result<Vec<usize>, AllocError>
    requires rises { Rises 0 read.now }
    ensures { IfOk result (λ places. places.items ≡ places_from
        (λ row. is_under None row.note && has row.class read.now) 0 rows.now) }
{
    let mut places = Vec::new(alloc);
    for (place, row) in rows.iter().enumerate() {
        if is_of(row, read) {
            places.push(place)?;
        }
    }
    Ok(places)
}

/// Whether the row is live, and of one of these classes, which ascend.
fn is_of(row: &Filed, read: &[usize]) -> bool
    requires rises { Rises 0 read.now }
    ensures { result ≡ (is_under None row.now.note && has row.now.class read.now) }
{
    row.note.get().live().is_some() && is_among(read, row.class)
}
