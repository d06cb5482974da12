//! Rows on annotations and manifests.
use crate::rows::RowError;
use crate::shown::written;
use crate::tree_calls::read;
use an_base::{Span, Text};
use an_manifest::{Sheet, read_manifest};
use an_model::{Note, NoteOccurrence, Target, read_note};
use an_selectors::Xywh;
use std::alloc::{AllocError, Global};

/// The text of the tree that is kept of an annotation, or its refusal with its place.
pub fn note(alloc: Global, text: &str) -> Result<String, RowError> {
    let tree = read(alloc, text)?;
    match read_note(alloc, tree.as_value()) {
        Ok(note) => Ok(note.tree().to_string(alloc)?),
        Err(refusal) => Ok(written(alloc, &refusal)?),
    }
}

/// What an annotation says.
pub fn parts(alloc: Global, text: &str) -> Result<String, RowError> {
    let tree = read(alloc, text)?;
    let note = read_note(alloc, tree.as_value()).map_err(|_| RowError::Form)?;
    Ok(parts_shown(alloc, &note)?)
}

/// Each part stands behind its mark: motivations, texts, body IRIs, targets with the number of
/// their selectors and their region, and the words of the texts with their terms.
fn parts_shown(alloc: Global, note: &Note) -> Result<String, AllocError> {
    let mut found = String::new(alloc);
    add_texts(&mut found, "m", note.motivations())?;
    add_texts(&mut found, "t", note.texts())?;
    add_texts(&mut found, "i", note.iris())?;
    add_targets(&mut found, note.targets())?;
    add_words(&mut found, note.occurrences())?;
    Ok(found)
}

fn add_texts(found: &mut String, mark: &str, texts: &[Text]) -> Result<(), AllocError> {
    for text in texts {
        write!(found, "{mark} {}|", text.as_str())?;
    }
    Ok(())
}

fn add_targets(found: &mut String, targets: &[Target]) -> Result<(), AllocError> {
    for target in targets {
        let count = target.selectors.as_slice().len();
        write!(found, "s {} {count}", target.source.as_str())?;
        add_region(found, &target.region)?;
    }
    Ok(())
}

fn add_region(found: &mut String, region: &Option<Xywh>) -> Result<(), AllocError> {
    match region {
        Some(Xywh { x, y, w, h }) => write!(found, " {x},{y},{w},{h}|"),
        None => write!(found, "|"),
    }
}

fn add_words(found: &mut String, words: &[NoteOccurrence]) -> Result<(), AllocError> {
    for word in words {
        let Span { start, end } = word.span;
        let term = word.term.as_str();
        write!(found, "w {} {term} {start} {end}|", word.text)?;
    }
    Ok(())
}

/// The canvases of a manifest, each before a `;`, or its refusal with its place.
pub fn sheet(alloc: Global, text: &str) -> Result<String, RowError> {
    let tree = read(alloc, text)?;
    match read_manifest(alloc, tree.as_value()) {
        Ok(sheet) => Ok(sheet_shown(alloc, &sheet)?),
        Err(refusal) => Ok(written(alloc, &refusal)?),
    }
}

fn sheet_shown(alloc: Global, sheet: &Sheet) -> Result<String, AllocError> {
    let mut found = String::new(alloc);
    for canvas in sheet.canvases() {
        write!(found, "{};", canvas.as_str())?;
    }
    Ok(found)
}
