//! The trees of the trial.
ghost use Rattle.std.specs.Prelude.{◌≡◌, IfOk};
ghost use Rattle.serde_json.specs.View.{view};
ghost use Rattle.an_trial.specs.Writes.{canvas_tree, manifest_tree, note_tree, reader_tree};

use an_base::{Shared, Tree};
use serde_json::{Value, json};
use std::alloc::{AllocError, Global};

/// The tree of the reader, who is a writer and in the group `a`.
#[tactic(auto, using(crate::proofs::TreeLemmas::trial_trees))]
pub(crate) fn reader_tree(alloc: Global) -> Result<Shared<Tree>, AllocError>
    ensures value { IfOk result (λ tree. tree ≡ reader_tree) }
{
    let value = reader_value(alloc)?;
    Shared::new(alloc, Tree::new(value))
}

fn reader_value(alloc: Global) -> Result<Value, AllocError>
    ensures { IfOk result (λ value. view value ≡ reader_tree) }
{
    json!(in alloc; {
        "groups": ["a"],
        "role": "writer",
        "token": "tok-trial",
        "user": "http://a.example/u/t"
    })
}

/// The tree of the manifest, which has one canvas.
#[tactic(auto, using(crate::proofs::TreeLemmas::trial_trees))]
pub(crate) fn manifest_tree(alloc: Global) -> Result<Shared<Tree>, AllocError>
    ensures value { IfOk result (λ tree. tree ≡ manifest_tree) }
{
    let value = manifest_value(alloc)?;
    Shared::new(alloc, Tree::new(value))
}

fn manifest_value(alloc: Global) -> Result<Value, AllocError>
    ensures { IfOk result (λ value. view value ≡ manifest_tree) }
{
    let canvas = canvas_value(alloc)?;
    json!(in alloc; {"items": [canvas], "label": {"en": ["Log"]}, "type": "Manifest"})
}

fn canvas_value(alloc: Global) -> Result<Value, AllocError>
    ensures { IfOk result (λ value. view value ≡ canvas_tree) }
{
    json!(in alloc; {"height": 100, "id": "http://a.example/c1", "type": "Canvas", "width": 80})
}

/// The tree of an annotation with this text on the canvas.
#[tactic(auto, using(crate::proofs::TreeLemmas::trial_trees))]
pub(crate) fn note_tree(alloc: Global, text: &str) -> Result<Shared<Tree>, AllocError>
    ensures value { IfOk result (λ tree. tree ≡ note_tree text.now) }
{
    let value = note_value(alloc, text)?;
    Shared::new(alloc, Tree::new(value))
}

fn note_value(alloc: Global, text: &str) -> Result<Value, AllocError>
    ensures { IfOk result (λ value. view value ≡ note_tree text.now) }
{
    json!(in alloc; {
        "body": {"type": "TextualBody", "value": text},
        "target": "http://a.example/c1",
        "type": "Annotation"
    })
}
