ghost use Rattle.std.specs.Prelude.{◌≡◌, ℕ, List, false};
ghost use Rattle.serde_json.specs.Data.{Data};
ghost use Rattle.serde_json.specs.Find.{get};
ghost use Rattle.an_served.specs.Manifest.{dressed, is_dressed};
ghost use Rattle.an_manifest.specs.Manifest.{canvases_of};

/// A law: but for `@context`, `id`, `items` and `service`, a served manifest has the members of
/// the one that is kept, as they are.
#[tactic(auto, using(crate::proofs::ManifestLaws::others))]
pub fn other_members_stay()
    ensures stay { (base name other : List ℕ) (tree : Data) → is_dressed other ≡ false
        → get other (dressed base name tree) ≡ get other tree }
{}

/// A law: the canvases of a served manifest have the ids of those that are kept, in their order.
#[tactic(auto, using(crate::proofs::ManifestLaws::ids))]
pub fn canvas_ids_stay()
    ensures ids { (base name : List ℕ) (tree : Data)
        → canvases_of (dressed base name tree) ≡ canvases_of tree }
{}
