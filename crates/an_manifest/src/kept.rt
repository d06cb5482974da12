ghost use Rattle.std.specs.Prelude.{◌≡◌, false, Ok, IsTrue, IfOk};
ghost use Rattle.serde_json.specs.Written.{compact_text};
ghost use Rattle.an_base.specs.Tree.{is_tree};
ghost use Rattle.an_manifest.specs.Cuts.{canvas_cuts, sheet_cuts};
ghost use Rattle.an_manifest.specs.Manifest.{is_kept, canvases_in, canvases_of};

use crate::cut::{Cut, SheetCuts, canvas_cuts, sheet_cuts};
use crate::shape::canvases_in;
use crate::sheet::{Sheet, canvas_ids, read_manifest};
use an_base::{KeptTree, Text, TryCopy};
use std::alloc::{AllocError, Global};
use std::marker::Model;
use std::sync::ArcSlice;

/// What is kept of a manifest: its text, and where the text is cut when it is served. Copies share
/// both. Contracts see the tree that it is.
#[derive(Debug, Drop)]
pub struct KeptSheet {
    tree: KeptTree,
    cuts: SheetCuts,
    by_canvas: ArcSlice<Cut>,
    canvases: ArcSlice<Text>,
}

impl Model for KeptSheet {
    ghost use Rattle.std.specs.Prelude.{◌≡◌, IsTrue};
    ghost use Rattle.std.specs.Arc.{arc_slice_items};
    ghost use Rattle.serde_json.specs.Data.{Data};
    ghost use Rattle.an_base.specs.TreeCode.{tree_code};
    ghost use Rattle.an_manifest.specs.Cuts.{canvas_cuts, sheet_cuts};
    ghost use Rattle.an_manifest.specs.Manifest.{is_kept, canvases_in, canvases_of};

    ghost Value = { Data };

    ghost coded = { tree_code };

    ghost view = { λ s. s.tree };

    ghost invariant = { λ s. IsTrue (is_kept s.tree)
        × (s.cuts ≡ sheet_cuts s.tree)
        × (arc_slice_items s.by_canvas ≡ canvas_cuts (canvases_in s.tree))
        × (arc_slice_items s.canvases ≡ canvases_of s.tree) };
}

impl KeptSheet {
    /// What is kept of a manifest.
    #[tactic(auto, using(crate::proofs::KeptSheetLemmas::keeping_text))]
    pub fn keep(alloc: Global, sheet: &Sheet) -> Result<KeptSheet, AllocError>
        ensures value { IfOk result (λ kept. kept ≡ sheet.now) }
    {
        let value = sheet.tree();
        let tree = KeptTree::new(alloc, value)?;
        let cuts = sheet_cuts(alloc, value)?;
        let by_canvas = canvas_cuts(alloc, canvases_in(value))?;
        let ids = canvas_ids(alloc, canvases_in(value))?;
        let canvases = ArcSlice::from_vec(ids.into_vec())?;
        Ok(KeptSheet {
            tree,
            cuts,
            by_canvas,
            canvases,
        })
    }

    /// The whole manifest, read back.
    #[tactic(auto, using(crate::proofs::ManifestLemmas::kept_again))]
    pub fn sheet(&self, alloc: Global) -> Result<Sheet, AllocError>
        ensures value { IfOk result (λ sheet. sheet ≡ self.now) }
    {
        let value = self.tree.to_value(alloc)?;
        match read_manifest(alloc, &value) {
            Ok(sheet) => Ok(sheet),
            Err(_) => Err(AllocError),
        }
    }

    /// The text of what is kept of the manifest's tree. Takes no memory.
    pub fn text(&self) -> &[u8]
        ensures text { result.now ≡ compact_text self.now }
        ensures tree { IsTrue (is_tree self.now) }
        ensures kept { IsTrue (is_kept self.now) }
    {
        self.tree.text()
    }

    /// The ids of its canvases, in their order. Takes no memory.
    pub fn canvases(&self) -> &[Text]
        ensures canvases { result.now ≡ canvases_of self.now }
    {
        self.canvases.as_slice()
    }

    /// Where the text is cut for what is served.
    pub fn cuts(&self) -> SheetCuts
        ensures cuts { result ≡ sheet_cuts self.now }
    {
        self.cuts
    }

    /// Where the text of each canvas is cut around its annotations.
    pub fn canvas_cuts(&self) -> &[Cut]
        ensures cuts { result.now ≡ canvas_cuts (canvases_in self.now) }
    {
        self.by_canvas.as_slice()
    }
}

impl TryCopy for KeptSheet {
    fn copy(&self) -> Result<KeptSheet, AllocError> {
        Ok(KeptSheet {
            tree: self.tree.copy()?,
            cuts: self.cuts,
            by_canvas: self.by_canvas.clone()?,
            canvases: self.canvases.clone()?,
        })
    }
}
