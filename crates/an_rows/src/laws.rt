ghost use Rattle.std.specs.Prelude.{◌≡◌, ℕ, List, [], Ok, IsTrue};
ghost use Rattle.serde_json.specs.Data.{string};
ghost use Rattle.an_keep.specs.Cells.{Ascend, put_changes};
ghost use Rattle.an_keep.specs.declared.cell.Cell.{Cell};
ghost use Rattle.an_policy.specs.Group.{group_text};
ghost use Rattle.an_policy.specs.Inner.{one_group};
ghost use Rattle.an_policy.specs.declared.group.Group.{Group};
ghost use Rattle.an_state.specs.Entries.{after};
ghost use Rattle.an_state.specs.Former.{FormerState, widened_state};
ghost use Rattle.an_state.specs.Sound.{is_sound};
ghost use Rattle.an_state.specs.State.{State};
ghost use Rattle.an_state.specs.declared.entry.Entry.{Entry};
ghost use Rattle.an_state.specs.declared.entry.Row.{Row};
ghost use Rattle.an_rows.specs.Cells.{cells, cells_in, format_in, state_of};
ghost use Rattle.an_rows.specs.Changes.{changes_of};
ghost use Rattle.an_rows.specs.Format.{inner_tree};
ghost use Rattle.an_rows.specs.Migration.{migration};
ghost use Rattle.an_rows.specs.RowRead.{row_of_text};
ghost use Rattle.an_rows.specs.RowTree.{row_text, table_of};
ghost use Rattle.an_rows.specs.Valid.{is_valid, is_valid_row, row_can, state_can};
ghost use Rattle.an_rows.specs.declared.format.Format.{Format};

/// A law: the text of each valid row reads back as the row, in each format that can say it.
#[tactic(auto, using(crate::proofs::ReadActivityLemmas::rows_texts))]
pub fn rows_read_back()
    ensures read_back { (format : Format) (row : Row) → IsTrue (is_valid_row row)
        → IsTrue (row_can format row)
        → row_of_text format (table_of row) (row_text format row) ≡ Ok row }
{}

/// A law: a row that is read is a valid one of the table, and the bytes are its text. So no row has
/// two texts in a format.
#[tactic(auto, using(crate::proofs::ValidTreeLemmas::read_rows))]
pub fn rows_have_one_text()
    ensures table { (format : Format) (tab : ℕ) (bytes : List ℕ) (row : Row)
        → row_of_text format tab bytes ≡ Ok row → table_of row ≡ tab }
    ensures valid { (format : Format) (tab : ℕ) (bytes : List ℕ) (row : Row)
        → row_of_text format tab bytes ≡ Ok row → IsTrue (is_valid_row row) }
    ensures text { (format : Format) (tab : ℕ) (bytes : List ℕ) (row : Row)
        → row_of_text format tab bytes ≡ Ok row → row_text format row ≡ bytes }
    ensures said { (format : Format) (tab : ℕ) (bytes : List ℕ) (row : Row)
        → row_of_text format tab bytes ≡ Ok row → IsTrue (row_can format row) }
{}

/// A law: the cells of a valid and sound state stand for that state, in each format that can say
/// it, and so in the one that is written.
#[tactic(auto, using(crate::proofs::RestoreLemmas::states_cells))]
pub fn cells_read_back()
    ensures read_back { (s : State) → IsTrue (is_valid s) → IsTrue (is_sound s)
        → state_of (cells s) ≡ Ok s }
    ensures in_each { (format : Format) (s : State) → IsTrue (is_valid s) → IsTrue (is_sound s)
        → IsTrue (state_can format s) → state_of (cells_in format s) ≡ Ok s }
{}

/// A law: the cells of the first format that a state had before annotations had several inner
/// groups stand for the state in which each group is inner groups of one. In them each group has
/// the text that it had.
#[tactic(auto, using(crate::proofs::FormerLemmas::former_cells))]
pub fn former_cells_read_back()
    ensures read_back { (s : FormerState) → IsTrue (is_valid (widened_state s))
        → IsTrue (is_sound (widened_state s))
        → state_of (cells_in Format.First (widened_state s)) ≡ Ok (widened_state s) }
    ensures written { (group : Group)
        → inner_tree Format.First (one_group group) ≡ string (group_text group) }
{}

/// A law: the state that cells stand for is valid and sound, and has these cells in the format that
/// the first of them names, where they ascend.
#[tactic(auto, using(crate::proofs::OpenedLemmas::opened_states))]
pub fn opened_states_are_valid()
    ensures valid { (found : List Cell) (s : State) → state_of found ≡ Ok s
        → IsTrue (is_valid s) }
    ensures sound { (found : List Cell) (s : State) → state_of found ≡ Ok s
        → IsTrue (is_sound s) }
    ensures same { (found : List Cell) (s : State) → state_of found ≡ Ok s → Ascend found
        → cells_in (format_in found) s ≡ found }
{}

/// A law: the migration makes of the cells of a state in the first format those in the second.
#[tactic(auto, using(crate::proofs::MigrationLemmas::migrated_cells))]
pub fn migration_leads_on()
    ensures lead { (s : State) → ¬ (cells_in Format.First s ≡ [])
        → Ascend (cells_in Format.First s)
        → put_changes (migration s) (cells_in Format.First s) ≡ cells s }
{}

/// A law: what an entry changes makes of a state's cells those of the state behind the entry.
#[tactic(auto, using(crate::proofs::ChangeLemmas::changed_cells))]
pub fn changes_lead_on()
    ensures lead { (s : State) (entry : Entry)
        → put_changes (changes_of s entry) (cells s) ≡ cells (after s entry) }
{}
