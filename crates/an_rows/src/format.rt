ghost use Rattle.std.specs.Prelude.{◌≡◌};
ghost use Rattle.an_rows.specs.Cells.{format_of};
ghost use Rattle.an_rows.specs.Format.{format_named, format_text};

use an_keep::Cell;

/// How a store writes its rows.
#[derive(Clone, Copy, Debug, PartialEq, Eq)]
pub enum Format {
    /// An annotation has one inner group. Stores of this format are read, and turned.
    First,
    /// An annotation has one to eight. It is the one that is written.
    Second,
}

/// The format that the first cell of a store names, where it names one. Takes no memory.
#[tactic(auto, unfolding(crate::specs::Cells::format_of))]
pub fn format_of(cell: &Cell) -> Option<Format>
    ensures format { result ≡ format_of cell.now }
{
    if cell.tab == 0 && cell.key == 0 {
        format_named(cell.val.as_slice())
    } else {
        None
    }
}

fn format_named(text: &[u8]) -> Option<Format>
    ensures { result ≡ format_named text.now }
{
    if text == format_text(Format::First).as_bytes() {
        Some(Format::First)
    } else if text == format_text(Format::Second).as_bytes() {
        Some(Format::Second)
    } else {
        None
    }
}

/// The text of the cell that names the format.
pub(crate) fn format_text(format: Format) -> &'static str
    ensures text { result.now ≡ format_text format }
{
    match format {
        Format::First => "{\"format\":1}",
        Format::Second => "{\"format\":2}",
    }
}
