/// Why bytes are no row.
#[derive(Clone, Copy, Debug, PartialEq, Eq)]
pub enum RowError {
    /// The table isn't one of 1 to 4.
    Table,
    /// The key isn't below 2^62.
    Key,
    /// The bytes aren't the one text of a row of the table.
    Bytes,
    Memory,
}
