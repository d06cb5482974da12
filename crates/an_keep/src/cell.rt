use an_base::{Bytes, TryCopy};
use std::alloc::AllocError;

/// What is kept under a table and a key.
#[derive(Debug, Drop, PartialEq, Eq)]
pub struct Cell {
    pub tab: u8,
    pub key: u64,
    pub val: Bytes,
}

impl TryCopy for Cell {
    fn copy(&self) -> Result<Cell, AllocError> {
        Ok(Cell {
            tab: self.tab,
            key: self.key,
            val: self.val.copy()?,
        })
    }
}

/// What becomes of one cell: it is put with this value, or taken away where there is none.
#[derive(Debug, Drop, PartialEq, Eq)]
pub struct Change {
    pub tab: u8,
    pub key: u64,
    pub val: Option<Bytes>,
}

impl TryCopy for Change {
    fn copy(&self) -> Result<Change, AllocError> {
        Ok(Change {
            tab: self.tab,
            key: self.key,
            val: self.val.copy()?,
        })
    }
}
