//! Rows on trees.
use crate::rows::RowError;
use crate::shown::written;
use an_base::{Tree, read_tree, tree_text};
use std::alloc::{AllocError, Global};

/// The tree of an argument.
pub fn read(alloc: Global, text: &str) -> Result<Tree, RowError> {
    match read_tree(alloc, text.as_bytes()) {
        Ok(value) => Ok(Tree::new(value)),
        Err(_) => Err(RowError::Form),
    }
}

pub fn tree(alloc: Global, text: &str) -> Result<String, AllocError> {
    match read_tree(alloc, text.as_bytes()) {
        Ok(value) => tree_shown(alloc, &Tree::new(value)),
        Err(error) => written(alloc, &error),
    }
}

fn tree_shown(alloc: Global, tree: &Tree) -> Result<String, AllocError> {
    let text = tree_text(alloc, tree.as_value())?;
    String::from_utf8_lossy(alloc, text.as_slice())
}
