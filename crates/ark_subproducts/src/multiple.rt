//! What goes down a tree.

use ark_traits::Field;

/// A multiple of a polynomial below `end`: of the one that the items represent for a tree, by the scale.
#[derive(Drop)]
pub struct Multiple<F: Field> {
    pub items: Vec<F>,
    pub scale: F,
    pub end: usize,
}
