/// A place among the items of a list in blocks: before item `at` of block `block`, both counted
/// from 0, or behind the last item of that block.
#[derive(Clone, Copy)]
pub struct Place {
    pub block: usize,
    pub at: usize,
}
