/// A field that is kept of a node's rows: its position among all of them, and for a bag whose rows are cut the number of the node as
/// whose rows they are cut.
#[derive(Debug, Clone, Copy, PartialEq, Eq, Drop)]
pub struct KeptField {
    pub position: u32,
    pub like: Option<u32>,
}
