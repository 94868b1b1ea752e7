// Printed plans, a line for each node.
use std::alloc::{AllocError, Global};

/// The nodes of the rewritten plan of what EXPLAIN prints, each a line behind `- `, and one more line
/// where they aren't so many.
pub fn shown_nodes(alloc: Global, printed: &str, count: usize) -> Result<String, AllocError> {
    let (_checked, rewritten) = printed.split_once("rewritten\n").unwrap_or(("", ""));
    let (nodes, _waves) = rewritten.split_once("waves\n").unwrap_or(("", ""));
    let mut shown = String::new(alloc);
    for line in nodes.lines() {
        shown.push_str("- ")?;
        shown.push_str(line)?;
        shown.push_str("\n")?;
    }
    if count != nodes.lines().count() {
        shown.push_str("- dead ones\n")?;
    }
    Ok(shown)
}
