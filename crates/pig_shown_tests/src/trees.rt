// Shown trees without what is the same in all of them.
use std::alloc::{AllocError, Global};

/// Shown trees without the names of lists, boxes and texts, and with `'` for `"`.
pub fn plain(alloc: Global, shown: &str) -> Result<String, AllocError> {
    let shown = shown.replace(alloc, "Seq { items: ", "\u{1}")?;
    let shown = shown.replace(alloc, "Text { text: ", "\u{1}")?;
    let shown = shown.replace(alloc, "Boxed { inner: ", "\u{1}")?;
    without_marks(alloc, shown.as_str())
}

// The same without the marks that names left, and without the braces that are theirs.
fn without_marks(alloc: Global, shown: &str) -> Result<String, AllocError> {
    let mut hidden = Vec::new(alloc);
    let mut text = String::new(alloc);
    for c in shown.chars() {
        match c {
            '\u{1}' => hidden.push(true)?,
            '{' => {
                hidden.push(false)?;
                text.push(c)?;
            }
            '}' => {
                if hidden.pop() == Some(true) {
                    text.pop();
                } else {
                    text.push(c)?;
                }
            }
            '"' => text.push('\'')?,
            _ => text.push(c)?,
        }
    }
    Ok(text)
}
