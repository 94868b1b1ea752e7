ghost use Rattle.std.specs.Prelude.{◌≡◌, []};
ghost use Rattle.std.specs.List.{list_all, list_any};
ghost use Rattle.pig_typing.specs.Results.{Tells};
ghost use Rattle.pig_value.specs.FieldRows.{pieces};
ghost use Rattle.pig_check.specs.Paths.{below_root, collide, ends_so, is_component, is_compressed, is_dots, is_pattern, is_plain, is_within, kept, path_of, slash};

use pig_typing::{CheckKind, TypeFault};
use pig_value::Text;
use std::alloc::Global;

// The path of a text, without a slash at its end.
//
// # Errors
//
// Unsupported where a component is empty, `.` or `..` or holds a byte of a pattern, so also for the empty path, and
// Compressed where the path has the ending of compressed files.
#[tactic(auto, unfolding(crate::specs::Paths::path_of))]
pub fn path(alloc: Global, text: &Text) -> Result<Text, TypeFault>
    ensures { Tells (λ path. path) (path_of text.now) result }
{
    let kept = without_end(text.as_str());
    if !is_plain(kept) {
        return Err(TypeFault::Refused(CheckKind::Unsupported));
    }
    if is_compressed(kept) {
        return Err(TypeFault::Refused(CheckKind::Compressed));
    }
    Ok(Text::from_str(alloc, kept)?)
}

fn without_end(text: &str) -> &str
    ensures { result.now ≡ kept text.now }
{
    match text.strip_suffix('/') {
        Some(path) => path,
        None => text,
    }
}

fn is_plain(path: &str) -> bool
    ensures { result ≡ is_plain path.now }
{
    all_components(below_root(path))
}

fn below_root(path: &str) -> &str
    ensures { result.now ≡ below_root path.now }
{
    match path.strip_prefix('/') {
        Some(rest) => rest,
        None => path,
    }
}

fn all_components(path: &str) -> bool
    ensures { result ≡ list_all is_component (pieces slash path.now) }
{
    let mut left = path;
    while let Some((part, rest)) = left.split_once('/') {
        if !is_component(part.as_bytes()) {
            return false;
        }
        left = rest;
    }
    is_component(left.as_bytes())
}

fn is_component(part: &[u8]) -> bool
    ensures { result ≡ is_component part.now }
{
    !is_dots(part) && !has_pattern(part)
}

fn has_pattern(part: &[u8]) -> bool
    ensures { result ≡ list_any is_pattern part.now }
{
    part.iter().any(|b| is_pattern(*b))
}

fn is_dots(part: &[u8]) -> bool
    ensures { result ≡ is_dots part.now }
{
    match part {
        [] => true,
        [a] => *a == b'.',
        [a, b] => *a == b'.' && *b == b'.',
        _ => false,
    }
}

fn is_pattern(b: u8) -> bool
    ensures { result ≡ is_pattern b }
{
    b == b'*' || b == b'?' || b == b'{' || b == b'}' || b == b'[' || b == b']'
}

fn is_compressed(path: &str) -> bool
    ensures { result ≡ is_compressed path.now }
{
    ends_so(path, ".gz") || ends_so(path, ".bz2") || ends_so(path, ".lzo") || ends_so(path, ".zst")
}

fn ends_so(path: &str, ending: &str) -> bool
    ensures { result ≡ ends_so path.now ending.now }
{
    path.ends_with(ending)
}

// Whether two paths are equal, or the components of one begin with those of the other.
pub fn collide(path: &str, other: &str) -> bool
    ensures { result ≡ collide path.now other.now }
{
    is_within(path, other) || is_within(other, path)
}

// Texts are compared many bytes at a time: each STORE's path meets all earlier ones.
fn is_within(path: &str, other: &str) -> bool
    ensures { result ≡ is_within path.now other.now }
{
    match other.strip_prefix(path) {
        Some(behind) => is_end(behind.as_bytes()),
        None => false,
    }
}

fn is_end(behind: &[u8]) -> bool
    ensures { result ≡ is_within [] behind.now }
{
    match behind {
        [] => true,
        [b, ..] => *b == b'/',
    }
}
