// Looking things up by their paths.
ghost use Rattle.std.specs.Prelude.{◌≡◌, List, ℕ};
ghost use Rattle.std.specs.Option.{option_copied};
ghost use Rattle.pig_outside.specs.Shelf.{entry_named};
ghost use Rattle.pig_outside.specs.Places.{place_of};

use crate::Source;
use crate::contents::Directory;
use pig_value::Input;

// What stands under a path.
pub trait Named {
    ghost name: { Self → List ℕ };

    // Its path.
    fn name(&self) -> &str
        ensures { result.now ≡ name self.now };
}

impl Named for Source {
    ghost name = { λ source. source.path };

    fn name(&self) -> &str {
        self.path.as_str()
    }
}

impl Named for Input {
    ghost name = { λ input. input.path };

    fn name(&self) -> &str {
        self.path.as_str()
    }
}

impl Named for Directory {
    ghost name = { λ dir. dir.path };

    fn name(&self) -> &str {
        self.path.as_str()
    }
}

// The first of that path.
pub fn find<'a, T: Named>(items: &'a [T], path: &str) -> Option<&'a T>
    ensures { option_copied result ≡ entry_named T.name path.now items.now }
{
    items.iter().find(|item| item.name() == path)
}

// The place of the first of that path.
pub fn place<T: Named>(items: &[T], path: &str) -> Option<usize>
    ensures { result ≡ place_of T.name path.now items.now }
{
    for (i, item) in items.iter().enumerate() {
        if item.name() == path {
            return Some(i);
        }
    }
    None
}
