use crate::lookup::Lookup;

/// Shows that lookups are `Send` and `Sync`.
pub fn lookups_cross_threads() {
    crosses::<Lookup>();
}

fn crosses<T: Send + Sync>() {}
