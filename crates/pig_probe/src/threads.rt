use crate::sides::Sides;

/// Shows that sides are `Send` and `Sync`.
pub fn sides_cross_threads() {
    crosses::<Sides>();
}

fn crosses<T: Send + Sync>() {}
