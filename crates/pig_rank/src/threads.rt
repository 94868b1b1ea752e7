use crate::{Start, Starts, Summaries, Summary};

fn crosses<T: Send + Sync>() {}

/// Shows that what is told of partitions is `Send` and `Sync`.
pub fn parts_cross_threads() {
    crosses::<Summary>();
    crosses::<Summaries>();
    crosses::<Start>();
    crosses::<Starts>();
}
