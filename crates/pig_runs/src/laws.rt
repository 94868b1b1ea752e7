ghost use Rattle.std.specs.Prelude.{◌≡◌, ◌<◌, ◌↔◌, ◌+◌, ℕ, List, map, length};
ghost use Rattle.std.specs.List.{flat_map, range_with_len};
ghost use Rattle.std.specs.Ordering.{ordering_reverse};
ghost use Rattle.std.specs.declared.cmp.Ordering.TheVariants.{Less, Equal};
ghost use Rattle.pig_value.specs.Gathering.{Entry};
ghost use Rattle.pig_value.specs.Sorts.{Ascends, sort};
ghost use Rattle.pig_value.specs.Trees.{Tree};
ghost use Rattle.pig_value.specs.declared.operators.Dir.{Dir};
ghost use Rattle.pig_runs.specs.Cutting.{OrderGoesByPoints, Point, cut_points, point_cmp, slice_of};
ghost use Rattle.pig_runs.specs.Entries.{run_cmp, run_of, entries_of_all};

use crate::entries::Entries;
use crate::run::{Run, Runs};

/// The order of entries is total, and what it ranks as equal is the same; the sorted run of the entries of sorted runs
/// is that of all their entries. The slices by ascending points are the entries in order, each once; those of any lists of
/// entries, each slice sorted, are all entries sorted; and the points of cuts ascend.
pub fn run_laws()
    ensures either_way { (ds : List Dir) (e f : Entry)
        → run_cmp ds e f ≡ ordering_reverse (run_cmp ds f e) }
    ensures transitive { (ds : List Dir) (e f g : Entry) → run_cmp ds e f ≡ Less
        → run_cmp ds f g ≡ Less → run_cmp ds e g ≡ Less }
    ensures equal_is_same { (ds : List Dir) (e f : Entry) → (run_cmp ds e f ≡ Equal) ↔ (e ≡ f) }
    ensures merged { (ds : List Dir) (lists : List (List Entry)) → run_of ds
        (entries_of_all (map (run_of ds) lists)) ≡ run_of ds (flat_map (λ es. es) lists) }
    ensures slices { (ds : List Dir) (points : List Point) (es : List Entry)
        → Ascends (point_cmp ds) points → Ascends (run_cmp ds) es → flat_map
        (λ part. slice_of ds points part es) (range_with_len 0 (length points + 1)) ≡ es }
    ensures by_points { OrderGoesByPoints }
    ensures rising { (ds : List Dir) (n : ℕ) (es : List Entry) → 0 < n → Ascends (run_cmp ds) es
        → Ascends (point_cmp ds) (cut_points n es) }
{}

// Entries and runs may be shared and handed to other threads.
fn crosses<T: Send + Sync>() {}

/// Shows that entries and runs are `Send` and `Sync`.
pub fn runs_cross_threads() {
    crosses::<Entries>();
    crosses::<Run>();
    crosses::<Runs>();
}
