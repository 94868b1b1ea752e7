ghost use Rattle.std.specs.Prelude.{◌≡◌, ◌+◌, ◌++◌, [], ℕ, Bool, List};
ghost use Rattle.pig_value.specs.Trees.{Tree};
ghost use Rattle.pig_plan.specs.Asserts.{unmet_on};
ghost use Rattle.pig_plan.specs.Plans.{Plan};
ghost use Rattle.pig_plan.specs.Steps.{AreFoldMarks, Folding, through};
ghost use Rattle.pig_stream.specs.declared.steps.Steps.{Steps};
ghost use Rattle.pig_stream.specs.Driving.{HasTaken, IsAll};
ghost use Rattle.pig_stream.specs.Stepping.{HaveNoted, marked_folding};
ghost use Rattle.pig_stream.specs.Unmet.{either_of, fails_on, marked};

use crate::sink::Sink;

/// Rows that go through nodes in batches: what they become is joined, and an ASSERT is met by all where it is met by each
/// batch. The nodes that are marked as not met are the statements that the rows don't meet.
pub fn steps_join_batches()
    ensures rows { (folding : Folding) (plan : Plan) (path : List ℕ) (xs ys : List (List Tree)) →
        through folding plan path (xs ++ ys)
        ≡ through folding plan path xs ++ through folding plan path ys }
    ensures marks { (folding : Folding) (plan : Plan) (path : List ℕ) (xs ys : List (List Tree)) →
        fails_on folding plan path (xs ++ ys)
        ≡ either_of (fails_on folding plan path xs) (fails_on folding plan path ys) }
    ensures unmet { (folding : Folding) (plan : Plan) (path : List ℕ) (rows : List (List Tree)) →
        marked plan path (fails_on folding plan path rows) ≡ unmet_on folding plan path rows }
{}

/// Marks of the nodes that fold stand for what folds: of a node that folds, only that it does is asked.
pub fn marks_stand_for_what_folds()
    ensures rows { (folding : Folding) (folded : List Bool) → AreFoldMarks folding folded
        → (plan : Plan) (path : List ℕ) (rows : List (List Tree)) →
        through folding plan path rows ≡ through (marked_folding folded) plan path rows }
    ensures unmet { (folding : Folding) (folded : List Bool) → AreFoldMarks folding folded
        → (plan : Plan) (path : List ℕ) (rows : List (List Tree)) →
        unmet_on folding plan path rows ≡ unmet_on (marked_folding folded) plan path rows }
{}

/// What was taken, joined: in turn, and where bytes are handed in between. Where no more rows come, what was taken is all
/// that came, whatever bytes are handed in later.
pub fn takings_join<K: Sink>()
    ensures turns { (a b c : List ℕ → List (List Tree)) (s t u : Steps) (x y z : K) (m n : ℕ) →
        HasTaken a b s t (λ rows. K.after x rows y) m →
        HasTaken b c t u (λ rows. K.after y rows z) n →
        HasTaken a c s u (λ rows. K.after x rows z) (m + n) }
    ensures handed { (before behind next : List ℕ → List (List Tree)) (s t : Steps)
        (x y : K) (count : ℕ) (block : List ℕ) →
        HasTaken before behind s t (λ rows. K.after x rows y) count →
        ((later : List ℕ) → next later ≡ behind (block ++ later)) →
        HasTaken (λ later. before (block ++ later)) next s t
        (λ rows. K.after x rows y) count }
    ensures whole { (before behind : List ℕ → List (List Tree)) (s t : Steps)
        (x y : K) (count : ℕ) →
        HasTaken before behind s t (λ rows. K.after x rows y) count → HaveNoted s [] →
        ((later : List ℕ) → behind later ≡ []) →
        (later : List ℕ) → IsAll (before later) s t (λ rows. K.after x rows y) count }
{}
