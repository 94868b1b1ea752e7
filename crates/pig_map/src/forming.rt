//! What takes a task's rows, and brings them into the form in which the task hands them on.
ghost use Rattle.std.specs.Prelude.{◌≡◌, ◌++◌, [], List, map, take, IfOk};
ghost use Rattle.pig_value.specs.Texts.{rows_text};
ghost use Rattle.pig_value.specs.Trees.{Tree};
ghost use Rattle.pig_typed.specs.Typed.{typed};
ghost use Rattle.pig_probe.specs.Probing.{probed_by};
ghost use Rattle.pig_shuffle.specs.Held.{HasShuffled};
ghost use Rattle.pig_shuffle.specs.Shuffling.{Shuffling, runs_by};
ghost use Rattle.pig_physical.specs.Handed.{form_of};
ghost use Rattle.pig_physical.specs.Outs.{Form, o_bytes, o_rows, o_runs};

use crate::first::FirstPacked;
use pig_physical::{OutForm, OutRuns};
use pig_probe::ProbedRows;
use pig_shuffle::Shuffle;
use pig_stream::{PackedRows, Sink, StoredText};
use pig_value::Blob;
use std::alloc::{AllocError, Global};

// A sink whose rows are brought into a form.
pub trait Former: Sink {
    // What further rows become.
    ghost becomes: { Self → List (List Tree) → Form → Type 0 };

    // The form of the rows that it took.
    fn into_form(self, alloc: Global) -> Result<OutForm, AllocError>
        ensures { (begun : Self) (rows : List (List Tree)) → Self.after begun rows self
            → IfOk result (λ form. becomes begun rows (form_of form)) };
}

impl Former for StoredText {
    ghost becomes = { λ a rows form. form ≡ o_bytes (a.bytes.items ++ rows_text a.delim rows) };

    fn into_form(self, _alloc: Global) -> Result<OutForm, AllocError> {
        let StoredText { bytes, .. } = self;
        Ok(OutForm::Parts(Blob::from_vec(bytes)))
    }
}

impl Former for FirstPacked {
    ghost becomes = { λ a rows form. form ≡ o_rows (a.rows ++ take a.left rows) };

    fn into_form(self, _alloc: Global) -> Result<OutForm, AllocError> {
        Ok(OutForm::Rows(self.finish()))
    }
}

impl Former for PackedRows {
    ghost becomes = { λ a rows form. form ≡ o_rows (a ++ rows) };

    fn into_form(self, _alloc: Global) -> Result<OutForm, AllocError> {
        Ok(OutForm::Rows(self.finish()))
    }
}

impl<'s> Former for ProbedRows<'s> {
    ghost becomes = { λ a rows form. form
        ≡ o_rows (a.rows ++ probed_by a.sides.now (map typed a.keys.now) rows) };

    fn into_form(self, _alloc: Global) -> Result<OutForm, AllocError> {
        Ok(OutForm::Rows(self.finish()))
    }
}

impl<'p> Former for Shuffle<'p> {
    ghost becomes = { λ a rows form. (w : Shuffling) → HasShuffled w [] a
        → form ≡ o_runs (runs_by w rows) };

    fn into_form(self, alloc: Global) -> Result<OutForm, AllocError> {
        let runs = self.finish(alloc)?;
        Ok(OutForm::Runs(OutRuns::Several(runs)))
    }
}
