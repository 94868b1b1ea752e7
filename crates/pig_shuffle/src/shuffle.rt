ghost use Rattle.std.specs.Prelude.{◌≡◌, [], ◌∷◌, List, IfOk, OnOk};
ghost use Rattle.std.specs.Option.{option_map};
ghost use Rattle.pig_value.specs.Trees.{Tree, row_tree};
ghost use Rattle.pig_value.specs.Valid.{IsRow, IsValue};
ghost use Rattle.pig_typed.specs.Typed.{block_typed};
ghost use Rattle.pig_plan.specs.Laws.{OpLiteralsAre};
ghost use Rattle.pig_plan.specs.Plans.{op_of};
ghost use Rattle.pig_shuffle.specs.Held.{HasShuffled, TookMore};
ghost use Rattle.pig_shuffle.specs.Taking.{took_nothing, took_onwards};
ghost use Rattle.pig_shuffle.specs.Shuffling.{Shuffling, runs_by, shuffling};

use crate::keying::{Keying, add_row, keying_of};
use crate::making::parts_for;
use crate::parts::Parts;
use pig_plan::NodeOp;
use pig_runs::Runs;
use pig_stream::Sink;
use pig_typed::Block;
use pig_value::Tuple;
use std::alloc::{AllocError, Global};
use std::marker::Model;

/// The rows of one input of a node, brought under their keys.
///
/// Contracts say what shuffle it is and which rows it took (`HasShuffled`).
#[derive(Drop)]
pub struct Shuffle<'p> {
    // What contracts see of the keys.
    op: &'p NodeOp,
    input: u32,
    keying: Keying<'p>,
    parts: Parts,
}

impl<'p> Model for Shuffle<'p> {
    ghost use Rattle.std.specs.Prelude.{ℕ, List};
    ghost use Rattle.std.specs.Coded.{codes};
    ghost use Rattle.pig_value.specs.TreeCode.{coded_tree};
    ghost use Rattle.pig_value.specs.contracts.values.Kind as kind;
    ghost use Rattle.pig_value.specs.contracts.values.Value as value;
    ghost use Rattle.pig_typed.specs.contracts.exprs.TExpr as expr;
    ghost use Rattle.pig_algebra.specs.contracts.cuts.Cut as cut;
    ghost use Rattle.pig_plan.specs.Plans.{op_of};
    ghost use Rattle.pig_runs.specs.Entries.{coded_in_directions};
    ghost use Rattle.pig_shuffle.specs.Held.{IsReady, Shuffled, held_in};

    ghost Value = { Shuffled };

    ghost coded = { Prim.hlevel (codes, coded_tree, coded_in_directions, kind.the_row.coded, expr.the_row.coded, value.the_row.coded, cut.the_row.coded) };

    ghost view = { λ s. (s.op.now, (s.input, held_in s.parts)) };

    ghost invariant = { λ s. IsReady (op_of s.op.now) s.input s.keying (held_in s.parts) };
}

impl<'p> Shuffle<'p> {
    /// No rows yet, of an input of a node, for so many partitions. `fold` is the block that a GROUP
    /// folds into, where it does; of any other operator nothing is asked of it.
    pub fn new(
        alloc: Global,
        op: &'p NodeOp,
        fold: Option<&Block>,
        input: u32,
        parts: u32,
    ) -> Result<Shuffle<'p>, AllocError>
        requires literals { OpLiteralsAre IsValue (op_of op.now) }
        ensures { IfOk result (HasShuffled (shuffling parts
            (option_map (λ block. block_typed block.now) fold.entry) (op_of op.now) input) []) }
    {
        let keying = keying_of(alloc, op, input)?;
        let parts = parts_for(alloc, op, fold, parts)?;
        Ok(Shuffle {
            op,
            input,
            keying,
            parts,
        })
    }

    fn add(&mut self, alloc: Global, row: &Tuple) -> Result<(), AllocError>
        requires { IsRow (row_tree row.now) }
        ensures { OnOk result (TookMore self.old (row_tree row.now ∷ []) self.new) }
    {
        add_row(alloc, &self.keying, self.input, row, &mut self.parts)
    }

    /// The sorted runs of the rows: one for each partition, or one in all where the node sorts. A
    /// refusal gives up the shuffle.
    pub fn finish(self, alloc: Global) -> Result<Runs, AllocError>
        ensures { (w : Shuffling) (rows : List (List Tree)) → HasShuffled w rows self.entry
            → IfOk result (λ runs. runs ≡ runs_by w rows) }
    {
        let Shuffle {
            op: _op,
            input: _input,
            keying: _keying,
            parts,
        } = self;
        parts.finish(alloc)
    }
}

impl<'p> Sink for Shuffle<'p> {
    ghost after = { λ a rows b. TookMore a rows b };

    ghost nothing = { λ a. took_nothing a };

    ghost onwards = { λ a b c xs ys h k. took_onwards a b c xs ys h k };

    fn take(&mut self, alloc: Global, rows: &[Tuple]) -> Result<(), AllocError> {
        for row in rows {
            self.add(alloc, row)?;
        }
        Ok(())
    }

    fn has_enough(&self) -> bool {
        false
    }
}
