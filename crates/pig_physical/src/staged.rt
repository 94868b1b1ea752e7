//! A plan with the waves of tasks that it is cut into.
ghost use Rattle.std.specs.Prelude.{◌≡◌, ◌<◌, ◌^◌, [], length, slice_get, Some};
ghost use Rattle.std.specs.Option.{option_map, option_map_or};
ghost use Rattle.pig_typed.specs.Typed.{block_typed};
ghost use Rattle.pig_plan.specs.Plans.{plan_of};
ghost use Rattle.pig_plan.specs.Steps.{AreFoldMarks};
ghost use Rattle.pig_physical.specs.Combining.{folds};
ghost use Rattle.pig_physical.specs.Foldings.{AreFolders};
ghost use Rattle.pig_physical.specs.Seen.{AreWaves, IsOwn, IsWave, cut_of, entering_of, lengths_in, staged, task_of};
ghost use Rattle.pig_physical.specs.Stages.{heads, tasks_in, ways_in};

use crate::folding::{Folders, block_folded};
use crate::{MapTask, Task, Tasks, WaveHead, WaveKind, Way, Ways};
use pig_plan::Plan;
use pig_typed::Block;
use pig_value::{Lengths, Seq, Text};
use std::marker::Model;

/// How long the pieces of the input of a path are.
#[derive(Drop)]
pub struct Size {
    pub path: Text,
    pub lengths: Lengths,
}

/// The sizes of inputs.
pub type Sizes = Seq<Size>;

/// The lengths of the pieces of the input of a path; none of an input that there isn't.
pub fn lengths_in<'p>(sizes: &'p [Size], path: &str) -> Option<&'p Lengths>
    ensures { option_map_or (λ lengths. lengths.now) result [] ≡ lengths_in sizes.now path.now }
{
    let mut left = sizes;
    while let [size, rest @ ..] = left {
        if size.path.as_bytes() == path.as_bytes() {
            return Some(&size.lengths);
        }
        left = rest;
    }
    None
}

/// A wave: its head, the ways on which its rows come, each once, and its tasks, which name the ways by their places.
#[derive(Drop)]
pub struct Wave {
    pub head: WaveHead,
    pub ways: Ways,
    pub tasks: Tasks,
}

/// Waves, in order.
pub type Waves = Seq<Wave>;

/// A plan and the sizes of its inputs, which are lent, with the waves of tasks that it is cut into.
///
/// Contracts see the plan's nodes, the sizes, the number of reducers and the size of a split (`specs/Seen`).
#[derive(Drop)]
pub struct Stages<'p> {
    plan: &'p Plan,
    sizes: &'p Sizes,
    reducers: u32,
    split: u64,
    waves: Waves,
    folders: Folders,
}

impl<'p> Model for Stages<'p> {
    ghost use Rattle.std.specs.Prelude.{◌<◌, ◌^◌, ℕ, List, length};
    ghost use Rattle.std.specs.Coded.{codes};
    ghost use Rattle.pig_value.specs.contracts.values.Kind as kind;
    ghost use Rattle.pig_typed.specs.contracts.exprs.TExpr as expr;
    ghost use Rattle.pig_plan.specs.declared.nodes.Node.{Node};
    ghost use Rattle.pig_physical.specs.declared.staged.Size.{Size};
    ghost use Rattle.pig_plan.specs.Plans.{plan_of};
    ghost use Rattle.pig_physical.specs.Foldings.{AreFolders};
    ghost use Rattle.pig_physical.specs.Seen.{AreWaves, cut_of, staged};

    ghost Value = { List Node × (List Size × (ℕ × ℕ)) };

    ghost coded = { Prim.hlevel (codes, kind.the_row.coded, expr.the_row.coded) };

    ghost view = { λ s. cut_of s.plan.now s.sizes.now s.reducers s.split };

    ghost invariant = { λ s. (length s.waves < 2 ^ 32)
        × AreWaves (staged (cut_of s.plan.now s.sizes.now s.reducers s.split)) s.waves
        × AreFolders (plan_of s.plan.now) s.folders };
}

impl<'p> Stages<'p> {
    /// The stages of a plan with these waves, of which these nodes fold.
    pub fn of(
        plan: &'p Plan,
        sizes: &'p Sizes,
        reducers: u32,
        split: u64,
        waves: Waves,
        folders: Folders,
    ) -> Stages<'p>
        requires few { length waves < 2 ^ 32 }
        requires waves { AreWaves (staged (cut_of plan.now sizes.now reducers split)) waves }
        requires folders { AreFolders (plan_of plan.now) folders }
        ensures { result ≡ cut_of plan.now sizes.now reducers split }
    {
        Stages {
            plan,
            sizes,
            reducers,
            split,
            waves,
            folders,
        }
    }

    /// The plan that is cut.
    pub fn plan(&self) -> &Plan
        ensures { plan_of result.now ≡ (staged self.now).plan }
    {
        self.plan
    }

    /// The number of reducers.
    pub fn reducers(&self) -> u32
        ensures { result ≡ (staged self.now).sizing.reducers }
    {
        self.reducers
    }

    /// The lengths of the pieces of the input of a path; none of an input that there isn't.
    pub fn lengths(&self, path: &str) -> Option<&Lengths>
        ensures { option_map_or (λ lengths. lengths.now) result []
            ≡ (staged self.now).sizing.lengths path.now }
    {
        lengths_in(self.sizes.as_slice(), path)
    }

    /// Of each node, by its number, whether it folds.
    pub fn folded(&self) -> &[bool]
        ensures { AreFoldMarks (folds (staged self.now).plan) result.now }
    {
        self.folders.marks.as_slice()
    }

    /// The block that a node folds into, where it folds.
    pub fn fold_of(&self, node: u32) -> Option<&Block>
        ensures { option_map (λ block. block_typed block.now) result
            ≡ folds (staged self.now).plan node }
    {
        block_folded(self.plan.nodes().as_slice(), &self.folders, node as usize)
    }

    /// The number of waves.
    pub fn waves(&self) -> u32
        ensures { result ≡ length (heads (staged self.now).plan) }
    {
        self.waves.len() as u32
    }

    /// What the tasks of a wave do.
    pub fn kind(&self, wave: u32) -> WaveKind
        requires { wave < length (heads (staged self.now).plan) }
        ensures { option_map (λ head. head.kind) (slice_get (heads (staged self.now).plan) wave)
            ≡ Some result }
    {
        self.wave(wave).head.kind
    }

    /// The number of a wave's boundary node, or of the first live STORE.
    pub fn node(&self, wave: u32) -> u32
        requires { wave < length (heads (staged self.now).plan) }
        ensures { option_map (λ head. head.node) (slice_get (heads (staged self.now).plan) wave)
            ≡ Some result }
    {
        self.wave(wave).head.node
    }

    /// The number of tasks of a wave.
    pub fn tasks(&self, wave: u32) -> u32
        requires { wave < length (heads (staged self.now).plan) }
        ensures { result ≡ length (tasks_in (staged self.now) wave) }
    {
        self.wave(wave).tasks.len() as u32
    }

    /// A task of a wave, by its number. One that reads a way names this wave.
    pub fn task_at(&self, wave: u32, at: u32) -> &Task
        requires wave { wave < length (heads (staged self.now).plan) }
        requires at { at < length (tasks_in (staged self.now) wave) }
        ensures task { slice_get (tasks_in (staged self.now) wave) at
            ≡ Some (task_of (ways_in (staged self.now).plan wave) result.now) }
        ensures own { IsOwn wave (length (ways_in (staged self.now).plan wave)) result.now }
    {
        &self.wave(wave).tasks.as_slice()[at as usize]
    }

    /// The way on which the rows of a task come.
    pub fn way_of(&self, task: &MapTask) -> &Way
        requires wave { task.now.wave < length (heads (staged self.now).plan) }
        requires way { task.now.way < length (ways_in (staged self.now).plan task.now.wave) }
        ensures { slice_get (ways_in (staged self.now).plan task.now.wave) task.now.way
            ≡ Some (entering_of result.now) }
    {
        &self.wave(task.wave).ways.as_slice()[task.way as usize]
    }

    fn wave(&self, wave: u32) -> &Wave
        requires { wave < length (heads (staged self.now).plan) }
        ensures is { IsWave (staged self.now) wave result.now }
        ensures tasks { length result.now.tasks ≡ length (tasks_in (staged self.now) wave) }
        ensures ways { length result.now.ways ≡ length (ways_in (staged self.now).plan wave) }
        ensures few { length result.now.tasks < 2 ^ 32 }
    {
        &self.waves.as_slice()[wave as usize]
    }
}
