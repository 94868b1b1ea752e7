ghost use Rattle.std.specs.Prelude.{◌≡◌, List, ◌<◌, ◌≤◌, ◌⊎◌, ◌^◌, ◌-◌, ◌∷◌, [], ◌++◌, min, map, true, IfOk, IfErr, OnOk, MatchResult};
ghost use Rattle.std.specs.Option.{ForSome};
ghost use Rattle.std.specs.List.{AllByRecursion, sum_by};
ghost use Rattle.pig_outside.specs.declared.failing.Method.TheVariants as method;
ghost use Rattle.pig_plan.specs.Plans.{PlanNode, plan_of};
ghost use Rattle.pig_reach.specs.Reach.{live_paths, stores_of};
ghost use Rattle.pig_words.specs.CommandWords.{IsCommand};
ghost use Rattle.pig_words.specs.declared.words.Command.{Command};
ghost use Rattle.pig_run.specs.Due.{CommandDue, HasWords, InputsDue, OutputsDue, ScriptDue, SizeDue, TasksDue, call, given_by};
ghost use Rattle.pig_run.specs.Limits.{most_input};
ghost use Rattle.pig_run.specs.Looking.{HasSize, IsAbsentIn, IsPrepared, IsReady, LooksForInput, LooksForOutput, LooksForScript, LooksForSize, line_given, total_of};
ghost use Rattle.pig_run.specs.Orderly.{AsksAll, AsksSome, LooksUp};
ghost use Rattle.pig_run.specs.Reading.{IsOfScript};
ghost use Rattle.pig_run.specs.Steps.{OnlyLooks, Step, depot_fault_of};
ghost use Rattle.pig_run.specs.Told.{Asked};
ghost use Rattle.pig_run.specs.declared.outcome.RunFault.TheVariants as fault;
ghost use Rattle.pig_run.specs.declared.outcome.TooLarge.TheVariants as large;

use crate::line::CommandLine;
use crate::reading::{Checked, MOST_SCRIPT, read_script};
use crate::{RunFault, TooLarge};
use pig_check::a_script_has_one_plan;
use pig_outside::{Depot, OutsideError};
use pig_physical::{Size, Sizes};
use pig_plan::Plan;
use pig_reach::{Stores, live_paths, stores};
use pig_rewrites::rewrite;
use pig_value::{Lengths, Text, WordFault};
use pig_words::{Command, read_words};
use std::alloc::Global;

// The limit on the inputs that a run reads, in bytes.
const MOST_INPUT: u64 = 67_108_864;

// The fault that an error of the depot is, in the commit of that STORE or before.
fn depot_fault(error: OutsideError, store: Option<u32>) -> RunFault
    ensures { result ≡ depot_fault_of error store }
{
    match error {
        OutsideError::Failed => RunFault::DepotFault { store },
        OutsideError::OutOfMemory => RunFault::OutOfMemory,
    }
}

// The command that the words are.
pub fn read_command(alloc: Global, line: &CommandLine) -> Result<Command, RunFault>
    ensures found { IfOk result (λ command. IsCommand line.now.hosts line.now.words.now command) }
    ensures usage { IfErr result (λ f. ((f ≡ fault.Usage) × (¬ HasWords (line_given line.now)))
        ⊎ (f ≡ fault.OutOfMemory)) }
{
    match read_words(alloc, line.words, line.hosts) {
        Ok(command) => Ok(command),
        Err(WordFault::Usage) => Err(RunFault::Usage),
        Err(WordFault::OutOfMemory) => Err(RunFault::OutOfMemory),
    }
}

// The bytes of the script at a path, or more than the limit of them where it is longer.
fn script_bytes<D: Depot>(alloc: Global, depot: &mut D, path: &str) -> Result<Vec<u8>, RunFault>
    ensures told { ForSome (D.shelf depot.old) (λ s. LooksForScript path.now s
        (λ bytes. bytes.items) result) }
    ensures looked { OnlyLooks D.shelf D.calls D.faults D.store_faults depot.old depot.new result
        (Asked (call method.Script path.now ∷ [])) }
{
    let mut script = Vec::new(alloc);
    match depot.script(path, MOST_SCRIPT + 1, &mut script) {
        Ok(true) => Ok(script),
        Ok(false) => Err(RunFault::NoScript),
        Err(error) => Err(depot_fault(error, None)),
    }
}

// The plan of the script that a command names.
pub fn load_script<D: Depot>(
    alloc: Global,
    depot: &mut D,
    command: &Command,
) -> Result<Checked, RunFault>
    ensures told { ForSome (D.shelf depot.old) (λ s. Step
        (ScriptDue (given_by command.now) command.now.operand s (CommandDue command.now s))
        (λ c. CommandDue command.now s c.statements (plan_of c.plan))
        (D.calls depot.old) (D.calls depot.new) result) }
    ensures of_script { IfOk result (λ c. IsOfScript (plan_of c.plan)) }
    ensures looked { OnlyLooks D.shelf D.calls D.faults D.store_faults depot.old depot.new result
        (Asked (call method.Script command.now.operand ∷ [])) }
{
    a_script_has_one_plan();
    let script = script_bytes(alloc, depot, command.operand.as_str())?;
    read_script(alloc, script.as_slice(), &command.params)
}

// The lengths of the pieces of the input at a path.
fn find_input<D: Depot>(alloc: Global, depot: &mut D, path: &Text) -> Result<Lengths, RunFault>
    ensures told { ForSome (D.shelf depot.old) (λ s. LooksForInput path.now s result) }
    ensures looked { OnlyLooks D.shelf D.calls D.faults D.store_faults depot.old depot.new result
        (Asked (call method.Pieces path.now ∷ [])) }
{
    match depot.pieces(path.as_str()) {
        Ok(Some(lengths)) => Ok(lengths),
        Ok(None) => Err(RunFault::NoInput {
            path: path.copy(alloc)?,
        }),
        Err(error) => Err(depot_fault(error, None)),
    }
}

// Adds the size of the input at a path.
fn add_size<D: Depot>(
    alloc: Global,
    depot: &mut D,
    path: &Text,
    sizes: &mut Sizes,
) -> Result<(), RunFault>
    ensures told { ForSome (D.shelf depot.old) (λ s. LooksForSize path.now s sizes.old sizes.new
        result) }
    ensures paths { OnOk result (map (λ size. size.path) sizes.new
        ≡ map (λ size. size.path) sizes.old ++ path.now ∷ []) }
    ensures looked { OnlyLooks D.shelf D.calls D.faults D.store_faults depot.old depot.new result
        (Asked (call method.Pieces path.now ∷ [])) }
{
    let lengths = find_input(alloc, depot, path)?;
    let path = path.copy(alloc)?;
    sizes.push(Size { path, lengths })?;
    Ok(())
}

// The inputs of a plan, each path once, in the order of the statements.
fn find_inputs<D: Depot>(alloc: Global, depot: &mut D, plan: &Plan) -> Result<Sizes, RunFault>
    ensures told { ForSome (D.shelf depot.old) (λ s. (command : Command)
        → Step (InputsDue command s (plan_of plan.now))
        (λ sizes. SizeDue command s (plan_of plan.now))
        (D.calls depot.old) (D.calls depot.new) result) }
    ensures sizes { IfOk result (λ sizes. map (λ size. size.path) sizes
        ≡ live_paths (plan_of plan.now)) }
    ensures lengths { ForSome (D.shelf depot.old)
        (λ s. IfOk result (AllByRecursion (HasSize s))) }
    ensures looked { OnlyLooks D.shelf D.calls D.faults D.store_faults depot.old depot.new result
        (AsksSome method.Pieces) }
{
    let paths = live_paths(alloc, plan)?;
    let mut sizes = Sizes::new(alloc);
    let paths = paths.as_slice();
    for place in 0..paths.len() {
        add_size(alloc, depot, &paths[place], &mut sizes)?;
    }
    Ok(sizes)
}

// The sum of lengths, as far as it can be counted.
fn length_sum(lengths: &Lengths) -> u64
    ensures { result ≡ min (sum_by (λ n. n) lengths.now) (2 ^ 64 - 1) }
{
    let mut sum: u64 = 0;
    let mut left = lengths.as_slice();
    while let [length, rest @ ..] = left {
        sum = sum.saturating_add(*length);
        left = rest;
    }
    sum
}

// The sum of the lengths of inputs, as far as it can be counted.
fn size_sum(sizes: &Sizes) -> u64
    ensures { result ≡ min (total_of sizes.now) (2 ^ 64 - 1) }
{
    let mut sum: u64 = 0;
    let mut left = sizes.as_slice();
    while let [size, rest @ ..] = left {
        sum = sum.saturating_add(length_sum(&size.lengths));
        left = rest;
    }
    sum
}

// Refuses inputs that are too large in all.
fn check_size(sizes: &Sizes) -> Result<(), RunFault>
    ensures { MatchResult result (λ _. total_of sizes.now ≤ most_input)
        (λ f. (f ≡ fault.TooLarge large.Input) × (most_input < total_of sizes.now)) }
{
    if size_sum(sizes) > MOST_INPUT {
        return Err(RunFault::TooLarge {
            which: TooLarge::Input,
        });
    }
    Ok(())
}

// Refuses an output that is there.
fn check_output<D: Depot>(alloc: Global, depot: &mut D, dir: &Text) -> Result<(), RunFault>
    ensures told { ForSome (D.shelf depot.old) (λ s. LooksForOutput dir.now s result) }
    ensures looked { OnlyLooks D.shelf D.calls D.faults D.store_faults depot.old depot.new result
        (Asked (call method.Exists dir.now ∷ [])) }
{
    match depot.exists(dir.as_str()) {
        Ok(false) => Ok(()),
        Ok(true) => Err(RunFault::OutputExists {
            dir: dir.copy(alloc)?,
        }),
        Err(error) => Err(depot_fault(error, None)),
    }
}

// Refuses the first output that is there.
fn check_outputs<D: Depot>(alloc: Global, depot: &mut D, stores: &Stores) -> Result<(), RunFault>
    ensures told { ForSome (D.shelf depot.old) (λ s. (command : Command) (plan : List PlanNode)
        → stores.now ≡ stores_of plan → Step (OutputsDue command s plan)
        (λ _. TasksDue command s plan) (D.calls depot.old) (D.calls depot.new) result) }
    ensures absent { ForSome (D.shelf depot.old)
        (λ s. IfOk result (λ _. AllByRecursion (IsAbsentIn s) stores.now)) }
    ensures looked { OnlyLooks D.shelf D.calls D.faults D.store_faults depot.old depot.new result
        (AsksAll method.Exists (map (λ store. store.dir) stores.now) result) }
{
    let stores = stores.as_slice();
    for place in 0..stores.len() {
        check_output(alloc, depot, &stores[place].dir)?;
    }
    Ok(())
}

// A plan that may be cut into tasks: the checked plan, and that which it was rewritten to. Its inputs are there, and the
// directories of its STOREs are not.
#[derive(Drop)]
pub struct Prepared {
    pub checked: Plan,
    pub plan: Plan,
    pub sizes: Sizes,
    pub stores: Stores,
}

// A checked plan as what it is rewritten to.
fn rewritten(alloc: Global, checked: Plan, sizes: Sizes) -> Result<Prepared, RunFault>
    requires of_script { IsOfScript (plan_of checked) }
    requires paths { map (λ size. size.path) sizes ≡ live_paths (plan_of checked) }
    ensures prepared { IfOk result IsPrepared }
    ensures checked { IfOk result (λ p. plan_of p.checked ≡ plan_of checked) }
    ensures sizes { IfOk result (λ p. p.sizes ≡ sizes) }
    ensures dirs { IfOk result (λ p. map (λ store. store.dir) p.stores
        ≡ map (λ store. store.dir) (stores_of (plan_of checked))) }
    ensures fault { IfErr result (λ f. f ≡ fault.OutOfMemory) }
{
    let plan = rewrite(alloc, &checked)?;
    let stores = stores(alloc, &plan)?;
    Ok(Prepared {
        checked,
        plan,
        sizes,
        stores,
    })
}

// What is to be cut of a plan, where nothing stands in its way.
pub fn prepare<D: Depot>(alloc: Global, depot: &mut D, plan: Plan) -> Result<Prepared, RunFault>
    requires of_script { IsOfScript (plan_of plan) }
    ensures told { ForSome (D.shelf depot.old) (λ s. (command : Command)
        → Step (InputsDue command s (plan_of plan)) (λ p. TasksDue command s (plan_of plan))
        (D.calls depot.old) (D.calls depot.new) result) }
    ensures ready { ForSome (D.shelf depot.old) (λ s. IfOk result (IsReady s)) }
    ensures prepared { IfOk result IsPrepared }
    ensures checked { IfOk result (λ p. plan_of p.checked ≡ plan_of plan) }
    ensures looked { OnlyLooks D.shelf D.calls D.faults D.store_faults depot.old depot.new result
        (LooksUp result) }
{
    let sizes = find_inputs(alloc, depot, &plan)?;
    check_size(&sizes)?;
    let stores = stores(alloc, &plan)?;
    check_outputs(alloc, depot, &stores)?;
    rewritten(alloc, plan, sizes)
}
