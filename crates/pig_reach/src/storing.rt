ghost use Rattle.std.specs.Prelude.{◌≡◌, IfOk};
ghost use Rattle.pig_plan.specs.Plans.{plan_of};
ghost use Rattle.pig_reach.specs.Reach.{stores_of};

use pig_plan::{NodeOp, Plan};
use pig_value::{Delim, Seq, Text};
use std::alloc::{AllocError, Global};

/// A STORE: its statement's number, the relation that it stores, its directory and its delimiter.
#[derive(Debug, Drop)]
pub struct Store {
    pub statement: u32,
    pub relation: u32,
    pub dir: Text,
    pub delim: Delim,
}

/// STOREs, in order.
pub type Stores = Seq<Store>;

/// The STOREs of a plan, in order.
pub fn stores(alloc: Global, plan: &Plan) -> Result<Stores, AllocError>
    ensures { IfOk result (λ stores. stores ≡ stores_of (plan_of plan.now)) }
{
    let mut stores = Stores::new(alloc);
    let mut left = plan.nodes().as_slice();
    while let [node, rest @ ..] = left {
        if let NodeOp::Store { input, path, delim } = &node.op {
            stores.push(Store {
                statement: node.statement,
                relation: *input,
                dir: path.copy(alloc)?,
                delim: *delim,
            })?;
        }
        left = rest;
    }
    Ok(stores)
}
