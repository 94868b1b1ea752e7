ghost use Rattle.std.specs.Prelude.{◌≡◌, IfOk};

use pig_value::Kinds;
use std::alloc::{AllocError, Global};
use std::marker::Model;
use std::sync::Arc;

// The kinds of a relation's rows, which the nodes that give rows of the same kinds share.
//
// Contracts see them as the list of the kinds.
#[derive(Debug, Drop)]
pub struct SharedKinds {
    kinds: Arc<Kinds, Global>,
}

impl Model for SharedKinds {
    ghost use Rattle.std.specs.Prelude.{List};
    ghost use Rattle.std.specs.Coded.{coded_list};
    ghost use Rattle.std.specs.Arc.{arc_value};
    ghost use Rattle.pig_value.specs.contracts.values.Kind as kind;
    ghost use Rattle.pig_value.specs.declared.values.Kind.{Kind};

    ghost Value = { List Kind };

    ghost coded = { coded_list kind.the_row.coded };

    ghost view = { λ s. arc_value s.kinds };
}

impl SharedKinds {
    // Kinds that nothing shares yet.
    pub fn new(alloc: Global, kinds: Kinds) -> Result<SharedKinds, AllocError>
        ensures { IfOk result (λ s. s ≡ kinds) }
    {
        let kinds = Arc::new(alloc, kinds)?;
        Ok(SharedKinds { kinds })
    }

    // The kinds, in order.
    pub fn get(&self) -> &Kinds
        ensures { result.now ≡ self.now }
    {
        &self.kinds
    }

    // The same kinds, for a further node.
    pub fn share(&self) -> Result<SharedKinds, AllocError>
        ensures { IfOk result (λ s. s ≡ self.now) }
    {
        let kinds = Arc::try_clone(&self.kinds)?;
        Ok(SharedKinds { kinds })
    }
}
