ghost use Rattle.std.specs.Prelude.{◌≡◌, IfOk};

use pig_schema::Schema;
use std::alloc::{AllocError, Global};
use std::marker::Model;
use std::rc::{Rc, Weak};

/// The columns of a relation's rows, which relations with the same columns share. They go once all of these have let them
/// go.
///
/// Contracts see them as the list of their fields, also where they are gone.
#[derive(Drop)]
pub struct SharedSchema {
    /// None where they were let go.
    kept: Option<Rc<Schema, Global>>,
    /// Which columns they are, or were.
    told: Weak<Schema, Global>,
}

impl Model for SharedSchema {
    ghost use Rattle.std.specs.Prelude.{◌≡◌, List, [], IfSome};
    ghost use Rattle.std.specs.Coded.{coded_list};
    ghost use Rattle.std.specs.Option.{unwrap_or};
    ghost use Rattle.std.specs.Rc.{weak_target};
    ghost use Rattle.pig_schema.specs.contracts.schema.Field as field;
    ghost use Rattle.pig_schema.specs.declared.schema.Field.{Field};

    ghost Value = { List Field };

    ghost coded = { coded_list field.the_row.coded };

    ghost view = { λ s. unwrap_or (weak_target s.told) [] };

    ghost invariant = { λ s. IfSome s.kept (λ rc. rc.value ≡ unwrap_or (weak_target s.told) []) };
}

impl SharedSchema {
    /// Columns that nothing shares yet.
    pub fn new(alloc: Global, columns: Schema) -> Result<SharedSchema, AllocError>
        ensures { IfOk result (λ s. s ≡ columns) }
    {
        let kept = Rc::new(alloc, columns)?;
        let told = Rc::downgrade(&kept)?;
        let kept = Some(kept);
        Ok(SharedSchema { kept, told })
    }

    /// The columns. Those that were let go are want of memory.
    pub fn get(&self) -> Result<&Schema, AllocError>
        ensures { IfOk result (λ columns. columns.now ≡ self.now) }
    {
        match &self.kept {
            Some(kept) => Ok(kept.as_ref()),
            None => Err(AllocError),
        }
    }

    /// The same columns, for a further relation.
    pub fn share(&self) -> Result<SharedSchema, AllocError>
        ensures { IfOk result (λ s. s ≡ self.now) }
    {
        match &self.kept {
            Some(kept) => {
                let kept = Some(kept.clone()?);
                let told = self.told.clone()?;
                Ok(SharedSchema { kept, told })
            }
            None => Err(AllocError),
        }
    }

    /// What tells the same columns and doesn't keep them.
    pub fn let_go(&self) -> Result<SharedSchema, AllocError>
        ensures { IfOk result (λ s. s ≡ self.now) }
    {
        let kept = None;
        let told = self.told.clone()?;
        Ok(SharedSchema { kept, told })
    }
}
