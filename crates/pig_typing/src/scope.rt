use crate::locals::Locals;
use pig_schema::Schema;

/// What an expression may refer to: the columns of a row, and the nested aliases before it.
#[derive(Clone, Copy, Drop)]
pub struct Scope<'a> {
    pub columns: &'a Schema,
    pub locals: &'a Locals,
}
