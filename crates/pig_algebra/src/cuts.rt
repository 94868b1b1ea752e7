use pig_typed::TExpr;
use pig_value::{Function, Positions, Seq};

/// Where the items of a combinable block come from, in their order.
pub type Cuts = Seq<Cut>;

/// Where an item of a combinable block comes from, or the row of a DISTINCT.
pub enum Cut {
    /// The key or a projection of it, as an expression that sees the key as its field 0.
    Key(TExpr),
    /// An algebraic function of the grouped rows, or of these columns of them.
    Part {
        function: Function,
        columns: Option<Positions>,
    },
    /// The row itself.
    Row,
}

// A drop that is written is one call wherever a cut ends.
impl Drop for Cut {
    fn drop(self) {
        match self {
            Cut::Key(e) => drop(e),
            Cut::Part {
                function: _,
                columns,
            } => drop(columns),
            Cut::Row => {}
        }
    }
}
