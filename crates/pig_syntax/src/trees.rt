use pig_value::{Boxed, ChainOp, Dir, Rel, Seq, Side, Text};

/// Statements, in the order in which they stand in a script.
pub type Stmts = Seq<Stmt>;
/// The branches of a SPLIT.
pub type Branches = Seq<Branch>;
/// Names of relations.
pub type Names = Seq<Text>;
/// Texts, as the arguments of a storage function.
pub type Texts = Seq<Text>;
/// The fields of a written schema.
pub type Fields = Seq<FieldTree>;
/// The steps of a nested block.
pub type Steps = Seq<Step>;
/// The items of a GENERATE.
pub type Items = Seq<Item>;
/// The inputs of a GROUP or COGROUP.
pub type GroupInputs = Seq<GroupInput>;
/// The inputs of a JOIN.
pub type JoinInputs = Seq<JoinInput>;
/// The keys of an ORDER that names fields.
pub type OrderFields = Seq<OrderField>;
/// Expressions, as keys and arguments.
pub type Exprs = Seq<Expr>;
/// The operators of a chain with their right operands.
pub type Links = Seq<Link>;
/// The projections and look-ups behind an expression.
pub type PostSteps = Seq<PostStep>;
/// Fields that are named or numbered.
pub type FieldRefs = Seq<FieldRef>;

/// A statement.
#[derive(Debug)]
pub enum Stmt {
    /// No token at all.
    Empty,
    Assign {
        alias: Text,
        op: Op,
    },
    Split {
        from: Text,
        branches: Branches,
        otherwise: Option<Text>,
    },
    Store {
        from: Text,
        path: Text,
        func: Option<Func>,
    },
    /// A condition that each tuple is to meet, and what is said where one does not.
    Assert {
        from: Text,
        cond: Expr,
        message: Option<Text>,
    },
    /// A statement whose first word is one that this profile leaves out.
    Unsupported,
}

/// What a relation is made by.
#[derive(Debug)]
pub enum Op {
    Load {
        path: Text,
        func: Option<Func>,
        schema: Fields,
    },
    Filter {
        from: Text,
        cond: Expr,
    },
    Foreach {
        from: Text,
        steps: Steps,
        items: Items,
    },
    GroupAll {
        from: Text,
        using: Option<Text>,
    },
    Group {
        inputs: GroupInputs,
        using: Option<Text>,
    },
    Join {
        inputs: JoinInputs,
        side: Side,
        using: Option<Text>,
    },
    Union {
        onschema: bool,
        from: Names,
    },
    Distinct {
        from: Text,
    },
    Order {
        from: Text,
        keys: OrderKeys,
    },
    Limit {
        from: Text,
        count: u64,
    },
    /// Groups by all sets of the dimensions, or by the prefixes of their list.
    Cube {
        from: Text,
        rollup: bool,
        dims: FieldRefs,
    },
    /// Each tuple behind its place in the order; dense where equal keys take one place.
    Rank {
        from: Text,
        keys: OrderKeys,
        dense: bool,
    },
}

/// A storage function with its arguments.
#[derive(Debug, Drop)]
pub struct Func {
    pub name: Text,
    pub args: Texts,
}

/// A relation that SPLIT makes, and its condition.
#[derive(Debug, Drop)]
pub struct Branch {
    pub alias: Text,
    pub cond: Expr,
}

/// A step of a nested block.
#[derive(Debug, Drop)]
pub struct Step {
    pub alias: Text,
    pub nested: Nested,
}

/// What a nested alias is made by.
#[derive(Debug)]
pub enum Nested {
    Filter { from: BagRef, cond: Expr },
    Distinct { from: BagRef },
    Order { from: BagRef, keys: OrderKeys },
    Limit { from: BagRef, count: u64 },
    Take { from: BagRef },
}

/// A bag in a nested block: a field or a nested alias, and the projection of it where there is one.
#[derive(Debug, Drop)]
pub struct BagRef {
    pub field: FieldRef,
    /// A `Project` where there is one.
    pub sel: Option<PostStep>,
}

/// An item of a GENERATE.
#[derive(Debug)]
pub enum Item {
    /// All fields of the row.
    All,
    Value {
        value: Expr,
        flatten: bool,
        names: Option<AsNames>,
    },
}

/// The names behind AS.
#[derive(Debug)]
pub enum AsNames {
    One(FieldTree),
    Several(Fields),
}

/// An input of a GROUP or COGROUP, with its keys.
#[derive(Debug, Drop)]
pub struct GroupInput {
    pub from: Text,
    pub keys: Exprs,
    /// Groups without a tuple of this input are left out.
    pub inner: bool,
}

/// An input of a JOIN, with its keys.
#[derive(Debug, Drop)]
pub struct JoinInput {
    pub from: Text,
    pub keys: Exprs,
}

/// The keys of an ORDER: all fields in one direction, or fields each in its own.
#[derive(Debug)]
pub enum OrderKeys {
    All(Dir),
    Fields(OrderFields),
}

/// A key of an ORDER.
#[derive(Debug, Drop)]
pub struct OrderField {
    pub field: FieldRef,
    pub dir: Dir,
}

/// A field of a written schema, and its type where one is written.
#[cycle(schema)]
#[derive(Debug, Drop)]
pub struct FieldTree {
    pub name: Text,
    pub kind: Option<TypeTree>,
}

/// A written type.
#[cycle(schema)]
#[derive(Debug)]
pub enum TypeTree {
    Int,
    Long,
    Chararray,
    Bytearray,
    Boolean,
    /// FLOAT, DOUBLE, BIGINTEGER, BIGDECIMAL or DATETIME.
    Float,
    Tuple(Fields),
    /// A bag of tuples with these fields.
    Bag(Fields),
    /// A map with values of this type, or of none that is written.
    Map(Option<Boxed<TypeTree>>),
}

/// An expression. Parentheses leave no form of their own.
#[cycle(tree)]
#[derive(Debug)]
pub enum Expr {
    Int(i32),
    Long(i64),
    /// A number with a point.
    Float,
    Text(Text),
    Bool(bool),
    Null,
    Field(FieldRef),
    /// Operands of one rule between its operators, taken from left to right.
    Chain {
        first: Boxed<Expr>,
        rest: Links,
    },
    Compare {
        op: Rel,
        a: Boxed<Expr>,
        b: Boxed<Expr>,
    },
    /// IS NULL, or IS NOT NULL.
    IsNull {
        a: Boxed<Expr>,
        not: bool,
    },
    Not(Boxed<Expr>),
    Minus(Boxed<Expr>),
    Cast {
        to: TypeTree,
        a: Boxed<Expr>,
    },
    Post {
        a: Boxed<Expr>,
        steps: PostSteps,
    },
    Call {
        name: Text,
        args: Exprs,
    },
    /// `cond ? yes : no`
    Choose {
        cond: Boxed<Expr>,
        yes: Boxed<Expr>,
        no: Boxed<Expr>,
    },
}

/// An operator of a chain with its right operand.
#[cycle(tree)]
#[derive(Debug, Drop)]
pub struct Link {
    pub op: ChainOp,
    pub a: Expr,
}

/// A field by its name, or by its position from 0.
#[derive(Debug)]
pub enum FieldRef {
    Name(Text),
    Position(u32),
}

/// What may stand behind an expression.
#[derive(Debug)]
pub enum PostStep {
    /// A projection; `single` where one field stands without parentheses.
    Project { fields: FieldRefs, single: bool },
    /// The value of a map at a key.
    Look(Text),
}

// How trees end. A derived drop is taken apart, variant by variant, at each place where a value ends; one that is
// written is one call there. So every function that lets a tree go is cheap to prove.

impl Drop for Stmt {
    fn drop(self) {
        match self {
            Stmt::Empty | Stmt::Unsupported => {}
            Stmt::Assign { alias, op } => drop((alias, op)),
            Stmt::Split {
                from,
                branches,
                otherwise,
            } => drop((from, branches, otherwise)),
            Stmt::Store { from, path, func } => drop((from, path, func)),
            Stmt::Assert {
                from,
                cond,
                message,
            } => drop((from, cond, message)),
        }
    }
}

impl Drop for Op {
    fn drop(self) {
        match self {
            Op::Load { path, func, schema } => drop((path, func, schema)),
            Op::Filter { from, cond } => drop((from, cond)),
            Op::Foreach { from, steps, items } => drop((from, steps, items)),
            Op::GroupAll { from, using } => drop((from, using)),
            Op::Group { inputs, using } => drop((inputs, using)),
            Op::Join {
                inputs,
                side: _,
                using,
            } => drop((inputs, using)),
            Op::Union { onschema: _, from } => drop(from),
            Op::Distinct { from } | Op::Limit { from, count: _ } => drop(from),
            Op::Order { from, keys }
            | Op::Rank {
                from,
                keys,
                dense: _,
            } => drop((from, keys)),
            Op::Cube {
                from,
                rollup: _,
                dims,
            } => drop((from, dims)),
        }
    }
}

impl Drop for Nested {
    fn drop(self) {
        match self {
            Nested::Filter { from, cond } => drop((from, cond)),
            Nested::Order { from, keys } => drop((from, keys)),
            Nested::Distinct { from } | Nested::Limit { from, count: _ } | Nested::Take { from } =>
                {
                    drop(from);
                }
        }
    }
}

impl Drop for Item {
    fn drop(self) {
        match self {
            Item::All => {}
            Item::Value {
                value,
                flatten: _,
                names,
            } => drop((value, names)),
        }
    }
}

impl Drop for AsNames {
    fn drop(self) {
        match self {
            AsNames::One(field) => drop(field),
            AsNames::Several(fields) => drop(fields),
        }
    }
}

impl Drop for OrderKeys {
    fn drop(self) {
        match self {
            OrderKeys::All(_) => {}
            OrderKeys::Fields(fields) => drop(fields),
        }
    }
}

impl Drop for TypeTree {
    #[cycle(drop_type)]
    fn drop(self) {
        match self {
            TypeTree::Int
            | TypeTree::Long
            | TypeTree::Chararray
            | TypeTree::Bytearray
            | TypeTree::Boolean
            | TypeTree::Float => {}
            TypeTree::Tuple(fields) | TypeTree::Bag(fields) => drop(fields),
            TypeTree::Map(of) => drop(of),
        }
    }
}

impl Drop for Expr {
    #[cycle(drop_expr)]
    fn drop(self) {
        match self {
            Expr::Int(_) | Expr::Long(_) | Expr::Float | Expr::Bool(_) | Expr::Null => {}
            Expr::Text(text) => drop(text),
            Expr::Field(field) => drop(field),
            Expr::Chain { first, rest } => {
                drop(first);
                drop(rest);
            }
            Expr::Compare { op: _, a, b } => {
                drop(a);
                drop(b);
            }
            Expr::IsNull { a, not: _ } | Expr::Not(a) | Expr::Minus(a) => drop(a),
            Expr::Cast { to, a } => {
                drop(to);
                drop(a);
            }
            Expr::Post { a, steps } => {
                drop(a);
                drop(steps);
            }
            Expr::Call { name, args } => {
                drop(name);
                drop(args);
            }
            Expr::Choose { cond, yes, no } => {
                drop(cond);
                drop(yes);
                drop(no);
            }
        }
    }
}

impl Drop for FieldRef {
    fn drop(self) {
        match self {
            FieldRef::Name(name) => drop(name),
            FieldRef::Position(_) => {}
        }
    }
}

impl Drop for PostStep {
    fn drop(self) {
        match self {
            PostStep::Project { fields, single: _ } => drop(fields),
            PostStep::Look(key) => drop(key),
        }
    }
}
