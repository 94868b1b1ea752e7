//! What workers share or hand over may cross threads.
use crate::{
    BadDelimiter, Blob, Blobs, Boxed, ChainOp, Columns, Delim, Dir, Dirs, Function, Inputs,
    KeptList, Kind, Kinds, Lengths, Numbers, OutList, Pairs, Rel, Rows, Side, Text, Texts, Tuple,
    Value, WordFault,
};

fn crosses<T: Send + Sync>() {}

/// Shows that the types of this crate are `Send` and `Sync`, an [`OutList`] where its elements are.
pub fn values_cross_threads<O: Send + Sync>() {
    crosses::<Value>();
    crosses::<Tuple>();
    crosses::<Rows>();
    crosses::<Pairs>();
    crosses::<Kind>();
    crosses::<Kinds>();
    crosses::<Boxed<Kind>>();
    crosses::<Text>();
    crosses::<Texts>();
    crosses::<Blob>();
    crosses::<Blobs>();
    crosses::<Numbers>();
    crosses::<Lengths>();
    crosses::<OutList<O>>();
    crosses::<Dir>();
    crosses::<Dirs>();
    crosses::<Rel>();
    crosses::<Side>();
    crosses::<ChainOp>();
    crosses::<Function>();
    crosses::<Delim>();
    crosses::<BadDelimiter>();
    crosses::<Columns>();
    crosses::<Inputs>();
    crosses::<KeptList>();
    crosses::<WordFault>();
}
