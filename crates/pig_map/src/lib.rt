//! Map tasks and store tasks: the rows of a part of a source, taken through a path, in the form in which they are handed on.
#![tactic(auto)]

mod attempt;
mod calls;
mod choosing;
mod copies;
mod first;
mod forming;
mod lent;
mod never;
mod parts;
mod reading;
mod unmet;
mod wave;
mod work;

pub use attempt::map_attempt;
pub use calls::{map_task, map_task_blocks, path_rows};
pub use copies::sides_before;
pub use never::Never;
