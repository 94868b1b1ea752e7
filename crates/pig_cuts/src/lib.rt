//! Plans whose nodes keep fewer columns: which rows are left, and that such plans mean the same.
#![tactic(auto)]

mod kept;
mod laws;

pub use kept::KeptField;
pub use laws::{
    cut_nodes_have_cut_rows, cut_plans_are_plans, cut_plans_mean_the_same, fitted_nodes_fit,
};
