//! Binding: what a statement asks of its cube, by coordinates.
#![tactic(auto)]

mod bind;
mod fault;
mod law;
mod places;
mod plan;
mod resolve;
mod rows;
mod top;

pub use bind::{bind_delete, bind_rows, bind_select, bound_place, span_of};
pub use cube_language::Misfit;
pub use fault::BindFault;
pub use law::{bindings_have_all_parts, statements_are_bound_to_what_they_ask};
pub use places::{cube_needed, cube_place};
pub use plan::{DropPlan, RowPlan};
pub use top::bind_top;
