//! The rows of growing texts: a name, and where the line of its record stands. Those of the live runs are held against a store's
//! objects, and those that a writer needs are put in order.
#![tactic(auto)]

mod checking;
mod laying;

pub use checking::{Row, check_rows};
pub use gx_growing_parts::Run;
pub use laying::{
    Table, first_place, first_table, next_table, read_rows, record_end, table_behind,
};
