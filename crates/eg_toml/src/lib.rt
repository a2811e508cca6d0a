//! What the readers of TOML files share: the document that bytes are, the values in its tables, numbers and
//! arrays of numbers within their ranges, and the names that a table has.
#![tactic(auto)]

mod arrays;
mod comments;
mod laws;
mod names;
mod places;
mod reading;
mod values;
mod weight;

pub use arrays::{Numbers, items_in, numbers_in, rows_in};
pub use laws::comments_and_texts_weigh_nothing;
pub use names::has_only_names;
pub use places::Place;
pub use reading::{DocumentFault, read_document};
pub use values::{member, number_at, number_in, table_at};
pub use weight::{Due, is_too_heavy};
