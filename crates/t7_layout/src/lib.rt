//! The layout table: the file that says which messages there are, and where each field of a message lies.
//!
//! A table is read exactly where its rows are valid. What is read holds a template for each role of the product, with
//! the fields that the role requires; messages are then read and written by these places, and no longer by names.
#![tactic(auto)]

mod checks;
mod fields;
mod images;
mod index;
mod laws;
mod pairs;
mod roles;
mod rows;
mod table;
mod templates;
#[cfg(test)]
mod tests;
mod text;
mod words;

pub use fields::FieldRef;
pub use laws::the_first_fault_is_told;
pub use roles::{FieldName, Role};
pub use table::{Table, TableRefusal};
pub use templates::Template;
pub use words::{Family, Kind, TableFault, TableWhy};
