//! Lines of a text by their fields: how many they are, what single ones say, accounts and limits, and why a line isn't
//! taken.
#![tactic(auto)]

mod accounts;
mod errors;
mod fields;
mod forms;

pub use accounts::account_in;
pub use errors::{BAD_FIELDS, BAD_TREE, BAD_WORD, LineError};
pub use fields::{
    begins_with, five_fields, four_fields, seven_fields, six_fields, three_fields, two_fields,
};
pub use forms::{key_of, limits_in, opt_of};
