//! Commands as they are packed into messages: numbered in place, measured under other numbers, and without the Data
//! that may be cut.
#![tactic(auto)]

mod counting;
pub mod cutting;
pub mod numbering;
pub mod packing;
pub mod put_numbered;

pub use counting::ids_in;
pub use cutting::cut_item_mut;
pub use numbering::set_ids;
pub use packing::{
    cut_item, data_is_bounded, data_length, pages_follow_elements, rest_and_data, rest_length,
    spellings_are_parted,
};
pub use put_numbered::{numbered_length, put_command_from};
