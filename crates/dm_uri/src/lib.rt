//! URIs of the management tree: a path of at most 16 names, and at most one query.
#![tactic(auto)]

pub mod laws;
pub mod name;
pub mod path;
pub mod reading;
pub mod uri;
pub mod writing;

pub use name::{Name, parse_name};
pub use path::Path;
pub use reading::{is_uri, parse};
pub use uri::{Prop, Query, Uri, UriError};
pub use writing::print;
