//! Credentials of the type `syncml:auth-md5`: digests, what a credential comes to, and the nonces that the ends tell
//! each other. Nothing here prints a password, a nonce or a digest.
#![tactic(auto)]

mod accounts;
mod credentials;
mod laws;
mod nonces;

pub use accounts::Account;
pub use credentials::{Verdict, challenge, credential, digest, judge};
pub use laws::credential_is_accepted;
pub use nonces::nonce_of;
