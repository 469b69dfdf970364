//! Whose token a request has, and what that token may write.
#![tactic(auto)]

mod bearer;
mod forms;
mod grant;
mod owners;
mod patterns;
mod read;
mod words;

pub use grant::Grant;
pub use owners::{Access, Owners};
pub use read::{TokenFileError, sole_token};
