//! Go files, folders and modules: where their files stand in a workspace, and why one isn't taken.
#![tactic(auto)]

pub mod bytes;
pub mod files;
pub mod module;
pub mod places;
pub mod unread;
