//! A board that workers in any threads share: each of their events is one step under one lock.
#![tactic(auto)]

pub use board::SharedBoard;
pub use tally::{Blanks, Desk};
pub use worker::Worker;
pub use ws_board::{Built, Cache, Entry, Job, Task};

mod board;
mod locked;
mod tally;
mod worker;
