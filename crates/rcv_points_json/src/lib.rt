// The points of an input's protocol as JSON, with what refuses the input.
#![tactic(auto)]

mod listed;
mod point;
mod unread;

pub use listed::points_json;
pub use rcv_listing::Listing;
pub use std::alloc::AllocError as Memory;
