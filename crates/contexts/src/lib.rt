//! Saved contexts (stack.rs), beside the frames of crate stack: SAVE and UNSAVE in `context`, where a context lies in `layout`, the reader in `reader`. All work in
//! place; `value` has the Rust's functions on a state that goes in and comes back. PC is the business of the layer above.
#![tactic(auto)]

pub mod context;
pub mod layout;
pub mod reader;
pub mod value;
