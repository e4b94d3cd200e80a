//! The register stack (stack.rs): frames in `push` and `frame`, which has POP, with `slide`; and in `pass` what the layer above needs of the machine. Saved contexts are crate contexts. All
//! work in place; `value` has the Rust's functions on a state that goes in and comes back. PC is the business of the layer above.
#![tactic(auto)]

pub mod frame;
pub mod pass;
pub mod push;
mod slide;
pub mod value;
