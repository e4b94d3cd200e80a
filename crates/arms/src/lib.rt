//! The arms of a step, over the stack's contracts and those of crates arithmetic, decode and exceptions. All work in place on lent registers; 1, 2 and 22 are judged
//! before the choice of the arm, in crate instruction.
//!
//! - `control`, `system`: the arms of control.rs and system.rs that are more than a call of another file's
//! - `operations`: whole-number operations in a step, by crate arithmetic
//! - `load_store`: loads and stores
//! - `registers`: the arms that move nothing but registers
//! - `calls`: those that work on frames
//! - `saves`: those that work on saved contexts
#![tactic(auto)]

pub mod calls;
pub mod control;
pub mod load_store;
pub mod operations;
pub mod registers;
pub mod saves;
pub mod system;
