//! The machine below the register stack: registers, octabytes in a slice of bytes, those of one lent window (`window`) and of the two that are one
//! memory (`memory`; `ranges` for runs of registers). `registers` and `memory` work in place; `value` has the same on a state that goes in and comes back.
#![tactic(auto)]

pub mod memory;
pub mod octabytes;
pub mod ranges;
pub mod registers;
pub mod value;
pub mod window;
