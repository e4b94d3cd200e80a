//! One step and a run, over the arms of crate arms; both work in place on lent registers, but for `value`.
//!
//! - `step`: one step; 1, 2 and 22 judged, then the choice by opcode
//! - `claim`: the claim of $X by an instruction that is fetched
//! - `run`: one instruction that is fetched at PC, and a run of them
//! - `value`: one step and one exception on a state that goes in and comes back
#![tactic(auto)]

pub mod claim;
pub mod run;
pub mod step;
pub mod value;
