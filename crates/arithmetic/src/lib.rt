//! Whole-number arithmetic: operations on octabytes, with no state. `operation` has the one entry.
#![tactic(auto)]

pub mod number;
pub mod operation;
pub mod product;
pub mod quotient;
pub mod shift;
pub mod signed;
