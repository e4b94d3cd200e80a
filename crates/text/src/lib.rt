//! Text as bytes, for programs that read and print lines: a digit, a number and a line's end in `read`, a pattern filled in in `write`; and what such
//! a program tells of a failure in `report`.
#![tactic(auto)]

pub mod read;
pub mod report;
pub mod write;
