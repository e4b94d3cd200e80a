//! Points as lines of text: one line judged in `line`, left in the form that is written by `anew`, a stream of them in `stream`.
#![tactic(auto)]

pub mod anew;
pub mod line;
pub mod stream;
