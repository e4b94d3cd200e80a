//! The bench program's language: what a line says in `line`, a whole script in `script`.
#![tactic(auto)]

pub mod line;
pub mod script;
