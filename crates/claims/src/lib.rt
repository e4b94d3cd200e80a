//! What is claimed of the C functions, as a host meets them: no code, only the theorems about lists of calls and about a store moved by lines.
#![tactic(auto)]
