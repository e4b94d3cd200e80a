//! Several tasks on one machine: no code, only definitions and the theorems over them.
#![tactic(auto)]
