//! What an instruction's bytes say, with no state.
//!
//! - `opcode`: the opcodes by name, and their ranges
//! - `target`: addresses and conditions
//! - `field`: which field reaches an address
//! - `operand`: sizes, places and signs of what loads and stores move
//! - `word`: the instruction itself, as a trip keeps it
#![tactic(auto)]

pub mod field;
pub mod opcode;
pub mod operand;
pub mod target;
pub mod word;
