// Which steps touch few general registers, so that of an image these alone are decoded and encoded.
ghost use Rattle.std.specs.Prelude.{◌≡◌, List, ℕ};
ghost use Rattle.model.specs.Parts.{made};
ghost use Rattle.model.specs.Few.{of_stack, puts_bound, touches_few};

use decode::opcode;
use model::{Instruction, State};

// Whether an opcode is one of PUSH, POP, SAVE and UNSAVE, or of RESUME, which has no arm.
#[tactic(auto, unfolding(model::specs::Few::of_stack, model::specs::Opcodes::among))]
fn is_of_stack(op: u8) -> bool
    ensures { result ≡ of_stack op }
{
    matches!(
        op,
        opcode::PUSHGO..=opcode::PUSHGOI | opcode::PUSHJ..=opcode::PUSHJB | opcode::POP..=opcode::UNSAVE
    )
}

// Whether an instruction is PUT of rL or rG.
#[tactic(auto, unfolding(model::specs::Few::puts_bound, model::specs::Opcodes::among))]
fn puts_bound(op: u8, x: u8) -> bool
    ensures { result ≡ puts_bound op x }
{
    let reg = x as usize;
    matches!(op, opcode::PUT..=opcode::PUTI) && (reg == State::RL || reg == State::RG)
}

/// Whether a step touches $X, $Y, $Z and $255 alone of the general registers.
#[tactic(auto, unfolding(model::specs::Few::touches_few))]
pub(crate) fn touches_few(special: &[u64; 32], i: &Instruction) -> bool
    ensures { (general : List ℕ) (pc halt marks mask : ℕ) → result
        ≡ touches_few (made general special.now pc halt marks mask) i.now.op i.now.x }
{
    if is_of_stack(i.op) || puts_bound(i.op, i.x) {
        return false;
    }
    !instruction::claim::is_claimed(special, i)
}
