// Whole-number arithmetic in a step: the operation and its operands by the opcode, then $X, rH, rR and the flag.
ghost use Rattle.std.specs.Prelude.{◌≡◌, List, ℕ};
ghost use Rattle.model.specs.Opcodes.{first_of, last_of};
ghost use Rattle.model.specs.Control.{operand_of};
ghost use Rattle.model.specs.Parts.{made};
ghost use Rattle.model.specs.Lent.{state_lent, SameState};
ghost use Rattle.exceptions.specs.Told.{Told};
ghost use Rattle.arms.specs.NoMemoryArms.{arithmetic_of};

use decode::{opcode, target, word};
use exceptions::Kept;
use model::{Instruction, Operands, Reply, State, StateMut};

/// $Y, or Y itself.
fn first(general: &[u64; 256], i: &Instruction) -> u64
    ensures { (special : List ℕ) (pc halt marks mask : ℕ) → result
        ≡ operand_of (made general.now special pc halt marks mask) (first_of i.now.op) i.now.y }
{
    if opcode::is_among(i.op, opcode::FIRST_NEGATION, opcode::LAST_NEGATION) {
        return i.y as u64;
    }
    general[i.y as usize]
}

/// $Z for an even opcode, Z for an odd one.
pub fn last(general: &[u64; 256], i: &Instruction) -> u64
    ensures { (special : List ℕ) (pc halt marks mask : ℕ) → result
        ≡ operand_of (made general.now special pc halt marks mask) (last_of i.now.op) i.now.z }
{
    if i.op % 2 == 0 {
        return general[i.z as usize];
    }
    i.z as u64
}

/// MUL to SRU.
pub fn compute(s: &mut StateMut<'_>, i: &Instruction) -> Reply
    ensures same { SameState s.old s.new }
    ensures told { Told (arithmetic_of (state_lent s.old) i.now.op i.now.x i.now.y i.now.z) result (state_lent s.new) }
{
    let y = first(s.general, i);
    let z = last(s.general, i);
    let operands = Operands {
        y,
        z,
        rd: s.special[State::RD],
        rh: s.special[State::RH],
        rr: s.special[State::RR],
    };
    let results = arithmetic::operation::perform(opcode::operation_of(i.op), operands);
    stack::pass::set_register(s.general, s.special, i.x, results.x);
    s.special[State::RH] = results.rh;
    s.special[State::RR] = results.rr;
    if results.flags == 0 {
        *s.pc = target::following(*s.pc);
        return Reply::Done;
    }
    let word = word::word_of(i);
    exceptions::raise(s, results.flags, Kept { word, y, z })
}
