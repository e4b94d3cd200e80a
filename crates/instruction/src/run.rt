// Instructions that are fetched at PC: one, and as many as a grant says.
// State and windows are judged once a call.
ghost use Rattle.std.specs.Prelude.{◌≡◌, true};
ghost use Rattle.model.specs.Registers.{admissible};
ghost use Rattle.model.specs.Memory.{shapes_of, both};
ghost use Rattle.model.specs.Numbers.{number_of};
ghost use Rattle.model.specs.Step.{unruled_by, fetched_of, fetched, mmix};
ghost use Rattle.model.specs.Run.{run_for, run_of};
ghost use Rattle.model.specs.Lent.{state_lent, windows_lent, SameState, SameWindows};
ghost use Rattle.instruction.specs.StepAnswer.{Numbered, RunNumbered};
ghost use Rattle.instruction.specs.FetchedArms.{said_by};

use super::{claim, step};
use arms::control;
use decode::{opcode, operand};
use model::{GRANT_MOST, Instruction, Reply, StateMut, WindowsMut};

/// What a run came to: the reply of its last instruction, and how many were done.
#[derive(Clone, Copy)]
pub struct Ran {
    pub reply: Reply,
    pub done: u64,
}

/// The instruction that a tetra says, from 3 on. A branch claims nothing, and is done here: what a loop does most is not to wait for the choice.
fn attempt(s: &mut StateMut<'_>, w: &mut WindowsMut<'_>, tetra: u32) -> Reply
    requires { (admissible (state_lent s.old) ≡ true) × (unruled_by (shapes_of (windows_lent w.old)) ≡ 0) }
    ensures same { SameState s.old s.new × SameWindows w.old w.new }
    ensures numbered { Numbered (said_by (windows_lent w.old) (state_lent s.old) tetra)
        (number_of result) (state_lent s.new) (windows_lent w.new) }
{
    stack::pass::counted(s.general, s.special);
    let i = Instruction::from(tetra);
    if opcode::is_among(i.op, opcode::FIRST_BRANCH, opcode::LAST_BRANCH) {
        return control::branch(s.general, s.pc, &i);
    }
    if claim::is_claimed(s.special, &i) {
        return claim::claimed(s, w, i);
    }
    step::dispatch(s, w, &i)
}

/// One instruction at PC, once 1, 2 and 22 have passed: 24, then the instruction that the tetra there says.
fn fetched(s: &mut StateMut<'_>, w: &mut WindowsMut<'_>) -> Reply
    requires { (admissible (state_lent s.old) ≡ true) × (unruled_by (shapes_of (windows_lent w.old)) ≡ 0) }
    ensures same { SameState s.old s.new × SameWindows w.old w.new }
    ensures numbered { Numbered (fetched_of (windows_lent w.old) (state_lent s.old))
        (number_of result) (state_lent s.new) (windows_lent w.new) }
{
    let from = *s.pc;
    let lent = w.read();
    let found = stack::pass::read_octa(lent.a, lent.b, lent.at, from);
    if found.holder.is_none() {
        return Reply::NotFetched;
    }
    attempt(s, w, operand::tetra_at(from, found.value))
}

/// Instruction by instruction, until the grant is spent or one is refused, which isn't counted.
fn turns(s: &mut StateMut<'_>, w: &mut WindowsMut<'_>, grant: u64) -> Ran
    requires { (admissible (state_lent s.old) ≡ true) × (unruled_by (shapes_of (windows_lent w.old)) ≡ 0) }
    ensures same { SameState s.old s.new × SameWindows w.old w.new }
    ensures numbered { RunNumbered (run_for both mmix fetched grant (state_lent s.old) (windows_lent w.old))
        (number_of result.reply) result.done (state_lent s.new) (windows_lent w.new) }
{
    stack::pass::counted(s.general, s.special);
    for done in 0..grant {
        let reply = fetched(s, w);
        if reply != Reply::Done {
            return Ran { reply, done };
        }
    }
    Ran {
        reply: Reply::Done,
        done: grant,
    }
}

/// A run in place: 1, 2, 22 and 25 judged once, in this order; then up to `grant` instructions.
pub fn run(s: &mut StateMut<'_>, w: &mut WindowsMut<'_>, grant: u64) -> Ran
    ensures same { SameState s.old s.new × SameWindows w.old w.new }
    ensures numbered { RunNumbered (run_of (windows_lent w.old) (state_lent s.old) grant)
        (number_of result.reply) result.done (state_lent s.new) (windows_lent w.new) }
{
    let lent = w.read();
    let reply = stack::pass::refusal(s.special, s.marks, s.mask, lent.a, lent.b, lent.at);
    if reply != Reply::Done {
        return Ran { reply, done: 0 };
    }
    if GRANT_MOST < grant {
        return Ran {
            reply: Reply::GrantTooLarge,
            done: 0,
        };
    }
    turns(s, w, grant)
}
