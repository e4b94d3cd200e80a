// A whole script: its lines carried out one after another, and what they print.
ghost use Rattle.std.specs.Prelude.{◌≡◌, ℕ, ◌+◌, ◌≤◌, ◌<◌, ◌^◌, Some, length};
ghost use Rattle.model.specs.Numbers.{number_of};
ghost use Rattle.model.specs.Octa.{written};
ghost use Rattle.model.specs.Registers.{with_special};
ghost use Rattle.model.specs.Lent.{windows_lent, SameWindows};
ghost use Rattle.text.specs.Pieces.{pieces};
ghost use Rattle.script.specs.Script.{step_text, form_turn, carried, script_most, printed};
ghost use Rattle.text.specs.Writing.{Wrote};
ghost use Rattle.script.specs.Writing.{TurnWritten};
ghost use Rattle.script.specs.declared.line.Form.TheVariants.{Step as Form-as-Step};

use super::line::{Form, Setting};
use model::{Bases, Instruction, Reply, State, WindowsMut};
use std::ops::ControlFlow;

/// The longest script.
pub const SCRIPT_MOST: usize = 65536;

/// A buffer for a script: a byte more than the longest one, so that a longer one is seen to be longer.
pub const INPUT_LEN: usize = SCRIPT_MOST + 1;

/// A buffer for what any script prints.
pub const OUTPUT_LEN: usize = 12 * SCRIPT_MOST + 27;

/// How long each of the two windows is.
const WINDOW_SIZE: usize = 2048;

/// Where they lie: A at 0, B at the register stack's start.
const BASES: Bases = Bases {
    a: 0,
    b: State::STACK_START,
};

/// The marks of a state in which every vector is loaded.
const ALL_LOADED: u64 = 0x1FF;

/// A special register is set directly; past the last one nothing is.
fn set_special(state: &mut State, setting: Setting)
    ensures { state.new ≡ with_special state.old setting.index setting.value }
{
    let k = usize::from(setting.index);
    if k <= State::RZZ {
        state.special[k] = setting.value;
    }
}

/// The line of a step: its reply's number and the state that it left.
fn put_step(out: &mut [u8], at: usize, i: Instruction, reply: Reply, state: &State) -> usize
    requires { at < 2 ^ 63 }
    ensures { Wrote out.old at (step_text i (number_of reply) state.now) out.new result }
{
    // No array map: its goal stays open.
    let op = u64::from(i.op);
    let x = u64::from(i.x);
    let y = u64::from(i.y);
    let z = u64::from(i.z);
    let rg = state.special[State::RG];
    let rl = state.special[State::RL];
    let ro = state.special[State::RO];
    if reply == Reply::Done {
        let done = b"(# # # # (done) (pc #) (rG #) (rL #) (rO #))\n";
        return text::write::write(out, at, done, &[op, x, y, z, state.pc, rg, rl, ro]);
    }
    let refused = b"(# # # # (refused %) (pc #) (rG #) (rL #) (rO #))\n";
    text::write::write(
        out,
        at,
        refused,
        &[op, x, y, z, u64::from(reply), state.pc, rg, rl, ro],
    )
}

/// A step is done or refused, and printed; a refused one ends the script.
fn step(
    out: &mut [u8],
    at: usize,
    state: &mut State,
    windows: &mut WindowsMut<'_>,
    i: Instruction,
) -> ControlFlow<usize, usize>
    requires { at < 2 ^ 63 }
    ensures same { SameWindows windows.old windows.new }
    ensures written { (n : ℕ) → TurnWritten (form_turn n state.old (windows_lent windows.old) (Some (Form-as-Step i)))
        out.old at out.new result state.new (windows_lent windows.new) }
{
    let stepped = instruction::value::step(*state, windows, &i);
    *state = stepped.state;
    let end = put_step(out, at, i, stepped.reply, state);
    if stepped.reply == Reply::Done {
        ControlFlow::Continue(end)
    } else {
        ControlFlow::Break(end)
    }
}

/// One line, number n of the script.
fn turn(
    out: &mut [u8],
    at: usize,
    n: u64,
    state: &mut State,
    windows: &mut WindowsMut<'_>,
    form: Option<Form>,
) -> ControlFlow<usize, usize>
    requires { at < 2 ^ 63 }
    ensures same { SameWindows windows.old windows.new }
    ensures written { TurnWritten (form_turn n state.old (windows_lent windows.old) form)
        out.old at out.new result state.new (windows_lent windows.new) }
{
    // None first: of a nested pattern the proof is told no field.
    let Some(form) = form else {
        return ControlFlow::Break(text::write::put_bad(out, at, n));
    };
    match form {
        Form::Register(setting) => {
            *state = machine::value::set_register(*state, setting.index, setting.value);
            ControlFlow::Continue(at)
        }
        Form::Special(setting) => {
            set_special(state, setting);
            ControlFlow::Continue(at)
        }
        Form::Step(i) => step(out, at, state, windows, i),
    }
}

/// The lines from the first on, until one ends the script.
fn carry(script: &[u8], out: &mut [u8], windows: &mut WindowsMut<'_>, first: State) -> usize
    requires { length script.now ≤ script_most }
    ensures { Wrote out.old 0
        (carried 1 first (windows_lent windows.old) (pieces script.now)) out.new result }
{
    let mut state = first;
    let mut end = 0;
    let mut at = 0;
    let mut n = 1;
    // No split_inclusive: no law goes from its pieces to the definition's.
    while at < script.len() {
        let newline = text::read::line_end(script, at);
        if newline == script.len() {
            return text::write::put_bad(out, end, n);
        }
        let form = super::line::read(&script[at..newline]);
        match turn(out, end, n, &mut state, windows, form) {
            ControlFlow::Continue(next) => end = next,
            ControlFlow::Break(last) => return last,
        }
        at = newline + 1;
        n += 1;
    }
    end
}

/// The script's text goes to the start of `out`, as far as it goes; how long the text is.
pub fn run(script: &[u8], out: &mut [u8]) -> usize
    ensures { (out.new ≡ written out.old 0 (printed script.now))
        × (result ≡ length (printed script.now)) }
{
    if script.len() > SCRIPT_MOST {
        return text::write::put_bad(out, 0, 0);
    }
    let mut first = State::initialize();
    first.marks = ALL_LOADED;
    let mut a = [0; WINDOW_SIZE];
    let mut b = [0; WINDOW_SIZE];
    let mut windows = WindowsMut {
        a: &mut a,
        b: &mut b,
        at: BASES,
    };
    carry(script, out, &mut windows, first)
}
