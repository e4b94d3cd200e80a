// The register functions on a state by value, under the Rust's names: the work is done in place on its fields. 01 asks for
// them; of the crates above only the script calls one, and the instruction layer works in place.
ghost use Rattle.std.specs.Prelude.{◌≡◌};
ghost use Rattle.model.specs.Registers.{admissible, claim_local, set_register, put_locals, put_globals};
ghost use Rattle.machine.specs.Put.{PutGives};

use super::registers;
use model::{Answer, State};

pub fn admissible(state: State) -> bool
    ensures { result ≡ admissible state }
{
    registers::admissible(&state.special, state.marks, state.mask)
}

pub fn claim_local(mut state: State, reg: u8) -> State
    ensures { result ≡ claim_local state reg }
{
    registers::claim_local(&mut state.general, &mut state.special, reg);
    state
}

pub fn set_register(mut state: State, reg: u8, v: u64) -> State
    ensures { result ≡ set_register state reg v }
{
    registers::set_register(&mut state.general, &mut state.special, reg, v);
    state
}

pub fn put_rl(mut state: State, value: u64) -> State
    ensures { result ≡ put_locals state value }
{
    registers::put_rl(&mut state.general, &mut state.special, value);
    state
}

pub fn put_rg(mut state: State, value: u64) -> State
    ensures { result ≡ put_globals state value }
{
    registers::put_rg(&mut state.general, &mut state.special, value);
    state
}

pub fn put_special(mut state: State, x: u8, value: u64) -> Answer
    ensures { PutGives state x value result.reply result.state }
{
    let reply = registers::put_special(&mut state.general, &mut state.special, x, value);
    Answer { reply, state }
}
