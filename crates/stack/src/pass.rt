// What the layer above needs of the machine, under contracts of the stack's own: the octabytes of the two windows, registers.
// They pass on machine's: the instruction layer rests on the stack's contracts alone.
ghost use Rattle.std.specs.Prelude.{◌≡◌, List, ℕ, length};
ghost use Rattle.model.specs.Memory.{shapes_of, holder};
ghost use Rattle.model.specs.Plan.{worst};
ghost use Rattle.model.specs.Step.{refusing};
ghost use Rattle.model.specs.Numbers.{number_of, number_of_holder};
ghost use Rattle.model.specs.Registers.{with_parts, hides, admissible, claim_local, set_register};
ghost use Rattle.model.specs.Parts.{made, lent};
ghost use Rattle.model.specs.declared.State.{State};
ghost use Rattle.machine.specs.Octas.{read_octa, written_octa};
ghost use Rattle.machine.specs.Put.{PutGives};
ghost use Rattle.stack.specs.GivenBack.{refusal_on};

use model::{Bases, Octabyte, Reply, State, Window};

pub fn is_hidden(mask: u64, k: u8) -> bool
    ensures { result ≡ hides mask k }
{
    machine::registers::is_hidden(mask, k)
}

pub fn admissible(special: &[u64; 32], marks: u64, mask: u64) -> bool
    ensures { (general : List ℕ) (pc halt : ℕ) → result ≡ admissible (made general special.now pc halt marks mask) }
{
    machine::registers::admissible(special, marks, mask)
}

/// What refuses state or windows, Done where both pass: 1, then 2 and 22.
#[tactic(auto, unfolding(crate::specs::GivenBack::refusal_on, model::specs::Numbers::number_of))]
pub fn refusal(special: &[u64; 32], marks: u64, mask: u64, a: &[u8], b: &[u8], at: Bases) -> Reply
    ensures { (general : List ℕ) (pc halt : ℕ) → number_of result
        ≡ refusal_on (lent at a.now b.now) (made general special.now pc halt marks mask) }
{
    if machine::registers::admissible(special, marks, mask) {
        return machine::memory::windows_refusal(a, b, at);
    }
    Reply::NotAdmissible
}

pub fn run_refusal(a: &[u8], b: &[u8], at: Bases, addr: u64, n: u64) -> Reply
    ensures { number_of result ≡ worst (refusing (shapes_of (lent at a.now b.now))) addr n }
{
    machine::memory::run_refusal(a, b, at, addr, n)
}

pub fn read_octa(a: &[u8], b: &[u8], at: Bases, addr: u64) -> Octabyte
    ensures { (result.value ≡ read_octa (lent at a.now b.now) addr)
        × (number_of_holder result.holder ≡ holder (shapes_of (lent at a.now b.now)) addr) }
{
    machine::memory::read_octa(a, b, at, addr)
}

pub fn write_octa(a: &mut [u8], b: &mut [u8], at: Bases, addr: u64, v: u64) -> Option<Window>
    ensures { (lent at a.new b.new ≡ written_octa (lent at a.old b.old) addr v)
        × (number_of_holder result ≡ holder (shapes_of (lent at a.old b.old)) addr) }
{
    machine::memory::write_octa(a, b, at, addr, v)
}

pub fn counted(general: &[u64; 256], special: &[u64; 32])
    ensures { (length general.now ≡ 256) × (length special.now ≡ 32) }
{
    machine::registers::counted(general, special);
}

pub fn claim_local(general: &mut [u64; 256], special: &mut [u64; 32], reg: u8)
    ensures { (s : State) → with_parts s general.new special.new
        ≡ claim_local (with_parts s general.old special.old) reg }
{
    machine::registers::claim_local(general, special, reg);
}

pub fn set_register(general: &mut [u64; 256], special: &mut [u64; 32], reg: u8, v: u64)
    ensures { (s : State) → with_parts s general.new special.new
        ≡ set_register (with_parts s general.old special.old) reg v }
{
    machine::registers::set_register(general, special, reg, v);
}

pub fn put_special(general: &mut [u64; 256], special: &mut [u64; 32], x: u8, value: u64) -> Reply
    ensures { (s : State) → PutGives (with_parts s general.old special.old) x value result
        (with_parts s general.new special.new) }
{
    machine::registers::put_special(general, special, x, value)
}
