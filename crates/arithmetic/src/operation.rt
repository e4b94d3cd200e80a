// One operation: $X, rH, rR and the flags of its operands.
ghost use Rattle.std.specs.Prelude.{◌≡◌};
ghost use Rattle.model.specs.Arithmetic.{plain, results_of};

use super::{number, product, quotient, shift, signed};
use model::{Operands, Operation, Results};

// $X alone.
fn alone(a: Operands, x: u64) -> Results
    ensures { result ≡ plain a x }
{
    Results {
        x,
        rh: a.rh,
        rr: a.rr,
        flags: 0,
    }
}

/// The operation done.
#[tactic(auto, unfolding(model::specs::Arithmetic::results_of))]
pub fn perform(o: Operation, a: Operands) -> Results
    ensures { result ≡ results_of o a }
{
    let Operands { y, z, .. } = a;
    match o {
        Operation::Mul => product::mul(a),
        Operation::Mulu => product::mulu(a),
        Operation::Div => signed::div(a),
        Operation::Divu => quotient::divu(a),
        Operation::Add => signed::add(a),
        Operation::Addu => alone(a, number::sum(y, z)),
        Operation::Sub => signed::sub(a),
        Operation::Subu => alone(a, number::difference(y, z)),
        Operation::Addu2 => alone(a, shift::scaled_sum(1, y, z)),
        Operation::Addu4 => alone(a, shift::scaled_sum(2, y, z)),
        Operation::Addu8 => alone(a, shift::scaled_sum(3, y, z)),
        Operation::Addu16 => alone(a, shift::scaled_sum(4, y, z)),
        Operation::Cmp => alone(a, signed::cmp(y, z)),
        Operation::Cmpu => alone(a, signed::cmpu(y, z)),
        Operation::Neg => signed::sub(a),
        Operation::Negu => alone(a, number::difference(y, z)),
        Operation::Sl => shift::sl(a),
        Operation::Slu => alone(a, shift::slu(y, z)),
        Operation::Sr => alone(a, shift::sr(y, z)),
        Operation::Sru => alone(a, shift::sru(y, z)),
    }
}
