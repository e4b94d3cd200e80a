//! TRIP, TRAP and the exceptions entry in place on a lent state (exceptions.rs, system.rs); no window is known here.
#![tactic(auto)]

ghost use Rattle.std.specs.Prelude.{◌≡◌, ◌&&◌, List, ℕ, ◌/◌, ◌%◌, ◌^◌, ◌<◌, ◌≤◌, eqb};
ghost use Rattle.std.specs.Int.Bits.{bit_and};
ghost use Rattle.model.specs.Registers.{reg};
ghost use Rattle.model.specs.Trips.{word_of, interrupted, trip_to, vector_of, leftmost, with_added, raised};
ghost use Rattle.model.specs.Step.{is_named, exception_of};
ghost use Rattle.model.specs.Lent.{state_lent, SameState};
ghost use Rattle.exceptions.specs.Interrupts.{trip_of, trap_step};
ghost use Rattle.exceptions.specs.Told.{Told};

use decode::target;
use model::{Instruction, Reply, State, StateMut};

/// What an interrupt keeps of the instruction: its word and two operands.
#[derive(Clone, Copy)]
pub struct Kept {
    pub word: u64,
    pub y: u64,
    pub z: u64,
}

/// The special registers of an interrupt: where $255 goes, where PC goes on, the word and the two operands.
#[derive(Clone, Copy)]
struct Bank {
    b: usize,
    w: usize,
    x: usize,
    y: usize,
    z: usize,
}

const TRIP_BANK: Bank = Bank {
    b: State::RB,
    w: State::RW,
    x: State::RX,
    y: State::RY,
    z: State::RZ,
};

const TRAP_BANK: Bank = Bank {
    b: State::RBB,
    w: State::RWW,
    x: State::RXX,
    y: State::RYY,
    z: State::RZZ,
};

/// Whether vector k is marked loaded.
fn is_loaded(marks: u64, k: u64) -> bool
    requires { k ≤ 8 }
    ensures { result ≡ eqb (marks / 2 ^ k % 2) 1 }
{
    (marks >> k) % 2 == 1
}

/// The registers of a trip or a trap.
fn set_interrupt(s: &mut StateMut<'_>, bank: Bank, kept: Kept)
    requires { (bank.b < 32) × (bank.w < 32) × (bank.x < 32) × (bank.y < 32) × (bank.z < 32) }
    ensures same { SameState s.old s.new }
    ensures set { state_lent s.new ≡ interrupted (state_lent s.old) bank.b bank.w bank.x bank.y bank.z kept.word kept.y kept.z }
{
    let rj = s.special[State::RJ];
    s.special[bank.b] = s.general[255];
    s.general[255] = rj;
    s.special[bank.w] = target::following(*s.pc);
    s.special[bank.x] = kept.word;
    s.special[bank.y] = kept.y;
    s.special[bank.z] = kept.z;
}

/// A trip through vector k, of 0 to 8: PC goes there if it is loaded, else the halt code is 1 (19).
fn trip(s: &mut StateMut<'_>, k: u64, kept: Kept) -> Reply
    requires { k ≤ 8 }
    ensures same { SameState s.old s.new }
    ensures told { Told (trip_to (state_lent s.old) k kept.word kept.y kept.z) result (state_lent s.new) }
{
    let loaded = is_loaded(s.marks, k);
    set_interrupt(s, TRIP_BANK, kept);
    if loaded {
        *s.pc = 16 * k;
        return Reply::Done;
    }
    *s.halt = 1;
    Reply::NotLoaded
}

/// An instruction with its operands $Y and $Z.
fn kept_of(s: &StateMut<'_>, i: &Instruction) -> Kept
    ensures { result ≡ record { word = word_of i.now.op i.now.x i.now.y i.now.z; y = reg (state_lent s.now) i.now.y; z = reg (state_lent s.now) i.now.z } }
{
    let general = &*s.general;
    Kept {
        word: decode::word::word_of(i),
        y: general[usize::from(i.y)],
        z: general[usize::from(i.z)],
    }
}

/// TRIP: through vector 0, its operands $Y and $Z from before.
pub fn trip_arm(s: &mut StateMut<'_>, i: &Instruction) -> Reply
    ensures same { SameState s.old s.new }
    ensures told { Told (trip_of (state_lent s.old) i.now.op i.now.x i.now.y i.now.z) result (state_lent s.new) }
{
    let kept = kept_of(s, i);
    trip(s, 0, kept)
}

/// The system calls that `from_u8` names go from Halt, 0, to Ftell, and from Fputc to Debug.
const FTELL: u8 = 10;

const FPUTC: u8 = 0x80;

const DEBUG: u8 = 0x82;

/// Whether a TRAP names a system call: X is 0, and `from_u8` names Y.
#[tactic(auto, unfolding(model::specs::SystemRows::is_named))]
fn is_named(x: u8, y: u8) -> bool
    ensures { result ≡ (eqb x 0 && is_named y) }
{
    x == 0 && matches!(y, 0..=FTELL | FPUTC..=DEBUG)
}

/// TRAP: 4 where it is named; else the trap registers, the halt code 1, PC unmoved (20).
pub fn trap_arm(s: &mut StateMut<'_>, i: &Instruction) -> Reply
    ensures same { SameState s.old s.new }
    ensures told { Told (trap_step (state_lent s.old) i.now.op i.now.x i.now.y i.now.z) result (state_lent s.new) }
{
    if is_named(i.x, i.y) {
        return Reply::NamedTrap;
    }
    let kept = kept_of(s, i);
    set_interrupt(s, TRAP_BANK, kept);
    *s.halt = 1;
    Reply::Trapped
}

/// The flags raised and enabled.
fn enabled_of(ra: u64, flags: u8) -> u8
    ensures { result ≡ bit_and flags (ra / 256 % 256) }
{
    flags & (((ra / 256) % 256) as u8)
}

/// The leftmost of some flags, 0 where there is none.
fn leftmost_flag(flags: u8) -> u8
    ensures { result ≡ leftmost flags }
{
    if flags == 0 {
        return 0;
    }
    0x80 >> flags.leading_zeros()
}

/// The flags raised but the taken one are added to rA, enabled or not.
fn add_untaken(s: &mut StateMut<'_>, flags: u8)
    ensures same { SameState s.old s.new }
    ensures added { state_lent s.new ≡ with_added (state_lent s.old) flags }
{
    let ra = s.special[State::RA];
    let enabled = enabled_of(ra, flags);
    let taken = leftmost_flag(enabled);
    let others = flags & (255 - taken);
    s.special[State::RA] = ra | u64::from(others);
}

/// The vector of the leftmost of some flags.
fn vector_of(enabled: u8) -> u64
    requires { 0 < enabled }
    ensures { (result ≡ vector_of enabled) × (result ≤ 8) }
{
    u64::from(enabled.leading_zeros()) + 1
}

/// A byte of flags is raised by an instruction.
pub fn raise(s: &mut StateMut<'_>, flags: u8, kept: Kept) -> Reply
    ensures same { SameState s.old s.new }
    ensures told { Told (raised (state_lent s.old) flags kept.word kept.y kept.z) result (state_lent s.new) }
{
    let enabled = enabled_of(s.special[State::RA], flags);
    add_untaken(s, flags);
    if enabled == 0 {
        *s.pc = target::following(*s.pc);
        return Reply::Done;
    }
    trip(s, vector_of(enabled), kept)
}

/// The exceptions entry: a byte of flags is raised by an instruction with two operands; 1 where the state is not admissible.
pub fn raise_exceptions(s: &mut StateMut<'_>, flags: u8, i: &Instruction, y: u64, z: u64) -> Reply
    ensures same { SameState s.old s.new }
    ensures told { Told (exception_of (state_lent s.old) flags i.now.op i.now.x i.now.y i.now.z y z) result (state_lent s.new) }
{
    if !stack::pass::admissible(s.special, s.marks, s.mask) {
        return Reply::NotAdmissible;
    }
    let word = decode::word::word_of(i);
    raise(s, flags, Kept { word, y, z })
}
