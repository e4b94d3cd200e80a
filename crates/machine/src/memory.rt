// The octabytes of the two lent windows, A and B, as one memory: an octabyte is B's where B holds it, else A's. A run of octabytes is asked for
// piece by piece, each in one window.
ghost use Rattle.std.specs.Prelude.{◌≡◌, ◌+◌, ◌-◌, ◌*◌, ◌%◌, ◌^◌, ◌<◌, true, false, ◌&&◌, ltb};
ghost use Rattle.model.specs.Memory.{has, shapes_of, holder, shares};
ghost use Rattle.model.specs.Plan.{worst};
ghost use Rattle.model.specs.Step.{unruled_by, refusing};
ghost use Rattle.model.specs.Numbers.{number_of, number_of_holder};
ghost use Rattle.model.specs.Parts.{lent};
ghost use Rattle.machine.specs.Octas.{read_octa, written_octa};
ghost use Rattle.machine.specs.Pieces.{PieceIs};

use super::window;
use model::{Bases, Octabyte, Reply, Window};

/// Octabytes from an address up that one window holds: which window, and how many; one octabyte where neither holds it.
#[derive(Clone, Copy)]
pub(crate) struct Piece {
    pub(crate) holder: Option<Window>,
    pub(crate) octas: u64,
}

/// Whether a window of `len` bytes reaches from its base to another one, which has `other_len`; both obey their rules. An empty one reaches nothing and
/// is not reached.
#[tactic(auto, using(crate::proofs::RunRefused::reached, crate::proofs::RunRefused::unreached, crate::proofs::RunRefused::and_none))]
fn reaches(len: u64, base: u64, other_len: u64, other: u64) -> bool
    requires { (base % 8 ≡ 0) × (other % 8 ≡ 0) × (len % 8 ≡ 0) }
    ensures { result ≡ (ltb 0 other_len && has (record { from = base; size = len }) other) }
{
    model::number::wrapping_sub(other, base) < len && other_len != 0
}

/// Whether two windows that obey their rules are seen to lie apart by one comparison: B's base comes behind A, and A's base behind B. Where it says no they
/// may still lie apart.
#[tactic(auto, using(crate::proofs::RunRefused::are_apart))]
fn are_apart(a_len: u64, a: u64, b_len: u64, b: u64) -> bool
    requires { (a % 8 ≡ 0) × (b % 8 ≡ 0) × (a_len < 2 ^ 60) × (b_len < 2 ^ 60) }
    ensures { result ≡ true → shares (record { a = record { from = a; size = a_len }; b = record { from = b; size = b_len } }) ≡ false }
{
    let behind = model::number::wrapping_sub(model::number::wrapping_sub(b, a), a_len);
    behind <= u64::MAX - (a_len + b_len)
}

/// What refuses the windows: 2 where one breaks its rule, 22 where they share an octabyte, else Done.
pub fn windows_refusal(a: &[u8], b: &[u8], at: Bases) -> Reply
    ensures { number_of result ≡ unruled_by (shapes_of (lent at a.now b.now)) }
{
    if !window::is_ruled(a, at.a) {
        return Reply::WindowRule;
    }
    if !window::is_ruled(b, at.b) {
        return Reply::WindowRule;
    }
    let a_len = a.len() as u64;
    let b_len = b.len() as u64;
    if are_apart(a_len, at.a, b_len, at.b) {
        return Reply::Done;
    }
    if reaches(a_len, at.a, b_len, at.b) {
        return Reply::Shared;
    }
    if reaches(b_len, at.b, a_len, at.a) {
        return Reply::Shared;
    }
    Reply::Done
}

/// Which window holds the octabyte that `addr` names.
#[tactic(auto, unfolding(model::specs::Memory::holder, model::specs::Memory::shapes_of))]
fn holder_of(a: &[u8], b: &[u8], at: Bases, addr: u64) -> Option<Window>
    ensures { number_of_holder result ≡ holder (shapes_of (lent at a.now b.now)) addr }
{
    if window::holds(b, at.b, addr) {
        return Some(Window::B);
    }
    if window::holds(a, at.a, addr) {
        return Some(Window::A);
    }
    None
}

/// The piece from `addr` up. One in A ends before B's base comes.
pub(crate) fn next_piece(a: &[u8], b: &[u8], at: Bases, addr: u64) -> Piece
    ensures { PieceIs (shapes_of (lent at a.now b.now)) addr (number_of_holder result.holder) result.octas }
{
    let in_b = window::room(b, at.b, addr);
    if in_b != 0 {
        return Piece {
            holder: Some(Window::B),
            octas: in_b,
        };
    }
    let in_a = window::room(a, at.a, addr);
    if in_a == 0 {
        return Piece {
            holder: None,
            octas: 1,
        };
    }
    let before_b = (u64::MAX - window::distance(at.b, addr)) / 8 + 1;
    Piece {
        holder: Some(Window::A),
        octas: in_a.min(before_b),
    }
}

/// What refuses the n octabytes from `addr` up, asked piece by piece.
fn pieces_refusal(a: &[u8], b: &[u8], at: Bases, addr: u64, n: u64) -> Reply
    ensures { number_of result ≡ worst (refusing (shapes_of (lent at a.now b.now))) addr n }
{
    // A while: a step is as long as the piece.
    let mut i: u64 = 0;
    let mut place = addr;
    while i < n {
        let next = next_piece(a, b, at, place);
        if next.holder.is_none() {
            return Reply::Missing;
        }
        if n - i <= next.octas {
            return Reply::Done;
        }
        i += next.octas;
        place = model::number::wrapping_add(place, 8 * next.octas);
    }
    Reply::Done
}

/// What refuses the n octabytes from `addr` up: Done where each lies in a window, else Missing. Where B has them all it is asked once.
#[tactic(auto, using(crate::proofs::RunRefused::within_b), unfolding(model::specs::Numbers::number_of, model::specs::Memory::shapes_of, model::specs::Memory::shape_of))]
pub fn run_refusal(a: &[u8], b: &[u8], at: Bases, addr: u64, n: u64) -> Reply
    ensures { number_of result ≡ worst (refusing (shapes_of (lent at a.now b.now))) addr n }
{
    if n <= window::room(b, at.b, addr) {
        return Reply::Done;
    }
    pieces_refusal(a, b, at, addr, n)
}

/// The octabyte that `addr` names, 0 where neither window holds it, and which does.
#[tactic(auto, using(crate::proofs::BothOctas::read_in_a, crate::proofs::BothOctas::read_in_b, crate::proofs::BothOctas::read_lost))]
pub fn read_octa(a: &[u8], b: &[u8], at: Bases, addr: u64) -> Octabyte
    ensures { (result.value ≡ read_octa (lent at a.now b.now) addr)
        × (number_of_holder result.holder ≡ holder (shapes_of (lent at a.now b.now)) addr) }
{
    let holder = holder_of(a, b, at, addr);
    match holder {
        Some(Window::A) => Octabyte {
            value: window::read_octa(a, at.a, addr),
            holder,
        },
        Some(Window::B) => Octabyte {
            value: window::read_octa(b, at.b, addr),
            holder,
        },
        None => Octabyte { value: 0, holder },
    }
}

/// The octabyte that `addr` names becomes v, and which window holds it; where neither does nothing changes.
#[tactic(auto, using(crate::proofs::BothOctas::write_in_a, crate::proofs::BothOctas::write_in_b, crate::proofs::BothOctas::write_lost))]
pub fn write_octa(a: &mut [u8], b: &mut [u8], at: Bases, addr: u64, v: u64) -> Option<Window>
    ensures { (lent at a.new b.new ≡ written_octa (lent at a.old b.old) addr v)
        × (number_of_holder result ≡ holder (shapes_of (lent at a.old b.old)) addr) }
{
    let holder = holder_of(a, b, at, addr);
    match holder {
        Some(Window::A) => window::write_octa(a, at.a, addr, v),
        Some(Window::B) => window::write_octa(b, at.b, addr, v),
        None => {}
    }
    holder
}
