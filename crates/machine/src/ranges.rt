// Runs of registers to and from the octabytes of the two lent windows, piece by piece, each in one window.
ghost use Rattle.std.specs.Prelude.{◌≡◌, ℕ, ◌+◌, ◌-◌, ◌*◌, ◌<◌, ◌≤◌, get_or};
ghost use Rattle.model.specs.Fill.{over};
ghost use Rattle.model.specs.Memory.{holder};
ghost use Rattle.model.specs.Parts.{lent};
ghost use Rattle.machine.specs.Octas.{read_octa, written_run, written_range};

use super::memory::next_piece;
use super::{registers, window};
use model::{Bases, Window};

/// Where a piece of k octabytes that starts with register `from` ends, at most `to`.
fn end_of(k: u64, from: u64, to: u64) -> u64
    requires { (from < to) × (0 < k) }
    ensures { (result ≤ from + k) × (from < result) × (result ≤ to) }
{
    from + k.min(to - from)
}

/// The registers from `from` up become the octabytes of the piece from `addr` up, at most to `to`; how far. The octabyte that neither window
/// holds is 0.
fn load_piece(
    general: &mut [u64; 256],
    a: &[u8],
    b: &[u8],
    at: Bases,
    addr: u64,
    from: u64,
    to: u64,
) -> u64
    requires { (from < to) × (to ≤ 256) }
    ensures { (general.new
        ≡ over (λ (k : ℕ). read_octa (lent at a.now b.now) (addr + 8 * (k - from))) from result general.old)
        × (from < result) × (result ≤ to) }
{
    let next = next_piece(a, b, at, addr);
    let end = end_of(next.octas, from, to);
    match next.holder {
        Some(Window::A) => window::load_range(general, a, at.a, addr, from, end),
        Some(Window::B) => window::load_range(general, b, at.b, addr, from, end),
        None => registers::clear_range(general, from, end),
    }
    end
}

/// The general registers from `from` up to, not including, `to` become the octabytes from `addr` up, piece by piece; there are 256, whatever `to` says.
fn load_pieces(
    general: &mut [u64; 256],
    a: &[u8],
    b: &[u8],
    at: Bases,
    addr: u64,
    from: u64,
    to: u64,
)
    ensures { general.new
        ≡ over (λ (k : ℕ). read_octa (lent at a.now b.now) (addr + 8 * (k - from))) from to general.old }
{
    let end = to.min(256);
    let mut i = from;
    // A while: a step is as long as the piece.
    while i < end {
        let place = model::number::wrapping_add(addr, 8 * (i - from));
        i = load_piece(general, a, b, at, place, i, end);
    }
}

/// The general registers from `from` up to, not including, `to` become the octabytes from `addr` up; there are 256, whatever `to` says. Where B has them all it is
/// asked once.
pub fn load_range(
    general: &mut [u64; 256],
    a: &[u8],
    b: &[u8],
    at: Bases,
    addr: u64,
    from: u64,
    to: u64,
)
    ensures { general.new
        ≡ over (λ (k : ℕ). read_octa (lent at a.now b.now) (addr + 8 * (k - from))) from to general.old }
{
    if window::has_room(b, at.b, addr, from, to) {
        window::load_range(general, b, at.b, addr, from, to);
        return;
    }
    load_pieces(general, a, b, at, addr, from, to);
}

/// The registers from `from` up go to the octabytes of the piece from `addr` up, at most to `to`; how far.
fn store_piece(
    general: &[u64; 256],
    a: &mut [u8],
    b: &mut [u8],
    at: Bases,
    addr: u64,
    from: u64,
    to: u64,
) -> u64
    requires { (from < to) × (to ≤ 256) }
    ensures { (lent at a.new b.new
        ≡ written_run (lent at a.old b.old) addr (result - from) (λ (i : ℕ). get_or general.now (from + i) 0))
        × (from < result) × (result ≤ to) }
{
    let next = next_piece(a, b, at, addr);
    let end = end_of(next.octas, from, to);
    match next.holder {
        Some(Window::A) => window::store_range(general, a, at.a, addr, from, end),
        Some(Window::B) => window::store_range(general, b, at.b, addr, from, end),
        None => {}
    }
    end
}

/// The general registers from `from` up to, not including, `to` go to the octabytes from `addr` up, piece by piece; those in neither window go nowhere.
fn store_pieces(
    general: &[u64; 256],
    a: &mut [u8],
    b: &mut [u8],
    at: Bases,
    addr: u64,
    from: u64,
    to: u64,
)
    ensures { lent at a.new b.new
        ≡ written_range (lent at a.old b.old) addr from to general.now }
{
    let end = to.min(256);
    let mut i = from;
    // A while: a step is as long as the piece.
    while i < end {
        let place = model::number::wrapping_add(addr, 8 * (i - from));
        i = store_piece(general, a, b, at, place, i, end);
    }
}

/// They go to the octabytes from `addr` up; those in neither window go nowhere.
pub fn store_range(
    general: &[u64; 256],
    a: &mut [u8],
    b: &mut [u8],
    at: Bases,
    addr: u64,
    from: u64,
    to: u64,
)
    ensures { lent at a.new b.new
        ≡ written_range (lent at a.old b.old) addr from to general.now }
{
    if window::has_room(b, at.b, addr, from, to) {
        window::store_range(general, b, at.b, addr, from, to);
        return;
    }
    store_pieces(general, a, b, at, addr, from, to);
}
