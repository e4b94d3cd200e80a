// The octabytes of one lent window (memory.rs). Distances from the base wrap at 2^64, so a window may cross the end of memory.
ghost use Rattle.std.specs.Prelude.{◌≡◌, cond, ℕ, ◌+◌, ◌-◌, ◌*◌, ◌^◌, ◌<◌, ◌≤◌, get_or};
ghost use Rattle.model.specs.Fill.{over};
ghost use Rattle.model.specs.Memory.{shape_of, ruled_one, offset, has, one};
ghost use Rattle.machine.specs.Octas.{lent_one, room_in, held_range, read_by, written_by, written_run_by};

use super::octabytes;

/// The longest window, in bytes.
pub const WINDOW_MAX: usize = 1048576;

/// Whether length and base obey the window's rule.
#[tactic(auto, unfolding(model::specs::Memory::ruled_one, model::specs::Memory::shape_of))]
pub fn is_ruled(window: &[u8], base: u64) -> bool
    ensures { result ≡ ruled_one (shape_of (lent_one base window.now)) }
{
    let len = window.len();
    base % 8 == 0 && len % 8 == 0 && len <= WINDOW_MAX
}

/// The distance from the base to the octabyte that `addr` names.
#[tactic(auto, using(crate::proofs::RunTest::offset_of))]
pub fn distance(base: u64, addr: u64) -> u64
    ensures { result ≡ offset base addr }
{
    model::number::wrapping_sub(addr - addr % 8, base)
}

/// How many octabytes from `addr` up lie in the window.
#[tactic(auto, unfolding(crate::specs::Octas::room_in, model::specs::Memory::shape_of))]
pub fn room(window: &[u8], base: u64, addr: u64) -> u64
    ensures { (result ≡ room_in (shape_of (lent_one base window.now)) addr) × (8 * result < 2 ^ 64) }
{
    let at = distance(base, addr);
    let len = window.len() as u64;
    if len < at {
        return 0;
    }
    (len - at) / 8
}

/// Whether the octabyte that `addr` names lies in the window.
#[tactic(auto, unfolding(model::specs::Memory::has, model::specs::Memory::shape_of))]
pub fn holds(window: &[u8], base: u64, addr: u64) -> bool
    ensures { result ≡ has (shape_of (lent_one base window.now)) addr }
{
    let len = window.len() as u64;
    8 <= len && distance(base, addr) <= len - 8
}

/// Whether the registers from `from` up to, not including, `to` are some of the 256 and the window has room for them from `addr` up.
#[tactic(auto, unfolding(crate::specs::Octas::held_range))]
pub(crate) fn has_room(window: &[u8], base: u64, addr: u64, from: u64, to: u64) -> bool
    ensures { result ≡ held_range (shape_of (lent_one base window.now)) addr from to }
{
    from < to && to <= 256 && to - from <= room(window, base, addr)
}

/// The octabyte that `addr` names, or 0 where it lies outside the window.
#[tactic(auto, using(crate::proofs::Octas::has_fits, crate::proofs::Octas::has_read, crate::proofs::Octas::none_read))]
pub fn read_octa(window: &[u8], base: u64, addr: u64) -> u64
    ensures { result ≡ read_by one (lent_one base window.now) addr }
{
    if !holds(window, base, addr) {
        return 0;
    }
    let at = distance(base, addr) as usize;
    octabytes::load(window, at)
}

/// The octabyte that `addr` names becomes v; a window that does not hold it is left as it was.
#[tactic(auto, using(crate::proofs::Octas::has_fits, crate::proofs::Octas::has_written, crate::proofs::Octas::none_written))]
pub fn write_octa(window: &mut [u8], base: u64, addr: u64, v: u64)
    ensures { lent_one base window.new ≡ written_by one (lent_one base window.old) addr v }
{
    if !holds(window, base, addr) {
        return;
    }
    let at = distance(base, addr) as usize;
    octabytes::store(window, at, v);
}

/// The general registers from `from` up to, not including, `to` become the octabytes from `addr` up, which the window holds.
pub(crate) fn load_range(
    general: &mut [u64; 256],
    window: &[u8],
    base: u64,
    addr: u64,
    from: u64,
    to: u64,
)
    requires { (from < to) × (to ≤ 256) × (to ≤ from + room_in (shape_of (lent_one base window.now)) addr) }
    ensures { general.new
        ≡ over (λ (k : ℕ). read_by one (lent_one base window.now) (addr + 8 * (k - from))) from to general.old }
{
    let at = distance(base, addr) as usize;
    octabytes::load_each(window, at, &mut general[from as usize..to as usize]);
}

/// They go to the octabytes from `addr` up, which the window holds.
pub(crate) fn store_range(
    general: &[u64; 256],
    window: &mut [u8],
    base: u64,
    addr: u64,
    from: u64,
    to: u64,
)
    requires { (from < to) × (to ≤ 256) × (to ≤ from + room_in (shape_of (lent_one base window.old)) addr) }
    ensures { lent_one base window.new
        ≡ written_run_by one (lent_one base window.old) addr (to - from) (λ (i : ℕ). get_or general.now (from + i) 0) }
{
    let at = distance(base, addr) as usize;
    octabytes::store_each(window, at, &general[from as usize..to as usize]);
}

/// They go there where the window has room for them all, and else nothing changes; whether it has.
pub fn store_held(
    general: &[u64; 256],
    window: &mut [u8],
    base: u64,
    addr: u64,
    from: u64,
    to: u64,
) -> bool
    ensures { (result ≡ held_range (shape_of (lent_one base window.old)) addr from to)
        × (lent_one base window.new ≡ cond (held_range (shape_of (lent_one base window.old)) addr from to)
        (written_run_by one (lent_one base window.old) addr (to - from) (λ (i : ℕ). get_or general.now (from + i) 0))
        (lent_one base window.old)) }
{
    if has_room(&*window, base, addr, from, to) {
        store_range(general, window, base, addr, from, to);
        return true;
    }
    false
}
