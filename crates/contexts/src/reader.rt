// The context reader: a saved context as a part of one of the caller's windows. The C library hands out the part as numbers, by
// `place_context`; `read_context` hands out the part itself, for a caller in this language: no crate here is one.
ghost use Rattle.std.specs.Prelude.{◌≡◌, ◌≤◌, ◌<◌};
ghost use Rattle.model.specs.Memory.{shapes_of};
ghost use Rattle.model.specs.Plan.{worst};
ghost use Rattle.model.specs.Step.{unruled_by, refusing};
ghost use Rattle.model.specs.Parts.{lent};
ghost use Rattle.machine.specs.Octas.{lent_one};
ghost use Rattle.contexts.specs.SaveUnsave.{place_at, part_in, held_part, PlaceIs, PartIs};

use super::layout::{CONTEXT_OCTAS, ContextError};
use model::{Bases, Reply};

/// The windows' numbers, as the C library hands them out.
const IN_A: u64 = 0;

const IN_B: u64 = 1;

// Numbers and no Result: what C is handed, 0 where refused.
/// Where a context lies: the reply, the window's number, its first byte's index there and its length; all three 0 where it is refused.
#[derive(Clone, Copy)]
pub struct Place {
    pub reply: Reply,
    pub which: u64,
    pub start: usize,
    pub size: usize,
}

fn nowhere(reply: Reply) -> Place
    ensures { result ≡ place_at reply 0 0 0 }
{
    Place {
        reply,
        which: 0,
        start: 0,
        size: 0,
    }
}

/// The octabytes from `first` up as a part of the window of number `which`; 23 where it has no room for them all.
fn part_in(window: &[u8], base: u64, which: u64, first: u64, octas: u64) -> Place
    requires { octas ≤ 270 }
    ensures { result ≡ part_in which (lent_one base window.now) first octas }
{
    if machine::window::room(window, base, first) < octas {
        return nowhere(Reply::Across);
    }
    Place {
        reply: Reply::Done,
        which,
        start: machine::window::distance(base, first) as usize,
        size: 8 * octas as usize,
    }
}

/// The octabytes from `first` up, each of them lent, as a part of the window that holds the first; 23 where they lie across both.
fn held_part(a: &[u8], b: &[u8], at: Bases, first: u64, octas: u64) -> Place
    requires { (0 < octas) × (octas ≤ 270) × (unruled_by (shapes_of (lent at a.now b.now)) ≡ 0)
        × (worst (refusing (shapes_of (lent at a.now b.now))) first octas ≡ 0) }
    ensures { result ≡ held_part (lent at a.now b.now) first octas }
{
    if machine::window::room(b, at.b, first) != 0 {
        return part_in(b, at.b, IN_B, first, octas);
    }
    part_in(a, at.a, IN_A, first, octas)
}

/// The context whose packed octabyte is at `address`, first local to packed octabyte, after UNSAVE's own checks;
/// refused by 2, 22, 6, 14, 15, 16 or 23.
pub fn place_context(a: &[u8], b: &[u8], at: Bases, address: u64) -> Place
    ensures { PlaceIs (lent at a.now b.now) address result }
{
    let refusal = machine::memory::windows_refusal(a, b, at);
    if refusal != Reply::Done {
        return nowhere(refusal);
    }
    let located = super::layout::locate(a, b, at, address);
    match located {
        Ok(context) => {
            let octas = context.count + CONTEXT_OCTAS - context.rg;
            held_part(a, b, at, context.first, octas)
        }
        Err(ContextError::Bad(reply)) => nowhere(reply),
        Err(ContextError::Lost(reply)) => nowhere(reply),
    }
}

// Outputs and no Result: the slice comes back whatever the reply, as the reader promises.
/// That part of the window that held it, with the reply's number and the window's; refused, A's first 0 bytes.
pub fn read_context<'w>(
    a: &'w [u8],
    b: &'w [u8],
    at: Bases,
    address: u64,
    reply: &mut u64,
    which: &mut u64,
) -> &'w [u8]
    ensures { PartIs at a.entry b.entry address result reply.new which.new }
{
    let found = place_context(a, b, at, address);
    let start = found.start;
    let end = start + found.size;
    let answer = found.reply;
    *reply = u64::from(answer);
    *which = found.which;
    if found.which == IN_B {
        return &b[start..end];
    }
    &a[start..end]
}
