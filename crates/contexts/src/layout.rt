// Where a context lies in the windows, below its packed octabyte. One of l locals and threshold g has l + 270 − g octabytes: the locals,
// their count, 256 − g globals, the twelve specials, and the packed octabyte.
ghost use Rattle.model.specs.Parts.{lent};
ghost use Rattle.contexts.specs.SaveUnsave.{LayoutIs, LocatedIs, FromLayout};

use model::{Bases, Reply};

/// How many special registers a context has.
pub(crate) const CONTEXT_SPECIALS: usize = 12;

/// l + this − g is the number of its first special, of its packed octabyte, and how many octabytes there are.
pub(crate) const AT_SPECIALS: u64 = 257;

pub const AT_PACKED: u64 = 269;

pub const CONTEXT_OCTAS: u64 = 270;

/// The packed octabyte is rG times this, and rA.
pub const PACKED_RG: u64 = 0x100000000000000;

/// Below a saved context's packed octabyte: how many locals it has, and the address of the first. (The Rust's other fields serve nobody here.)
#[derive(Clone, Copy)]
pub struct SaveContextLayout {
    pub local_count: u64,
    pub locals_base: u64,
}

/// Why a context has no layout.
#[derive(Clone, Copy)]
pub enum LayoutError {
    /// The local count is above the saved rG (16).
    Excess(u64),
    /// The local count is in neither window: the reply that says so.
    Outside(Reply),
}

/// A context each octabyte of which is lent, by one window or the other: the address of its first local, its rG, rA and local count.
#[derive(Clone, Copy)]
pub struct SavedContext {
    pub first: u64,
    pub rg: u64,
    pub ra: u64,
    pub count: u64,
}

/// Why there is no context, with the reply that says so.
#[derive(Clone, Copy)]
pub enum ContextError {
    /// What is there is no context (14, 15, 16).
    Bad(Reply),
    /// An octabyte of it is in neither window (6).
    Lost(Reply),
}

impl From<LayoutError> for ContextError {
    ghost from_gives = { FromLayout };

    fn from(error: LayoutError) -> ContextError {
        match error {
            LayoutError::Excess(_) => ContextError::Bad(Reply::SavedCount),
            LayoutError::Outside(reply) => ContextError::Lost(reply),
        }
    }
}

/// The parts of the context whose packed octabyte is at `packed_addr`, for its rG; the count is compared at full width.
pub fn save_context_layout(
    a: &[u8],
    b: &[u8],
    at: Bases,
    packed_addr: u64,
    rg_saved: u8,
) -> Result<SaveContextLayout, LayoutError>
    ensures { LayoutIs (lent at a.now b.now) packed_addr rg_saved result }
{
    let rg = rg_saved as u64;
    let marker = model::number::wrapping_sub(packed_addr, 8 * (AT_PACKED - rg));
    let reply = machine::memory::run_refusal(a, b, at, marker, 1);
    if reply != Reply::Done {
        return Err(LayoutError::Outside(reply));
    }
    let octa = machine::memory::read_octa(a, b, at, marker);
    let count = octa.value;
    if rg < count {
        return Err(LayoutError::Excess(count));
    }
    let locals_base = model::number::wrapping_sub(packed_addr, 8 * (count + AT_PACKED - rg));
    Ok(SaveContextLayout {
        local_count: count,
        locals_base,
    })
}

/// The context whose packed octabyte is at `address`, after UNSAVE's own checks.
pub fn locate(a: &[u8], b: &[u8], at: Bases, address: u64) -> Result<SavedContext, ContextError>
    ensures { LocatedIs (lent at a.now b.now) address result }
{
    let reply = machine::memory::run_refusal(a, b, at, address, 1);
    if reply != Reply::Done {
        return Err(ContextError::Lost(reply));
    }
    let octa = machine::memory::read_octa(a, b, at, address);
    let packed = octa.value;
    let rg = packed / PACKED_RG;
    let ra = packed % PACKED_RG;
    if rg < machine::registers::THRESHOLD_MIN {
        return Err(ContextError::Bad(Reply::SavedThreshold));
    }
    if machine::registers::STATUS_MAX < ra {
        return Err(ContextError::Bad(Reply::SavedStatus));
    }
    let layout = save_context_layout(a, b, at, address, rg as u8)?;
    let count = layout.local_count;
    let first = layout.locals_base;
    let short = machine::memory::run_refusal(a, b, at, first, count + CONTEXT_OCTAS - rg);
    if short != Reply::Done {
        return Err(ContextError::Lost(short));
    }
    Ok(SavedContext {
        first,
        rg,
        ra,
        count,
    })
}
