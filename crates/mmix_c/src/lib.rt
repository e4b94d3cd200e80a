//! The C library: what a relay host calls, on numbers and byte slices. Each function is that of crate `mmix` of the same name.
#![tactic(auto)]

ghost use Rattle.std.specs.Prelude.{◌≡◌};
ghost use Rattle.model.specs.Control.{branch_fields, jump_fields};
ghost use Rattle.model.specs.Field.{field_of, answer_of};
ghost use Rattle.model.specs.Parts.{made};
ghost use Rattle.model.specs.Kept.{point_in};
ghost use Rattle.image.specs.Image.{Decoded, Encoded};
ghost use Rattle.points.specs.Store.{Took, GoneBack};
ghost use Rattle.sets.specs.Sets.{pairs_of, pairs_in, PutSet};
ghost use Rattle.tasks.specs.Images.{TasksRan};
ghost use Rattle.mmix.specs.Entries.{lent_at, version, Initialized, InitializedAt, Stepped, SteppedState, RanImage, RanState, Raised, RaisedState, SetImage, ContextAt, FieldTold};

use model::State;

/// 65536 × major + minor.
#[unsafe(no_mangle)]
pub extern "C" fn mmix_version() -> u64
    ensures { result ≡ version }
{
    mmix::mmix_version()
}

/// The image becomes that of the fresh state; 1 where it is as long as neither image.
#[unsafe(no_mangle)]
pub extern "C" fn mmix_initialize(image: &mut [u8]) -> u64
    ensures { Initialized image.old result image.new }
{
    mmix::mmix_initialize(image)
}

/// The same with the register stack at another address, any number: rO and rS are `stack_start`.
#[unsafe(no_mangle)]
pub extern "C" fn mmix_initialize_at(image: &mut [u8], stack_start: u64) -> u64
    ensures { InitializedAt stack_start image.old result image.new }
{
    mmix::mmix_initialize_at(image, stack_start)
}

/// The lent state becomes that of the image; 1 where it is as long as neither image, and then the state is left as it was.
#[unsafe(no_mangle)]
pub extern "C" fn mmix_decode(image: &[u8], state: &mut State) -> u64
    ensures { Decoded image.now state.old result state.new }
{
    mmix::mmix_decode(image, state)
}

/// The image becomes that of the lent state; 1 where it has no room for it, an old one for a mask, and then it is left as it was.
#[unsafe(no_mangle)]
pub extern "C" fn mmix_encode(state: &State, image: &mut [u8]) -> u64
    ensures { Encoded state.now image.old result image.new }
{
    mmix::mmix_encode(state, image)
}

/// One step on an image and the two windows. Where it touches few general registers, these alone are decoded and encoded.
#[unsafe(no_mangle)]
pub extern "C" fn mmix_step(
    base_a: u64,
    base_b: u64,
    op: u8,
    x: u8,
    y: u8,
    z: u8,
    image: &mut [u8],
    a: &mut [u8],
    b: &mut [u8],
) -> u64
    ensures { Stepped image.old (lent_at base_a base_b a.old b.old) op x y z result
        image.new (lent_at base_a base_b a.new b.new) }
{
    mmix::mmix_step(base_a, base_b, op, x, y, z, image, a, b)
}

/// One step on a lent state, changed in place.
#[unsafe(no_mangle)]
pub extern "C" fn mmix_step_lent(
    base_a: u64,
    base_b: u64,
    op: u8,
    x: u8,
    y: u8,
    z: u8,
    state: &mut State,
    a: &mut [u8],
    b: &mut [u8],
) -> u64
    ensures { SteppedState (lent_at base_a base_b a.old b.old) state.old op x y z result
        state.new (lent_at base_a base_b a.new b.new) }
{
    mmix::mmix_step_lent(base_a, base_b, op, x, y, z, state, a, b)
}

/// A run on an image and the two windows: up to `grant` instructions, fetched at PC. `done` is how many were done.
#[unsafe(no_mangle)]
pub extern "C" fn mmix_run(
    base_a: u64,
    base_b: u64,
    grant: u64,
    image: &mut [u8],
    a: &mut [u8],
    b: &mut [u8],
    done: &mut u64,
) -> u64
    ensures { RanImage image.old (lent_at base_a base_b a.old b.old) grant result done.new
        image.new (lent_at base_a base_b a.new b.new) }
{
    mmix::mmix_run(base_a, base_b, grant, image, a, b, done)
}

/// Several tasks on their images and the two windows, by turns of up to `q` instructions: `parts` has start and length of each task's part of B. `counts` becomes how
/// many each did, `refusals` the number that stopped it, or 0.
#[unsafe(no_mangle)]
pub extern "C" fn mmix_tasks(
    base_a: u64,
    base_b: u64,
    q: u64,
    grant: u64,
    images: &mut [u8],
    parts: &[u64],
    a: &mut [u8],
    b: &mut [u8],
    counts: &mut [u64; 8],
    refusals: &mut [u64; 8],
) -> u64
    ensures { TasksRan images.old (lent_at base_a base_b a.old b.old) parts.now q grant result
        images.new (lent_at base_a base_b a.new b.new) counts.new refusals.new }
{
    mmix::mmix_tasks(
        base_a, base_b, q, grant, images, parts, a, b, counts, refusals,
    )
}

/// One exception on an image: of the general registers $255 alone is decoded and encoded.
#[unsafe(no_mangle)]
pub extern "C" fn mmix_exceptions(
    flags: u8,
    op: u8,
    x: u8,
    y: u8,
    z: u8,
    y_val: u64,
    z_val: u64,
    image: &mut [u8],
) -> u64
    ensures { Raised image.old flags op x y z y_val z_val result image.new }
{
    mmix::mmix_exceptions(flags, op, x, y, z, y_val, z_val, image)
}

/// PUT for a whole set on an image: 16 bytes a pair, its register's number and the value. `place` becomes that of the first pair that fails, or 0.
#[unsafe(no_mangle)]
pub extern "C" fn mmix_put_set(image: &mut [u8], pairs: &[u8], place: &mut u64) -> u64
    ensures { SetImage image.old (pairs_in pairs.now) result place.new image.new }
{
    mmix::mmix_put_set(image, pairs, place)
}

/// One step in place on the parts of a state, for a host that steps millions of times.
#[unsafe(no_mangle)]
pub extern "C" fn mmix_step_parts(
    base_a: u64,
    base_b: u64,
    op: u8,
    x: u8,
    y: u8,
    z: u8,
    general: &mut [u64; 256],
    special: &mut [u64; 32],
    pc: &mut u64,
    halt: &mut u64,
    marks: u64,
    mask: u64,
    a: &mut [u8],
    b: &mut [u8],
) -> u64
    ensures { SteppedState (lent_at base_a base_b a.old b.old)
        (made general.old special.old pc.old halt.old marks mask) op x y z result
        (made general.new special.new pc.new halt.new marks mask)
        (lent_at base_a base_b a.new b.new) }
{
    mmix::mmix_step_parts(
        base_a, base_b, op, x, y, z, general, special, pc, halt, marks, mask, a, b,
    )
}

/// A run in place on the parts of a state, for a host that runs programs: state and windows are judged once a call.
#[unsafe(no_mangle)]
pub extern "C" fn mmix_run_parts(
    base_a: u64,
    base_b: u64,
    grant: u64,
    general: &mut [u64; 256],
    special: &mut [u64; 32],
    pc: &mut u64,
    halt: &mut u64,
    marks: u64,
    mask: u64,
    a: &mut [u8],
    b: &mut [u8],
    done: &mut u64,
) -> u64
    ensures { RanState (lent_at base_a base_b a.old b.old)
        (made general.old special.old pc.old halt.old marks mask) grant result done.new
        (made general.new special.new pc.new halt.new marks mask)
        (lent_at base_a base_b a.new b.new) }
{
    mmix::mmix_run_parts(
        base_a, base_b, grant, general, special, pc, halt, marks, mask, a, b, done,
    )
}

/// One exception in place on the parts of a state.
#[unsafe(no_mangle)]
pub extern "C" fn mmix_exceptions_parts(
    flags: u8,
    op: u8,
    x: u8,
    y: u8,
    z: u8,
    y_val: u64,
    z_val: u64,
    general: &mut [u64; 256],
    special: &mut [u64; 32],
    pc: &mut u64,
    halt: &mut u64,
    marks: u64,
    mask: u64,
) -> u64
    ensures { RaisedState
        (made general.old special.old pc.old halt.old marks mask) flags op x y z y_val z_val result
        (made general.new special.new pc.new halt.new marks mask) }
{
    mmix::mmix_exceptions_parts(
        flags, op, x, y, z, y_val, z_val, general, special, pc, halt, marks, mask,
    )
}

/// PUT for a whole set in place on the parts of a state: `pairs` are numbers of registers, each with its value behind it. PC stays as it is.
#[unsafe(no_mangle)]
pub extern "C" fn mmix_put_set_parts(
    general: &mut [u64; 256],
    special: &mut [u64; 32],
    pc: &mut u64,
    halt: &mut u64,
    marks: u64,
    mask: u64,
    pairs: &[u64],
    place: &mut u64,
) -> u64
    ensures { PutSet
        (made general.old special.old pc.old halt.old marks mask)
        (pairs_of pairs.now) result place.new
        (made general.new special.new pc.new halt.new marks mask) }
{
    mmix::mmix_put_set_parts(general, special, pc, halt, marks, mask, pairs, place)
}

/// Where the context saved at `address` lies: in which window, 0 for A and 1 for B, its first byte's index there and its length, all 0
/// where it is refused.
#[unsafe(no_mangle)]
pub extern "C" fn mmix_context(
    base_a: u64,
    base_b: u64,
    address: u64,
    a: &[u8],
    b: &[u8],
    which: &mut u64,
    start: &mut usize,
    length: &mut usize,
) -> u64
    ensures { ContextAt (lent_at base_a base_b a.now b.now) address result
        which.new start.new length.new }
{
    mmix::mmix_context(base_a, base_b, address, a, b, which, start, length)
}

/// State and windows are kept in the store under a name, 0 to 15.
#[unsafe(no_mangle)]
pub extern "C" fn mmix_take(
    base_a: u64,
    base_b: u64,
    name: u64,
    image: &[u8],
    a: &[u8],
    b: &[u8],
    store: &mut [u8],
) -> u64
    ensures { Took store.old name (point_in image.now base_a base_b a.now b.now) result
        store.new }
{
    mmix::mmix_take(base_a, base_b, name, image, a, b, store)
}

/// State and windows become those that the store keeps under a name.
#[unsafe(no_mangle)]
pub extern "C" fn mmix_go_back(
    base_a: u64,
    base_b: u64,
    name: u64,
    image: &mut [u8],
    a: &mut [u8],
    b: &mut [u8],
    store: &[u8],
) -> u64
    ensures { GoneBack store.now name (point_in image.old base_a base_b a.old b.old) result
        (point_in image.new base_a base_b a.new b.new) }
{
    mmix::mmix_go_back(base_a, base_b, name, image, a, b, store)
}

/// Which field YZ, of which direction, goes from an instruction's address to another.
#[unsafe(no_mangle)]
pub extern "C" fn mmix_branch_field(from: u64, to: u64, backward: &mut u8, field: &mut u32) -> u64
    ensures { FieldTold (answer_of (field_of branch_fields from to)) result backward.new field.new }
{
    mmix::mmix_branch_field(from, to, backward, field)
}

/// Which field XYZ, of which direction, goes from an instruction's address to another.
#[unsafe(no_mangle)]
pub extern "C" fn mmix_jump_field(from: u64, to: u64, backward: &mut u8, field: &mut u32) -> u64
    ensures { FieldTold (answer_of (field_of jump_fields from to)) result backward.new field.new }
{
    mmix::mmix_jump_field(from, to, backward, field)
}
