//! What the C library does: what a relay host calls, on numbers and byte slices, which crate `mmix_c` exports. 0 is done; 1 to 33 are the refusals. `mmix_version` alone answers another number.
#![tactic(auto)]

ghost use Rattle.std.specs.Prelude.{◌≡◌};
ghost use Rattle.model.specs.Control.{branch_fields, jump_fields};
ghost use Rattle.model.specs.Field.{field_of, answer_of};
ghost use Rattle.model.specs.Parts.{made};
ghost use Rattle.model.specs.Kept.{point_in};
ghost use Rattle.image.specs.Image.{Decoded, Encoded};
ghost use Rattle.points.specs.Store.{Took, GoneBack};
ghost use Rattle.sets.specs.Sets.{pairs_of, pairs_in, PutSet};
ghost use Rattle.sets.specs.Answer.{number_in, place_in};
ghost use Rattle.tasks.specs.Images.{TasksRan};
ghost use Rattle.mmix.specs.Entries.{lent_at, version, Initialized, InitializedAt, Stepped, SteppedState, RanImage, RanState, Raised, RaisedState, SetImage, ContextAt, FieldTold};

use model::{Bases, Instruction, Reach, Reply, State, StateMut, WindowsMut, replies};
use sets::Failed;

mod step_image;

// The general register that a trip writes.
const LAST: u8 = 255;

/// The library's version, as the header names its own: what a change of each number promises is said there.
const VERSION_MAJOR: u64 = 6;

const VERSION_MINOR: u64 = 1;

/// 65536 × major + minor.
pub fn mmix_version() -> u64
    ensures { result ≡ version }
{
    65536 * VERSION_MAJOR + VERSION_MINOR
}

/// The image becomes that of the fresh state; 1 where it is as long as neither image.
pub fn mmix_initialize(image: &mut [u8]) -> u64
    ensures { Initialized image.old result image.new }
{
    u64::from(image::encode(&State::initialize(), image))
}

/// The same with the register stack at another address, any number: rO and rS are `stack_start`.
pub fn mmix_initialize_at(image: &mut [u8], stack_start: u64) -> u64
    ensures { InitializedAt stack_start image.old result image.new }
{
    u64::from(image::encode(&State::initialize_at(stack_start), image))
}

/// The lent state becomes that of the image; 1 where it is as long as neither image, and then the state is left as it was.
pub fn mmix_decode(image: &[u8], state: &mut State) -> u64
    ensures { Decoded image.now state.old result state.new }
{
    let Some(decoded) = image::decode(image) else {
        return replies::NOT_ADMISSIBLE;
    };
    *state = decoded;
    replies::DONE
}

/// The image becomes that of the lent state; 1 where it has no room for it, an old one for a mask, and then it is left as it was.
pub fn mmix_encode(state: &State, image: &mut [u8]) -> u64
    ensures { Encoded state.now image.old result image.new }
{
    u64::from(image::encode(state, image))
}

/// One step on an image and the two windows. Where it touches few general registers, these alone are decoded and encoded.
pub fn mmix_step(
    base_a: u64,
    base_b: u64,
    op: u8,
    x: u8,
    y: u8,
    z: u8,
    image: &mut [u8],
    a: &mut [u8],
    b: &mut [u8],
) -> u64
    ensures { Stepped image.old (lent_at base_a base_b a.old b.old) op x y z result
        image.new (lent_at base_a base_b a.new b.new) }
{
    if !image::is_image(&*image) {
        return replies::NOT_ADMISSIBLE;
    }
    let mut general = [0u64; 256];
    let mut special = [0u64; 32];
    let mut rest = image::few::load_beside(&*image, &mut special);
    let few = step_image::touches_few(&special, &Instruction { op, x, y, z });
    image::few::load_touched(&*image, few, x, y, z, &mut general);
    let reply = mmix_step_parts(
        base_a,
        base_b,
        op,
        x,
        y,
        z,
        &mut general,
        &mut special,
        &mut rest.pc,
        &mut rest.halt,
        rest.marks,
        rest.mask,
        a,
        b,
    );
    image::few::store_touched(&mut *image, few, x, &general, &special, rest);
    reply
}

/// A reply's number, and the state that it leaves.
#[derive(Clone, Copy)]
pub struct Answer {
    pub reply: u64,
    pub state: State,
}

/// One step on a state by value, in C's order: the step that mmix_step_lent calls.
pub fn step(
    base_a: u64,
    base_b: u64,
    op: u8,
    x: u8,
    y: u8,
    z: u8,
    mut state: State,
    a: &mut [u8],
    b: &mut [u8],
) -> Answer
    ensures { SteppedState (lent_at base_a base_b a.old b.old) state op x y z result.reply
        result.state (lent_at base_a base_b a.new b.new) }
{
    let reply = mmix_step_parts(
        base_a,
        base_b,
        op,
        x,
        y,
        z,
        &mut state.general,
        &mut state.special,
        &mut state.pc,
        &mut state.halt,
        state.marks,
        state.mask,
        a,
        b,
    );
    Answer { reply, state }
}

/// One step on a lent state, changed in place.
pub fn mmix_step_lent(
    base_a: u64,
    base_b: u64,
    op: u8,
    x: u8,
    y: u8,
    z: u8,
    state: &mut State,
    a: &mut [u8],
    b: &mut [u8],
) -> u64
    ensures { SteppedState (lent_at base_a base_b a.old b.old) state.old op x y z result
        state.new (lent_at base_a base_b a.new b.new) }
{
    let out = step(base_a, base_b, op, x, y, z, *state, &mut *a, &mut *b);
    *state = out.state;
    out.reply
}

/// A run on an image and the two windows: up to `grant` instructions, fetched at PC. `done` is how many were done.
pub fn mmix_run(
    base_a: u64,
    base_b: u64,
    grant: u64,
    image: &mut [u8],
    a: &mut [u8],
    b: &mut [u8],
    done: &mut u64,
) -> u64
    ensures { RanImage image.old (lent_at base_a base_b a.old b.old) grant result done.new
        image.new (lent_at base_a base_b a.new b.new) }
{
    if !image::is_image(&*image) {
        *done = 0;
        return replies::NOT_ADMISSIBLE;
    }
    let mut general = [0u64; 256];
    let mut special = [0u64; 32];
    let mut rest = image::load_state(&*image, &mut general, &mut special);
    let reply = mmix_run_parts(
        base_a,
        base_b,
        grant,
        &mut general,
        &mut special,
        &mut rest.pc,
        &mut rest.halt,
        rest.marks,
        rest.mask,
        a,
        b,
        done,
    );
    image::store_state(&mut *image, &general, &special, rest);
    reply
}

/// Several tasks on their images and the two windows, by turns of up to `q` instructions: `parts` has start and length of each task's part of B. `counts` becomes how
/// many each did, `refusals` the number that stopped it, or 0.
pub fn mmix_tasks(
    base_a: u64,
    base_b: u64,
    q: u64,
    grant: u64,
    images: &mut [u8],
    parts: &[u64],
    a: &mut [u8],
    b: &mut [u8],
    counts: &mut [u64; 8],
    refusals: &mut [u64; 8],
) -> u64
    ensures { TasksRan images.old (lent_at base_a base_b a.old b.old) parts.now q grant result
        images.new (lent_at base_a base_b a.new b.new) counts.new refusals.new }
{
    let at = Bases {
        a: base_a,
        b: base_b,
    };
    let mut windows = WindowsMut { a, b, at };
    let reply = tasks::run(&mut windows, q, grant, images, parts, counts, refusals);
    u64::from(reply)
}

/// One exception on an image: of the general registers $255 alone is decoded and encoded.
pub fn mmix_exceptions(
    flags: u8,
    op: u8,
    x: u8,
    y: u8,
    z: u8,
    y_val: u64,
    z_val: u64,
    image: &mut [u8],
) -> u64
    ensures { Raised image.old flags op x y z y_val z_val result image.new }
{
    if !image::is_image(&*image) {
        return replies::NOT_ADMISSIBLE;
    }
    let mut general = [0u64; 256];
    let mut special = [0u64; 32];
    let mut rest = image::few::load_beside(&*image, &mut special);
    image::few::load_touched(&*image, true, LAST, LAST, LAST, &mut general);
    let reply = mmix_exceptions_parts(
        flags,
        op,
        x,
        y,
        z,
        y_val,
        z_val,
        &mut general,
        &mut special,
        &mut rest.pc,
        &mut rest.halt,
        rest.marks,
        rest.mask,
    );
    image::few::store_touched(&mut *image, true, LAST, &general, &special, rest);
    reply
}

/// A set's number; `place` becomes that of the first pair that fails, or 0.
fn told(set: Result<(), Failed>, place: &mut u64) -> u64
    ensures { (result ≡ number_in set) × (place.new ≡ place_in set) }
{
    match set {
        Ok(()) => {
            *place = 0;
            replies::DONE
        }
        Err(failed) => {
            *place = failed.place;
            u64::from(failed.reply)
        }
    }
}

/// PUT for a whole set on an image: 16 bytes a pair, its register's number and the value. `place` becomes that of the first pair that fails, or 0.
pub fn mmix_put_set(image: &mut [u8], pairs: &[u8], place: &mut u64) -> u64
    ensures { SetImage image.old (pairs_in pairs.now) result place.new image.new }
{
    if !image::is_image(&*image) {
        *place = 0;
        return replies::NOT_ADMISSIBLE;
    }
    let mut general = [0u64; 256];
    let mut special = [0u64; 32];
    let mut rest = image::load_state(&*image, &mut general, &mut special);
    let mut state = StateMut {
        general: &mut general,
        special: &mut special,
        pc: &mut rest.pc,
        halt: &mut rest.halt,
        marks: rest.marks,
        mask: rest.mask,
    };
    let set = sets::put_set_bytes(&mut state, pairs);
    image::store_state(image, &general, &special, rest);
    told(set, place)
}

/// One step in place on the parts of a state, for a host that steps millions of times. In line in the function that C calls: else its fourteen parameters are
/// moved twice, and a SWYM takes 190 processor instructions in place of 153.
#[inline(always)]
pub fn mmix_step_parts(
    base_a: u64,
    base_b: u64,
    op: u8,
    x: u8,
    y: u8,
    z: u8,
    general: &mut [u64; 256],
    special: &mut [u64; 32],
    pc: &mut u64,
    halt: &mut u64,
    marks: u64,
    mask: u64,
    a: &mut [u8],
    b: &mut [u8],
) -> u64
    ensures { SteppedState (lent_at base_a base_b a.old b.old)
        (made general.old special.old pc.old halt.old marks mask) op x y z result
        (made general.new special.new pc.new halt.new marks mask)
        (lent_at base_a base_b a.new b.new) }
{
    let mut state = StateMut {
        general,
        special,
        pc,
        halt,
        marks,
        mask,
    };
    let at = Bases {
        a: base_a,
        b: base_b,
    };
    let mut windows = WindowsMut { a, b, at };
    let stepped = instruction::step::step(&mut state, &mut windows, &Instruction { op, x, y, z });
    u64::from(stepped)
}

/// A run in place on the parts of a state, for a host that runs programs: state and windows are judged once a call.
pub fn mmix_run_parts(
    base_a: u64,
    base_b: u64,
    grant: u64,
    general: &mut [u64; 256],
    special: &mut [u64; 32],
    pc: &mut u64,
    halt: &mut u64,
    marks: u64,
    mask: u64,
    a: &mut [u8],
    b: &mut [u8],
    done: &mut u64,
) -> u64
    ensures { RanState (lent_at base_a base_b a.old b.old)
        (made general.old special.old pc.old halt.old marks mask) grant result done.new
        (made general.new special.new pc.new halt.new marks mask)
        (lent_at base_a base_b a.new b.new) }
{
    let mut state = StateMut {
        general,
        special,
        pc,
        halt,
        marks,
        mask,
    };
    let at = Bases {
        a: base_a,
        b: base_b,
    };
    let mut windows = WindowsMut { a, b, at };
    let ran = instruction::run::run(&mut state, &mut windows, grant);
    *done = ran.done;
    u64::from(ran.reply)
}

/// One exception in place on the parts of a state.
pub fn mmix_exceptions_parts(
    flags: u8,
    op: u8,
    x: u8,
    y: u8,
    z: u8,
    y_val: u64,
    z_val: u64,
    general: &mut [u64; 256],
    special: &mut [u64; 32],
    pc: &mut u64,
    halt: &mut u64,
    marks: u64,
    mask: u64,
) -> u64
    ensures { RaisedState
        (made general.old special.old pc.old halt.old marks mask) flags op x y z y_val z_val result
        (made general.new special.new pc.new halt.new marks mask) }
{
    let mut state = StateMut {
        general,
        special,
        pc,
        halt,
        marks,
        mask,
    };
    let instruction = Instruction { op, x, y, z };
    let raised = exceptions::raise_exceptions(&mut state, flags, &instruction, y_val, z_val);
    u64::from(raised)
}

/// PUT for a whole set in place on the parts of a state: `pairs` are numbers of registers, each with its value behind it. PC stays as it is.
pub fn mmix_put_set_parts(
    general: &mut [u64; 256],
    special: &mut [u64; 32],
    pc: &mut u64,
    halt: &mut u64,
    marks: u64,
    mask: u64,
    pairs: &[u64],
    place: &mut u64,
) -> u64
    ensures { PutSet
        (made general.old special.old pc.old halt.old marks mask)
        (pairs_of pairs.now) result place.new
        (made general.new special.new pc.new halt.new marks mask) }
{
    let mut state = StateMut {
        general,
        special,
        pc,
        halt,
        marks,
        mask,
    };
    told(sets::put_set(&mut state, pairs), place)
}

/// Where the context saved at `address` lies: in which window, 0 for A and 1 for B, its first byte's index there and its length, all 0
/// where it is refused.
pub fn mmix_context(
    base_a: u64,
    base_b: u64,
    address: u64,
    a: &[u8],
    b: &[u8],
    which: &mut u64,
    start: &mut usize,
    length: &mut usize,
) -> u64
    ensures { ContextAt (lent_at base_a base_b a.now b.now) address result
        which.new start.new length.new }
{
    let at = Bases {
        a: base_a,
        b: base_b,
    };
    let place = contexts::reader::place_context(a, b, at, address);
    *which = place.which;
    *start = place.start;
    *length = place.size;
    let found = place.reply;
    u64::from(found)
}

/// State and windows are kept in the store under a name, 0 to 15.
pub fn mmix_take(
    base_a: u64,
    base_b: u64,
    name: u64,
    image: &[u8],
    a: &[u8],
    b: &[u8],
    store: &mut [u8],
) -> u64
    ensures { Took store.old name (point_in image.now base_a base_b a.now b.now) result
        store.new }
{
    let at = Bases {
        a: base_a,
        b: base_b,
    };
    let taken = points::take(at, name, image, a, b, store);
    u64::from(taken)
}

/// State and windows become those that the store keeps under a name.
pub fn mmix_go_back(
    base_a: u64,
    base_b: u64,
    name: u64,
    image: &mut [u8],
    a: &mut [u8],
    b: &mut [u8],
    store: &[u8],
) -> u64
    ensures { GoneBack store.now name (point_in image.old base_a base_b a.old b.old) result
        (point_in image.new base_a base_b a.new b.new) }
{
    let at = Bases {
        a: base_a,
        b: base_b,
    };
    let gone = points::go_back(at, name, image, a, b, store);
    u64::from(gone)
}

/// A search's number, and its direction and field into the outputs: backward 0 or 1; both 0 where it is refused.
fn tell_reach(reach: Reach, backward: &mut u8, field: &mut u32) -> u64
    ensures { FieldTold (answer_of reach) result backward.new field.new }
{
    match reach {
        Reach::Forward(found) => {
            *backward = 0;
            *field = found;
            u64::from(Reply::Done)
        }
        Reach::Backward(found) => {
            *backward = 1;
            *field = found;
            u64::from(Reply::Done)
        }
        Reach::Neither => {
            *backward = 0;
            *field = 0;
            u64::from(Reply::OutOfReach)
        }
    }
}

/// Which field YZ, of which direction, goes from an instruction's address to another.
pub fn mmix_branch_field(from: u64, to: u64, backward: &mut u8, field: &mut u32) -> u64
    ensures { FieldTold (answer_of (field_of branch_fields from to)) result backward.new field.new }
{
    let reach = decode::field::branch_field(from, to);
    tell_reach(reach, backward, field)
}

/// Which field XYZ, of which direction, goes from an instruction's address to another.
pub fn mmix_jump_field(from: u64, to: u64, backward: &mut u8, field: &mut u32) -> u64
    ensures { FieldTold (answer_of (field_of jump_fields from to)) result backward.new field.new }
{
    let reach = decode::field::jump_field(from, to);
    tell_reach(reach, backward, field)
}
