// A point's room: filled from an image and two windows, judged, and read back. Bytes are copied, not decoded.
ghost use Rattle.std.specs.Prelude.{◌≡◌, ◌+◌, ◌*◌, ◌/◌, ◌≤◌, ◌<◌, length};
ghost use Rattle.model.specs.Octa.{part, written, value_of};
ghost use Rattle.model.specs.Memory.{window_max};
ghost use Rattle.model.specs.Kept.{image_length, old_image_length, octas_in, point_in, full};
ghost use Rattle.model.specs.Registers.{admissible};
ghost use Rattle.image.specs.Image.{has_room, state_of};
ghost use Rattle.points.specs.Store.{a_at, b_at, room_length, number_at, is_taken, filled, mask_in, suits};

use machine::window::WINDOW_MAX;
use model::{Bases, IMAGE_LEN, OLD_IMAGE_LEN};

// The image, its mask last; both bases, both lengths in octabytes and the octabyte that is 0 until taken; A's place; B's place.
const MASK_AT: usize = OLD_IMAGE_LEN;

const NUMBERS_AT: usize = IMAGE_LEN;

const A_AT: usize = NUMBERS_AT + 40;

const B_AT: usize = A_AT + WINDOW_MAX;

/// Bytes of a room.
pub(crate) const ROOM_LEN: usize = B_AT + WINDOW_MAX;

// A loop, as in `copy_out`: `copy_from_slice` is a call of memmove, and the library calls nothing but memcpy and memset.
// The bytes from `at` up become those of `from`.
fn copy_in(to: &mut [u8], at: usize, from: &[u8])
    requires { at + length from.now ≤ length to.old }
    ensures { to.new ≡ written to.old at from.now }
{
    for i in 0..from.len() {
        to[at + i] = from[i];
    }
}

// All of `to` becomes the bytes of `from` from `at` up.
fn copy_out(from: &[u8], at: usize, to: &mut [u8])
    requires { at + length to.old ≤ length from.now }
    ensures { to.new ≡ part from.now at (length to.old) }
{
    for i in 0..to.len() {
        to[i] = from[at + i];
    }
}

/// Each place is filled from its front; the mask is 0 before the image comes, since an old one leaves it.
pub(crate) fn fill(room: &mut [u8], at: Bases, image: &[u8], a: &[u8], b: &[u8])
    requires { (length room.old ≡ room_length) × (old_image_length ≤ length image.now) × (length image.now ≤ image_length)
        × (length a.now ≤ window_max) × (length b.now ≤ window_max) }
    ensures { room.new ≡ filled room.old (full (point_in image.now at.a at.b a.now b.now)) }
{
    let mask = [0u64; 1];
    let numbers = [at.a, at.b, (a.len() / 8) as u64, (b.len() / 8) as u64, 1];
    machine::octabytes::store_octas(&mut *room, MASK_AT, &mask);
    copy_in(&mut *room, 0, image);
    machine::octabytes::store_octas(&mut *room, NUMBERS_AT, &numbers);
    copy_in(&mut *room, A_AT, a);
    copy_in(&mut *room, B_AT, b);
}

// The octabyte from `at` up.
fn octabyte(room: &[u8], at: usize) -> u64
    requires { at + 8 ≤ length room.now }
    ensures { result ≡ value_of 0 (part room.now at 8) }
{
    let mut value = [0u64; 1];
    machine::octabytes::load_octas(room, at, &mut value);
    value[0]
}

// Octabyte k of the five after the image.
fn number(room: &[u8], k: usize) -> u64
    requires { (length room.now ≡ room_length) × (k < 5) }
    ensures { result ≡ number_at room.now k }
{
    octabyte(room, NUMBERS_AT + 8 * k)
}

/// Whether a point is taken.
#[tactic(auto, unfolding(crate::specs::Store::is_taken))]
pub(crate) fn is_taken(room: &[u8]) -> bool
    requires { length room.now ≡ room_length }
    ensures { result ≡ is_taken room.now }
{
    number(room, 4) != 0
}

// Whether the state in a room is admissible.
fn is_admissible(room: &[u8]) -> bool
    requires { length room.now ≡ room_length }
    ensures { result ≡ admissible (state_of (part room.now 0 image_length)) }
{
    image::is_admissible(&room[0..IMAGE_LEN])
}

/// Whether the room's point has the bases and lengths that are lent, and an admissible state.
#[tactic(auto, unfolding(crate::specs::Store::suits))]
pub(crate) fn suits(room: &[u8], at: Bases, a: &[u8], b: &[u8]) -> bool
    requires { length room.now ≡ room_length }
    ensures { result ≡ suits room.now at.a at.b (octas_in a.now) (octas_in b.now) }
{
    number(room, 0) == at.a
        && number(room, 1) == at.b
        && number(room, 2) == (a.len() / 8) as u64
        && number(room, 3) == (b.len() / 8) as u64
        && is_admissible(room)
}

/// Whether an image has room for the mask of the room's point.
pub(crate) fn mask_fits(room: &[u8], image: &[u8]) -> bool
    requires { length room.now ≡ room_length }
    ensures { result ≡ has_room image.now (mask_in room.now) }
{
    let mask = octabyte(room, MASK_AT);
    image::has_room(image, mask)
}

/// Image and windows become the room's, an old image without the mask.
pub(crate) fn restore(room: &[u8], image: &mut [u8], a: &mut [u8], b: &mut [u8])
    requires { (length room.now ≡ room_length) × (length image.old ≤ image_length) × (length a.old ≤ window_max) × (length b.old ≤ window_max) }
    ensures { (image.new ≡ part room.now 0 (length image.old))
        × (a.new ≡ part room.now a_at (length a.old))
        × (b.new ≡ part room.now b_at (length b.old)) }
{
    copy_out(room, 0, image);
    copy_out(room, A_AT, a);
    copy_out(room, B_AT, b);
}
