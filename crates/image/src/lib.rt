//! The state image: 292 octabytes, high byte first; an old one has no mask, and 291.
#![tactic(auto)]

ghost use Rattle.std.specs.Prelude.{◌≡◌, true, cond, ◌&&◌};
ghost use Rattle.model.specs.Registers.{admissible};
ghost use Rattle.model.specs.Numbers.{number_of};
ghost use Rattle.model.specs.Parts.{made};
ghost use Rattle.image.specs.Image.{state_of, is_image, has_room, image_as, stored_in, Encoded};

use model::{IMAGE_LEN, OLD_IMAGE_LEN, Reply, State};

pub mod few;

// Where the special registers start, where PC, halt code and marks, and where the mask.
pub(crate) const AT_SPECIAL: usize = 2048;

pub(crate) const AT_REST: usize = 2304;

pub(crate) const AT_MASK: usize = OLD_IMAGE_LEN;

/// What a state has beside its registers.
#[derive(Clone, Copy)]
pub struct Rest {
    pub pc: u64,
    pub halt: u64,
    pub marks: u64,
    pub mask: u64,
}

impl Rest {
    const EMPTY: Rest = Rest {
        pc: 0,
        halt: 0,
        marks: 0,
        mask: 0,
    };
}

/// Whether bytes are as long as an image, old or not.
#[tactic(auto, unfolding(crate::specs::Image::is_image))]
pub fn is_image(image: &[u8]) -> bool
    ensures { result ≡ is_image image.now }
{
    image.len() == IMAGE_LEN || image.len() == OLD_IMAGE_LEN
}

/// Whether an image has room for a state with this mask: an old one only where that is 0.
#[tactic(auto, unfolding(crate::specs::Image::has_room))]
pub fn has_room(image: &[u8], mask: u64) -> bool
    ensures { result ≡ has_room image.now mask }
{
    image.len() == IMAGE_LEN || (image.len() == OLD_IMAGE_LEN && mask == 0)
}

// The registers of an image go to the arrays; the rest is the answer. Where an old one has no mask, none is loaded.
fn load_parts(image: &[u8], general: &mut [u64; 256], special: &mut [u64; 32]) -> Rest
    requires { is_image image.now ≡ true }
    ensures { made general.new special.new result.pc result.halt result.marks result.mask ≡ state_of image.now }
{
    machine::octabytes::load_octas(image, 0, general);
    few::load_rest(image, special)
}

// The image becomes that of a state in parts. Where an old one has no room for the mask, none is stored. In line, so that the rest is not copied for a call.
#[inline(always)]
pub(crate) fn store_parts(image: &mut [u8], general: &[u64; 256], special: &[u64; 32], rest: Rest)
    requires { is_image image.old ≡ true }
    ensures { image.new
        ≡ image_as image.old (made general.now special.now rest.pc rest.halt rest.marks rest.mask) }
{
    machine::octabytes::store_octas(&mut *image, 0, general);
    machine::octabytes::store_octas(&mut *image, AT_SPECIAL, special);
    few::store_rest(image, rest);
}

/// The registers of an image go to the arrays, and the rest is the answer; where it is as long as neither image, the arrays are left as they were
/// and the rest is 0.
pub fn load_state(image: &[u8], general: &mut [u64; 256], special: &mut [u64; 32]) -> Rest
    ensures { made general.new special.new result.pc result.halt result.marks result.mask
        ≡ cond (is_image image.now) (state_of image.now) (made general.old special.old 0 0 0 0) }
{
    if !is_image(image) {
        return Rest::EMPTY;
    }
    load_parts(image, general, special)
}

/// Whether bytes are the image of an admissible state.
pub fn is_admissible(image: &[u8]) -> bool
    ensures { result ≡ is_image image.now && admissible (state_of image.now) }
{
    if !is_image(image) {
        return false;
    }
    let mut general = [0u64; 256];
    let mut special = [0u64; 32];
    let rest = load_state(image, &mut general, &mut special);
    machine::registers::admissible(&special, rest.marks, rest.mask)
}

/// The image becomes that of a state in parts; where it has no room for it, it is left as it was.
pub fn store_state(image: &mut [u8], general: &[u64; 256], special: &[u64; 32], rest: Rest)
    ensures { image.new
        ≡ stored_in image.old (made general.now special.now rest.pc rest.halt rest.marks rest.mask) }
{
    if has_room(&*image, rest.mask) {
        store_parts(image, general, special, rest);
    }
}

/// The state of an image, where bytes are as long as one.
pub fn decode(image: &[u8]) -> Option<State>
    ensures { result ≡ cond (is_image image.now) (Some (state_of image.now)) None }
{
    if !is_image(image) {
        return None;
    }
    let mut general = [0; 256];
    let mut special = [0; 32];
    let Rest {
        pc,
        halt,
        marks,
        mask,
    } = load_parts(image, &mut general, &mut special);
    Some(State {
        general,
        special,
        pc,
        halt,
        marks,
        mask,
    })
}

/// The image becomes that of the state; where it has no room for it, that is not admissible and it is left as it was.
pub fn encode(state: &State, image: &mut [u8]) -> Reply
    ensures { Encoded state.now image.old (number_of result) image.new }
{
    if !has_room(&*image, state.mask) {
        return Reply::NotAdmissible;
    }
    let rest = Rest {
        pc: state.pc,
        halt: state.halt,
        marks: state.marks,
        mask: state.mask,
    };
    store_parts(image, &state.general, &state.special, rest);
    Reply::Done
}
