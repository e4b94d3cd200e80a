// Of an image what a step touches: all that is no general register, and of those $x, $y, $z and $255, or all.
ghost use Rattle.std.specs.Prelude.{◌≡◌, true, cond, [], ◌∷◌, ℕ, ◌≤◌, ◌<◌, length, get_or};
ghost use Rattle.model.specs.Registers.{reg};
ghost use Rattle.model.specs.Parts.{made};
ghost use Rattle.model.specs.Few.{joined};
ghost use Rattle.model.specs.Kept.{image_length, old_image_length};
ghost use Rattle.machine.specs.Octabytes.{stored_octas};
ghost use Rattle.image.specs.Image.{state_of, is_image, image_as, stored_in};
ghost use Rattle.image.specs.Few.{few_of, touched_of, left_of};

use super::{AT_MASK, AT_REST, AT_SPECIAL, Rest};

// Where $255 is.
const AT_LAST: usize = 2040;

// The elements of an image are bytes, a fact that reading one of them tells. It does nothing: without it the proofs find no bound of a byte.
fn known(image: &[u8])
    requires { is_image image.now ≡ true }
    ensures { (i : ℕ) → get_or image.now i 0 < 256 }
{
    let _first = image[0];
}

// The special registers of an image go to the array; the rest is the answer. Where an old one has no mask, none is loaded.
pub(crate) fn load_rest(image: &[u8], special: &mut [u64; 32]) -> Rest
    requires { is_image image.now ≡ true }
    ensures { made (state_of image.now).general special.new result.pc result.halt result.marks result.mask
        ≡ state_of image.now }
{
    let mut numbers = [0u64; 3];
    let mut mask = [0u64; 1];
    machine::octabytes::load_octas(image, AT_SPECIAL, special);
    machine::octabytes::load_octas(image, AT_REST, &mut numbers);
    machine::octabytes::load_octas(image, AT_MASK, &mut mask);
    Rest {
        pc: numbers[0],
        halt: numbers[1],
        marks: numbers[2],
        mask: mask[0],
    }
}

/// The special registers of an image go to the array, and the rest is the answer; where it is as long as neither image, the array is left as it was and the
/// rest is 0.
pub fn load_beside(image: &[u8], special: &mut [u64; 32]) -> Rest
    ensures { made (state_of image.now).general special.new result.pc result.halt result.marks result.mask
        ≡ cond (is_image image.now) (state_of image.now)
        (made (state_of image.now).general special.old 0 0 0 0) }
{
    if !super::is_image(image) {
        return Rest::EMPTY;
    }
    load_rest(image, special)
}

// $k of an image.
fn register(image: &[u8], k: u8) -> u64
    requires { is_image image.now ≡ true }
    ensures { result ≡ reg (state_of image.now) k }
{
    let mut one = [0u64; 1];
    machine::octabytes::load_octas(image, 8 * (k as usize), &mut one);
    one[0]
}

// $x, $y, $z and $255 of an image.
fn load_few(image: &[u8], x: u8, y: u8, z: u8, general: &mut [u64; 256])
    requires { is_image image.now ≡ true }
    ensures { general.new ≡ few_of (state_of image.now).general x y z general.old }
{
    general[x as usize] = register(image, x);
    general[y as usize] = register(image, y);
    general[z as usize] = register(image, z);
    general[255] = register(image, 255);
}

// A flag beside x, y and z: the two ways differ by one call, the checks are one.
/// Of the general registers of an image $x, $y, $z and $255 go to the array where few are asked for, else all; where it is as long as neither image, the
/// array is left as it was.
pub fn load_touched(image: &[u8], few: bool, x: u8, y: u8, z: u8, general: &mut [u64; 256])
    ensures { general.new ≡ cond (is_image image.now)
        (touched_of few (state_of image.now).general x y z general.old) general.old }
{
    if !super::is_image(image) {
        return;
    }
    if few {
        load_few(image, x, y, z, general);
        return;
    }
    machine::octabytes::load_octas(image, 0, general);
}

// PC, halt code, marks and mask become these, as many as an image has room for. One loop whose turns are not known: of stores one after another the compiler
// makes stores of single bytes.
pub(crate) fn store_rest(image: &mut [u8], rest: Rest)
    requires { (old_image_length ≤ length image.old) × (length image.old ≤ image_length) }
    ensures { image.new
        ≡ stored_octas (stored_octas image.old 2304 (rest.pc ∷ rest.halt ∷ rest.marks ∷ [])) 2328 (rest.mask ∷ []) }
{
    let numbers = [rest.pc, rest.halt, rest.marks, rest.mask];
    let n = (image.len() - AT_REST) / 8;
    machine::octabytes::store_octas(&mut *image, AT_REST, &numbers[..n]);
}

// $x, $255 and what is no general register become those of a state in parts. Where an old one has no room for the mask, none is stored.
fn store_few(image: &mut [u8], x: u8, general: &[u64; 256], special: &[u64; 32], rest: Rest)
    requires { is_image image.old ≡ true }
    ensures { image.new ≡ image_as image.old (joined (state_of image.old) x
        (made general.now special.now rest.pc rest.halt rest.marks rest.mask)) }
{
    known(&*image);
    let one = [general[x as usize]];
    machine::octabytes::store_octas(&mut *image, 8 * (x as usize), &one);
    let last = [general[255]];
    machine::octabytes::store_octas(&mut *image, AT_LAST, &last);
    machine::octabytes::store_octas(&mut *image, AT_SPECIAL, special);
    store_rest(image, rest);
}

/// The image becomes that of a state in parts; of the general registers $x and $255 alone are stored where few were loaded. Where it has no room for the
/// mask, it is left as it was.
pub fn store_touched(
    image: &mut [u8],
    few: bool,
    x: u8,
    general: &[u64; 256],
    special: &[u64; 32],
    rest: Rest,
)
    ensures { image.new ≡ stored_in image.old (left_of few (state_of image.old) x
        (made general.now special.now rest.pc rest.halt rest.marks rest.mask)) }
{
    if !super::has_room(&*image, rest.mask) {
        return;
    }
    if few {
        store_few(image, x, general, special, rest);
        return;
    }
    super::store_parts(image, general, special, rest);
}
