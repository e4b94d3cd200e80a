// Octabytes in a slice of bytes, high byte first: one, and a run of them whose bound is tested once. A window's and an image's alike.
ghost use Rattle.std.specs.Prelude.{◌≡◌, ◌+◌, ◌*◌, ◌≤◌, ◌<◌, leb, length, get_or, take};
ghost use Rattle.model.specs.Octa.{part, written, value_of, bytes_of};
ghost use Rattle.machine.specs.Octabytes.{flat, octas, loaded_octas, stored_octas};

// The eight bytes from `at` up as a number. Byte by byte, here and in `store`: `copy_from_slice` asks whether the parts overlap, and with it a step on an image
// took 19 % more instructions.
pub(crate) fn load(bytes: &[u8], at: usize) -> u64
    requires { at + 8 ≤ length bytes.now }
    ensures { result ≡ value_of 0 (part bytes.now at 8) }
{
    u64::from_be_bytes([
        bytes[at],
        bytes[at + 1],
        bytes[at + 2],
        bytes[at + 3],
        bytes[at + 4],
        bytes[at + 5],
        bytes[at + 6],
        bytes[at + 7],
    ])
}

// The eight bytes from `at` up become those of v.
pub(crate) fn store(bytes: &mut [u8], at: usize, v: u64)
    requires { at + 8 ≤ length bytes.old }
    ensures { bytes.new ≡ written bytes.old at (bytes_of v) }
{
    let octa = v.to_be_bytes();
    for k in 0..8usize {
        bytes[at + k] = octa[k];
    }
}

// As many octabytes as `values` has room for, from `at` up, one by one: a frame has few, and four at a time PUSHJ and POP took 6 % more instructions.
pub(crate) fn load_each(bytes: &[u8], at: usize, values: &mut [u64])
    requires { at + 8 * length values.old ≤ length bytes.now }
    ensures { values.new ≡ octas bytes.now at (length values.old) }
{
    for i in 0..values.len() {
        values[i] = load(bytes, at + 8 * i);
    }
}

// The octabytes from `at` up become `values`, one by one, as in load_each.
pub(crate) fn store_each(bytes: &mut [u8], at: usize, values: &[u64])
    requires { at + 8 * length values.now ≤ length bytes.old }
    ensures { bytes.new ≡ written bytes.old at (flat values.now) }
{
    for i in 0..values.len() {
        store(bytes, at + 8 * i, values[i]);
    }
}

// Octabytes from `at` up, by fours, as many as `values` has room for; how many they are is the answer. Four at a time take fewer instructions than four times one.
fn load_fours(bytes: &[u8], at: usize, values: &mut [u64]) -> usize
    requires { at + 8 * length values.old ≤ length bytes.now }
    ensures { (result ≤ length values.new) × (take result values.new ≡ octas bytes.now at result) }
{
    let mut i = 0;
    while 4 <= values.len() - i {
        values[i] = load(bytes, at + 8 * i);
        values[i + 1] = load(bytes, at + 8 * (i + 1));
        values[i + 2] = load(bytes, at + 8 * (i + 2));
        values[i + 3] = load(bytes, at + 8 * (i + 3));
        i += 4;
    }
    i
}

// As many octabytes as `values` has room for, from `at` up.
fn load_all(bytes: &[u8], at: usize, values: &mut [u64])
    requires { at + 8 * length values.old ≤ length bytes.now }
    ensures { values.new ≡ octas bytes.now at (length values.old) }
{
    let loaded = load_fours(bytes, at, values);
    for i in loaded..values.len() {
        values[i] = load(bytes, at + 8 * i);
    }
}

// The octabytes from `at` up become the first `values`, by fours, as in load_fours; how many they are is the answer.
fn store_fours(bytes: &mut [u8], at: usize, values: &[u64]) -> usize
    requires { at + 8 * length values.now ≤ length bytes.old }
    ensures { (result ≤ length values.now)
        × (bytes.new ≡ written bytes.old at (flat (take result values.now))) }
{
    let mut i = 0;
    while 4 <= values.len() - i {
        store(bytes, at + 8 * i, values[i]);
        store(bytes, at + 8 * (i + 1), values[i + 1]);
        store(bytes, at + 8 * (i + 2), values[i + 2]);
        store(bytes, at + 8 * (i + 3), values[i + 3]);
        i += 4;
    }
    i
}

// The octabytes from `at` up become `values`.
fn store_all(bytes: &mut [u8], at: usize, values: &[u64])
    requires { at + 8 * length values.now ≤ length bytes.old }
    ensures { bytes.new ≡ written bytes.old at (flat values.now) }
{
    let stored = store_fours(bytes, at, values);
    for i in stored..values.len() {
        store(bytes, at + 8 * i, values[i]);
    }
}

// Whether n octabytes from `at` up lie in `len` bytes.
fn fits(len: usize, at: usize, n: usize) -> bool
    ensures { result ≡ leb (at + 8 * n) len }
{
    at <= len && n <= (len - at) / 8
}

/// The octabytes from `at` up go to `values`, as many as these are; where they are not all there, `values` is left as it was.
#[tactic(auto, unfolding(crate::specs::Octabytes::loaded_octas))]
pub fn load_octas(bytes: &[u8], at: usize, values: &mut [u64])
    ensures { values.new ≡ loaded_octas bytes.now at values.old }
{
    if fits(bytes.len(), at, values.len()) {
        load_all(bytes, at, values);
    }
}

/// The octabytes from `at` up become `values`; where they are not all there, `bytes` is left as it was.
#[tactic(auto, unfolding(crate::specs::Octabytes::stored_octas))]
pub fn store_octas(bytes: &mut [u8], at: usize, values: &[u64])
    ensures { bytes.new ≡ stored_octas bytes.old at values.now }
{
    if fits(bytes.len(), at, values.len()) {
        store_all(bytes, at, values);
    }
}
