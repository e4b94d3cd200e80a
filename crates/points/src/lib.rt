//! Points to return to: sixteen rooms in one lent store, in order of name.
#![tactic(auto)]

ghost use Rattle.std.specs.Prelude.{◌≡◌};
ghost use Rattle.model.specs.Kept.{point_in};
ghost use Rattle.model.specs.Numbers.{number_of};
ghost use Rattle.points.specs.Store.{Took, GoneBack};

use model::{Bases, Reply};
use room::ROOM_LEN;

mod room;

const POINTS: u64 = 16;

const STORE_LEN: usize = POINTS as usize * ROOM_LEN;

/// State and windows are kept under a name: 1, 2, 22, 26 and 27 are judged before the first byte is written.
pub fn take(at: Bases, name: u64, image: &[u8], a: &[u8], b: &[u8], store: &mut [u8]) -> Reply
    ensures { Took store.old name (point_in image.now at.a at.b a.now b.now) (number_of result)
        store.new }
{
    if !image::is_admissible(image) {
        return Reply::NotAdmissible;
    }
    let refusal = machine::memory::windows_refusal(a, b, at);
    if refusal != Reply::Done {
        return refusal;
    }
    if store.len() < STORE_LEN {
        return Reply::StoreTooShort;
    }
    if name >= POINTS {
        return Reply::NoPoint;
    }
    let start = name as usize * ROOM_LEN;
    let end = start + ROOM_LEN;
    room::fill(&mut store[start..end], at, image, a, b);
    Reply::Done
}

/// State and windows become those kept under a name: 1 of the image's length, 2, 22, 26, 27, 28, and 1 of an old image that has no room for the
/// mask are judged before the first byte is written.
pub fn go_back(
    at: Bases,
    name: u64,
    image: &mut [u8],
    a: &mut [u8],
    b: &mut [u8],
    store: &[u8],
) -> Reply
    ensures { GoneBack store.now name (point_in image.old at.a at.b a.old b.old) (number_of result)
        (point_in image.new at.a at.b a.new b.new) }
{
    if !image::is_image(&*image) {
        return Reply::NotAdmissible;
    }
    let refusal = machine::memory::windows_refusal(&*a, &*b, at);
    if refusal != Reply::Done {
        return refusal;
    }
    if store.len() < STORE_LEN {
        return Reply::StoreTooShort;
    }
    if name >= POINTS {
        return Reply::NoPoint;
    }
    let start = name as usize * ROOM_LEN;
    let end = start + ROOM_LEN;
    let room = &store[start..end];
    if !room::is_taken(room) {
        return Reply::NoPoint;
    }
    if !room::suits(room, at, &*a, &*b) {
        return Reply::OtherPoint;
    }
    if !room::mask_fits(room, &*image) {
        return Reply::NotAdmissible;
    }
    room::restore(room, image, a, b);
    Reply::Done
}
