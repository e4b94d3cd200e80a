// A stream of lines: a chunk at a time, the line that has not yet ended held.
ghost use Rattle.std.specs.Prelude.{◌≡◌, ◌+◌, ◌-◌, ◌≤◌, min, length, take, drop};
ghost use Rattle.model.specs.Octa.{written};
ghost use Rattle.point_lines.specs.Stream.{chunk_turn, held_after, bad_in};

use super::line::Widths;

const NEWLINE: u8 = b'\n';

/// Room for the longest line and its newline.
pub const HELD_LEN: usize = super::line::LONGEST_LINE + 1;

/// Bytes of the longest text that says that a line is bad.
const BAD_MOST: usize = 27;

/// What a chunk brings to the line that is held.
#[derive(Clone, Copy)]
pub enum Turn {
    /// It has no end yet, and there is room for one: so many bytes are held.
    More(usize),
    /// It ends, and is a point's.
    Good {
        /// So many bytes of the chunk are done with.
        used: usize,
        /// So many of those held are the line, its newline too.
        shown: usize,
        /// And so many digits its lengths and its state have.
        widths: Widths,
    },
    /// It is no point's: it ends so, or there is no room for its end.
    Bad,
}

// What is held and how long: the line grows in one buffer.
/// The chunk up to its first newline joins the line that is held, of which `held` has `count` bytes. A line that `held` has no room
/// for, its newline too, is no point's, however it goes on.
pub fn advance(chunk: &[u8], held: &mut [u8], count: usize) -> Turn
    ensures { (result ≡ chunk_turn held.old count chunk.now)
        × (held.new ≡ held_after held.old count chunk.now) }
{
    let end = text::read::line_end(chunk, 0);
    let next = keep(&chunk[..end], held, count);
    if held.len() <= next {
        return Turn::Bad;
    }
    if end == chunk.len() {
        return Turn::More(next);
    }
    let Some(widths) = super::line::widths_of(&held[..next]) else {
        return Turn::Bad;
    };
    held[next] = NEWLINE;
    Turn::Good {
        used: end + 1,
        shown: next + 1,
        widths,
    }
}

/// The text that says that line n is bad, at the start of `out`, and how long it is; none where there is no room for the longest such text. What is behind it stays.
pub fn put_bad(out: &mut [u8], n: u64) -> usize
    ensures { (take result out.new ≡ bad_in (length out.old) n) × (result ≤ length out.old)
        × (drop result out.new ≡ drop result out.old) }
{
    if out.len() < BAD_MOST {
        return 0;
    }
    text::write::put_bad(out, 0, n)
}

// Bytes join those held, as many as there is room for; how many there are then.
fn keep(more: &[u8], held: &mut [u8], count: usize) -> usize
    ensures { (held.new ≡ written held.old count more.now)
        × (result ≡ count + min (length more.now) (length held.old - count)) }
{
    let n = more.len().min(held.len().saturating_sub(count));
    if n > 0 {
        held[count..count + n].copy_from_slice(&more[..n]);
    }
    count + n
}
