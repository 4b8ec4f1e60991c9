// A stretch of a run: bits within one keystream block, scanned up to the earliest match, or within one blackout.
ghost use Rattle.std.specs.Prelude.{◌≡◌, ◌+◌, ◌≤◌, ◌<◌};
ghost use Rattle.line.specs.Inner.{Room, Stretched, moved_on, scanned_to, darkened_by};

use super::going::Going;
use super::record::Line;
use super::search::Finding;
use super::window::Window;
use super::{cover, search};
use counter::Position;

// A line after a stretch, and the number of its bits.
#[derive(Clone, Copy)]
pub struct Stretch {
    pub going: Going,
    pub done: usize,
}

// The position n bits on: those before the last one lie within the block.
fn moved(p: Position, n: usize) -> Position
    requires { (0 < n) × (p.place + n ≤ 128) }
    ensures { result ≡ moved_on p n }
{
    let mut last = Position {
        place: p.place + (n - 1) as u8,
        ..p
    };
    last.advance();
    last
}

// The line after the bits that the scanner took: where it found the pattern, the blackout begins with the next bit.
fn scanned_to(line: Line, f: Finding) -> Line
    requires { (0 < f.count) × (line.position.place + f.count ≤ 128) }
    ensures { result ≡ scanned_to line f }
{
    Line {
        position: moved(line.position, f.count),
        window: f.window.bits,
        seen: f.window.seen,
        left: if f.found {
            128 * line.l as u16
        } else {
            line.left
        },
        ..line
    }
}

// A stretch of scanning. A stretch of a blackout begins and ends alike, but takes another number of bits, and to another line: both are written out.
pub(crate) fn scan_stretch(
    input: &[u8],
    output: &mut [u8],
    from: usize,
    n: usize,
    g: Going,
) -> Stretch
    requires room { Room input.now output.old from n }
    requires scanning { (0 < n) × (g.line.left ≡ 0) }
    ensures { Stretched input.now output.old from n g result output.new }
{
    let line = g.line;
    let place = line.position.place as usize;
    let m = n.min(128 - place);
    let c = cover::cover(input, from, m, g.block, place, line.receiving);
    let window = Window {
        bits: line.window,
        seen: line.seen,
    };
    let f = search::search(c.carried, m, window, line.pattern);
    bits::write(output, from, c.out, f.count);
    Stretch {
        going: Going::settled(scanned_to(line, f), g.block),
        done: f.count,
    }
}

// The line after m bits of a blackout: at its last bit the collected IV becomes the counter.
fn darkened_by(line: Line, carried: [u8; 16], m: usize) -> Line
    requires { (0 < m) × (m ≤ line.left) × (line.position.place + m ≤ 128) × (line.collected ≤ 128) }
    ensures { result ≡ darkened_by line carried m }
{
    let collected = line.collected as usize;
    let taken = m.min(128 - collected);
    let mut iv = line.iv;
    bits::write(&mut iv, collected, carried, taken);
    if m < line.left as usize {
        Line {
            position: moved(line.position, m),
            left: line.left - m as u16,
            iv,
            collected: line.collected + taken as u8,
            ..line
        }
    } else {
        Line {
            position: Position {
                counter: iv,
                place: 0,
            },
            left: 0,
            iv: [0; 16],
            collected: 0,
            ..line
        }
    }
}

// A stretch of a blackout.
pub(crate) fn dark_stretch(
    input: &[u8],
    output: &mut [u8],
    from: usize,
    n: usize,
    g: Going,
) -> Stretch
    requires room { Room input.now output.old from n }
    requires dark { (0 < n) × (0 < g.line.left) }
    ensures { Stretched input.now output.old from n g result output.new }
{
    let line = g.line;
    let place = line.position.place as usize;
    let m = n.min(128 - place).min(line.left as usize);
    let c = cover::cover(input, from, m, g.block, place, line.receiving);
    bits::write(output, from, c.out, m);
    Stretch {
        going: Going::settled(darkened_by(line, c.carried, m), g.block),
        done: m,
    }
}
