// A run over packed bits: a scanning run and a blackout run call each other (01, "The bit rule").
ghost use Rattle.std.specs.Prelude.{◌≡◌, ◌<◌};
ghost use Rattle.line.specs.Good.{Good};
ghost use Rattle.line.specs.Inner.{Room, Ran, Whole};

use super::going::Going;
use super::record::Line;
use super::stretch;

// Scans until a match, and then goes on in the blackout. The two runs stay apart, since 01 has them call each other; no `for` fits, since a stretch takes as
// many bits as it finds; and the output is lent anew to each call, so that it can stand in no struct with the input and the place.
#[cycle(dark_run_scan_run)]
fn scan_run(input: &[u8], output: &mut [u8], from: usize, n: usize, g: Going) -> Going
    requires room { Room input.now output.old from n }
    requires scanning { g.line.left ≡ 0 }
    ensures { Ran input.now output.old from n g result output.new }
{
    let mut h = g;
    let mut i = from;
    let end = from + n;
    while i < end {
        let t = stretch::scan_stretch(input, output, i, end - i, h);
        h = t.going;
        i += t.done;
        if h.left() != 0 {
            return dark_run(input, output, i, end - i, h);
        }
    }
    h
}

// Goes on to the end of the blackout, and then scans.
#[cycle(dark_run_scan_run)]
fn dark_run(input: &[u8], output: &mut [u8], from: usize, n: usize, g: Going) -> Going
    requires room { Room input.now output.old from n }
    requires dark { 0 < g.line.left }
    ensures { Ran input.now output.old from n g result output.new }
{
    let mut h = g;
    let mut i = from;
    let end = from + n;
    while i < end {
        let t = stretch::dark_stretch(input, output, i, end - i, h);
        h = t.going;
        i += t.done;
        if h.left() == 0 {
            return scan_run(input, output, i, end - i, h);
        }
    }
    h
}

// A run from whichever state the line is in.
fn piece(input: &[u8], output: &mut [u8], from: usize, n: usize, g: Going) -> Going
    requires room { Room input.now output.old from n }
    ensures { Ran input.now output.old from n g result output.new }
{
    if g.line.left == 0 {
        scan_run(input, output, from, n, g)
    } else {
        dark_run(input, output, from, n, g)
    }
}

// A run of n bits from bit 0 on, in pieces of at most 4,096 bits: the two runs call each other at each match, and a piece bounds how deep that goes.
pub(crate) fn whole(line: Line, n: usize, input: &[u8], output: &mut [u8]) -> Going
    requires good { Good line }
    requires room { Room input.now output.old 0 n }
    ensures { Whole input.now output.old n line result.line output.new }
{
    let mut going = Going::new(line);
    for at in (0..n).step_by(4096) {
        going = piece(input, output, at, (n - at).min(4096), going);
    }
    going
}
