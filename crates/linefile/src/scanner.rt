// The scanner of line bits: where patterns end (01, "Scanning", "Blackout"; what `syncs` prints).
ghost use Rattle.std.specs.Prelude.{◌≡◌, ◌+◌, ◌*◌, ◌^◌, ◌<◌, ◌≤◌, length, set};
ghost use Rattle.std.proofs.lemmas.List.Edits.{sets};
ghost use Rattle.bits.specs.Bits.{part};
ghost use Rattle.mode.specs.Ends.{pattern_ends};
ghost use Rattle.linefile.specs.Syncs.{scanned as scannedBy};

use line::window::Window;

// The scanner between two line bits: its window, which is empty in a blackout, and the blackout bits left.
#[derive(Clone, Copy)]
pub struct Scanner {
    pub window: Window,
    pub left: u16,
    ghost dark: { 0 < left → window.seen ≡ 0 },
}

// The scanner after a line bit, which there is in either case, and whether a pattern ended there.
#[derive(Clone, Copy)]
pub struct Scanned {
    pub scanner: Scanner,
    pub found: bool,
}

impl Scanner {
    ghost use Rattle.linefile.specs.Inner.{Looked};

    // Before the first line bit.
    fn new() -> Scanner
        ensures { (result.window.bits ≡ 0) × (result.window.seen ≡ 0) × (result.left ≡ 0) }
    {
        Scanner {
            window: Window { bits: 0, seen: 0 },
            left: 0,
        }
    }

    // One line bit.
    fn look(self, bit: bool, pattern: u8, l: u8) -> Scanned
        ensures { Looked self bit pattern l result }
    {
        let Scanner { window, left } = self;
        if 0 < left {
            let left = left - 1;
            return Scanned {
                scanner: Scanner { window, left },
                found: false,
            };
        }
        match window.after(bit, pattern) {
            Some(window) => Scanned {
                scanner: Scanner { window, left: 0 },
                found: false,
            },
            None => Scanned {
                scanner: Scanner {
                    window: Window { bits: 0, seen: 0 },
                    left: 128 * l as u16,
                },
                found: true,
            },
        }
    }
}

// Stores x at place k; past the end nothing is stored. Not by `get_mut`, after which only the length of d is known.
fn put(d: &mut [u32], k: usize, x: u32)
    ensures { d.new ≡ set d.old k x }
{
    if k < d.len() {
        d[k] = x;
    }
}

// Stores the ends of the patterns in n line bits, from bit `from` of s on, at the start of d, as many as it holds, and answers how many there are.
pub(crate) fn list_ends(s: &[u8], from: usize, n: usize, pattern: u8, l: u8, d: &mut [u32]) -> usize
    requires { (from + n ≤ 8 * length s.now) × (from + n < 2 ^ 32) }
    ensures value { result ≡ length (pattern_ends (scannedBy pattern l) (part s.now from n)) }
    ensures d_after { d.new ≡ sets d.old 0 (pattern_ends (scannedBy pattern l) (part s.now from n)) }
{
    let mut scanner = Scanner::new();
    let mut count = 0;
    for i in 0..n {
        let t = scanner.look(bits::get(s, from + i) == 1, pattern, l);
        scanner = t.scanner;
        if t.found {
            put(d, count, i as u32 + 1);
            count += 1;
        }
    }
    count
}
