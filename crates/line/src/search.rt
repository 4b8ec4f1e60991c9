// The scanner: line bits are taken one by one into the window until it ends in the pattern (01, "Scanning").
ghost use Rattle.std.specs.Prelude.{◌≤◌};
ghost use Rattle.line.specs.Inner.{Found};

use super::window::Window;

// How many bits were scanned, the window after them, and whether the last of them ended a pattern. The first two there are in either case,
// and the line takes both alike.
#[derive(Clone, Copy)]
pub struct Finding {
    pub count: usize,
    pub window: Window,
    pub found: bool,
}

// The earliest match in the first n of these bits.
pub(crate) fn search(bits: [u8; 16], n: usize, mut window: Window, pattern: u8) -> Finding
    requires { n ≤ 128 }
    ensures { Found bits n window.bits window.seen pattern result }
{
    for i in 0..n {
        match window.after(bits::get(&bits, i) == 1, pattern) {
            Some(next) => window = next,
            None => {
                return Finding {
                    count: i + 1,
                    window: Window { bits: 0, seen: 0 },
                    found: true,
                };
            }
        }
    }
    Finding {
        count: n,
        window,
        found: false,
    }
}
