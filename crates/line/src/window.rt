// The window: the line bits seen while scanning, at most the last 7, as a number with its count (01, "Scanning").
ghost use Rattle.std.specs.Prelude.{◌≡◌, ◌^◌, ◌<◌, ◌≤◌, option_map};
ghost use Rattle.line.specs.Window.{window_bits, with_bit, window_after};

// The bits of a full window: with one more they are as many as the pattern's.
const FULL: u8 = 7;

#[derive(Clone, Copy)]
pub struct Window {
    pub bits: u8,
    pub seen: u8,
    ghost few: { seen ≤ 7 },
    ghost small: { bits < 2 ^ seen },
}

impl Window {
    // The window after one more line bit; none where the bits seen end in the pattern.
    #[inline]
    pub fn after(self, bit: bool, pattern: u8) -> Option<Window>
        ensures { option_map (λ w. window_bits w.seen w.bits) result ≡ window_after (with_bit self.seen self.bits bit) pattern }
    {
        let x = self.bits * 2 + bit as u8;
        if self.seen < FULL {
            let seen = self.seen + 1;
            Some(Window { bits: x, seen })
        } else if x == pattern {
            None
        } else {
            Some(Window {
                bits: x % 128,
                seen: 7,
            })
        }
    }
}
