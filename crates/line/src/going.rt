// A line in the middle of a run, with the keystream block of its counter.
ghost use Rattle.std.specs.Prelude.{◌≡◌};
ghost use Rattle.aes.specs.Cipher.{aes128};
ghost use Rattle.line.specs.Good.{Good};

use super::record::Line;

#[derive(Clone, Copy)]
pub struct Going {
    pub line: Line,
    pub block: [u8; 16],
    ghost good: { Good line },
    ghost block_is: { block ≡ aes128 line.key line.position.counter },
}

impl Going {
    // A line before a run. That it is good stands here and not in the type of a line, of which 9 tells good ones from others.
    pub(crate) fn new(line: Line) -> Going
        requires { Good line }
        ensures { result.line ≡ line }
    {
        Going {
            line,
            block: aes::encipher(line.key, line.position.counter),
        }
    }

    // A line within a run: its block is made anew where the place is the first of a block.
    pub(crate) fn settled(line: Line, block: [u8; 16]) -> Going
        requires good { Good line }
        requires block_is { (line.position.place ≡ 0 → ⊥) → block ≡ aes128 line.key line.position.counter }
        ensures { result.line ≡ line }
    {
        if line.position.place == 0 {
            Going::new(line)
        } else {
            Going { line, block }
        }
    }

    // The blackout bits left.
    pub(crate) fn left(self) -> u16
        ensures { result ≡ self.line.left }
    {
        self.line.left
    }
}
