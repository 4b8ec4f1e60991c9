// The counter and the place in its block, moved on bit by bit (01, "The counter"; source document 003).
#![tactic(auto)]

ghost use Rattle.std.specs.Prelude.{◌≡◌, ◌<◌};
ghost use Rattle.bits.specs.Bits.{bits_of};
ghost use Rattle.counter.specs.Counter.{r, feedback, stepped_bytes, advanced};

// Sixteen bytes, r127 in the top bit of byte 0, and the place of the next keystream bit in the block that they make.
#[derive(Clone, Copy)]
pub struct Position {
    pub counter: [u8; 16],
    pub place: u8,
}

// The bit r k.
#[tactic(auto, using(bits::proofs::Packed::small_bits))]
fn r(c: [u8; 16], k: usize) -> u8
    requires { k < 128 }
    ensures { (result ≡ r (bits_of c) k) × (result < 2) }
{
    bits::get(&c, 127 - k)
}

// The new r127.
#[tactic(auto, unfolding(crate::specs::Counter::feedback))]
fn feedback(c: [u8; 16]) -> u8
    ensures { (result ≡ feedback (bits_of c)) × (result < 2) }
{
    (r(c, 29) + r(c, 17) + r(c, 2) + r(c, 0)) % 2
}

// One step: r127 to r1 lie one place down, under the new r127.
#[tactic(auto, using(crate::proofs::Laws::wrote_stepped))]
pub fn step(c: [u8; 16]) -> [u8; 16]
    ensures { result ≡ stepped_bytes c }
{
    let mut next = [0u8; 16];
    next[0] = feedback(c) * 128;
    bits::write(&mut next, 1, c, 127);
    next
}

impl Position {
    // The position of the keystream bit after this one's.
    #[tactic(auto, using(crate::proofs::Laws::advanced_in_block, crate::proofs::Laws::advanced_at_end))]
    pub fn onward(self) -> Position
        ensures { result ≡ advanced self }
    {
        let Position { counter, place } = self;
        if place < 127 {
            Position {
                counter,
                place: place + 1,
            }
        } else {
            Position {
                counter: step(counter),
                place: 0,
            }
        }
    }

    // The position is moved on where it lies.
    pub fn advance(&mut self)
        ensures { self.new ≡ advanced self.old }
    {
        *self = self.onward();
    }
}
