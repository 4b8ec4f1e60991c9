// What goes out for a stretch of bits within one keystream block, and the line bits of it (01, "The bit rule").
ghost use Rattle.std.specs.Prelude.{◌≡◌, ◌+◌, ◌*◌, ◌≤◌, length};
ghost use Rattle.bits.specs.Bits.{bits_of, part};
ghost use Rattle.mode.specs.Words.{plus};
ghost use Rattle.line.specs.Inner.{Covers};

// Bit by bit the sum modulo 2. aes has its own sum of two words, which are FIPS 197's.
fn sum(a: [u8; 16], b: [u8; 16]) -> [u8; 16]
    ensures { bits_of result ≡ plus (bits_of a) (bits_of b) }
{
    let mut sum = a;
    for i in 0..16 {
        sum[i] ^= b[i];
    }
    sum
}

// What comes out, and the line bits.
#[derive(Clone, Copy)]
pub struct Covered {
    pub out: [u8; 16],
    pub carried: [u8; 16],
}

// n bits of the input from bit `from` on, under the keystream bits of a block from a place on.
pub(crate) fn cover(
    input: &[u8],
    from: usize,
    n: usize,
    block: [u8; 16],
    place: usize,
    receiving: bool,
) -> Covered
    requires { (from + n ≤ 8 * length input.now) × (place + n ≤ 128) }
    ensures { Covers (part input.now from n) (part block place n) receiving n result }
{
    let given = bits::read(input, from, n);
    let keys = bits::read(&block, place, n);
    let out = sum(given, keys);
    if receiving {
        Covered {
            out,
            carried: given,
        }
    } else {
        Covered { out, carried: out }
    }
}
