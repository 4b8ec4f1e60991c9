// The field of 256 elements (FIPS 197, 4.2): multiplication by x, and the product.
ghost use Rattle.std.specs.Prelude.{◌≡◌};
ghost use Rattle.aes.specs.Field.{low as low_of, xtime as xtimeOf, ◌•◌};

// Multiplication by x: the bit that falls out adds 0x1b (4.2.1).
#[tactic(auto, unfolding(crate::specs::Field::xtime))]
pub(crate) fn xtime(b: u8) -> u8
    ensures { result ≡ xtimeOf b }
{
    (b << 1) ^ ((b >> 7) * 27)
}

// b where bit 0 of a is set, and 0 where it is not.
#[tactic(auto, unfolding(crate::specs::Field::low))]
fn low(a: u8, b: u8) -> u8
    ensures { result ≡ low_of a b }
{
    if a % 2 == 0 { 0 } else { b }
}

// The product: the sum of b times x to the i, over the bits i of a that are set.
#[tactic(auto, unfolding(crate::specs::Field::product))]
pub(crate) fn product(mut a: u8, mut b: u8) -> u8
    ensures { result ≡ a • b }
{
    let mut sum: u8 = 0;
    for _ in 0..8u8 {
        sum ^= low(a, b);
        a /= 2;
        b = xtime(b);
    }
    sum
}
