// Packed bits, read and written at any bit of a buffer (01, "Bits and settings").
#![tactic(auto)]

ghost use Rattle.std.specs.List.{list_all};
ghost use Rattle.std.specs.Prelude.{◌≡◌, ◌==◌, [], ◌++◌, ◌+◌, ◌-◌, ◌*◌, ◌/◌, ◌%◌, ◌^◌, ◌<◌, ◌≤◌, length, get_or, take, drop};
ghost use Rattle.bits.specs.Blank.{blank};
ghost use Rattle.bits.specs.Bits.{bits_of, pack, part, laid, wrote, digits};

// Bit i of s; 0 past its end.
#[tactic(auto, using(crate::proofs::Packed::bit_at))]
pub fn get(s: &[u8], i: usize) -> u8
    ensures { result ≡ get_or (bits_of s.now) i 0 }
{
    (byte(s, i / 8) >> (7 - i % 8)) % 2
}

// At most 128 bits of s, from bit `from` on, packed from the top; zeros after them, and where s ends.
#[tactic(auto, using(crate::proofs::Ends::read_is))]
pub fn read(s: &[u8], from: usize, n: usize) -> [u8; 16]
    ensures { result ≡ pack 16 (part s.now from n) }
{
    let m = n.min(128);
    let mut out = [0u8; 16];
    draw(&mut out[..m.div_ceil(8)], s, from);
    clear(&mut out, m);
    out
}

// Lays the first n bits of b in d from bit `at` on; where n is above 128 or d ends before them, nothing is written. The count is not kept with the bytes: the
// scanner and a blackout write fewer of the bits that they have.
#[tactic(auto, using(crate::proofs::Ends::write_is, crate::proofs::Laid::wrote_long, crate::proofs::Laid::wrote_past))]
pub fn write(d: &mut [u8], at: usize, b: [u8; 16], n: usize)
    ensures { d.new ≡ wrote d.old at b n }
{
    if n <= 128 {
        let j = at / 8;
        let k = at % 8;
        // The end is counted in bytes: at + n, in bits, may be more than a usize holds.
        let end = j + (k + n).div_ceil(8);
        if end <= d.len() {
            let top = octet(0, byte(d, j), 8 - k);
            let touched = &mut d[j..end];
            pour(touched, &b, top, k);
            clear(touched, k + n);
        }
    }
}

// Fills d with the bits of s from bit `from` on, zeros where they run out.
#[tactic(auto, using(crate::proofs::Ends::draw_is))]
pub fn draw(d: &mut [u8], s: &[u8], from: usize)
    ensures { d.new ≡ pack (length d.old) (drop from (bits_of s.now)) }
{
    let j = from / 8;
    pour(d, rest(s, j + 1), byte(s, j), 8 - from % 8);
}

// Byte i of s; 0 past its end.
pub fn byte(s: &[u8], i: usize) -> u8
    ensures { result ≡ get_or s.now i 0 }
{
    s.get(i).copied().unwrap_or(0)
}

// The bytes of s from the i-th on; none past its end.
fn rest(s: &[u8], i: usize) -> &[u8]
    ensures { result.now ≡ drop i s.now }
{
    s.get(i..).unwrap_or(&[])
}

// The eight bits that begin with the last q bits of `high` and go on in `low`.
fn octet(high: u8, low: u8, q: usize) -> u8
    requires { q ≤ 8 }
    ensures { result ≡ (high * 256 + low) / 2 ^ q % 256 }
{
    (((high as u16 * 256 + low as u16) >> q) % 256) as u8
}

// Fills d with the last q bits of `high` and then the bits of s, zeros where they run out.
#[tactic(auto, using(crate::proofs::Octets::fill_octet, crate::proofs::Octets::fill_done))]
fn pour(d: &mut [u8], s: &[u8], high: u8, q: usize)
    requires { q ≤ 8 }
    ensures { d.new ≡ pack (length d.old) (digits q high ++ bits_of s.now) }
{
    // Two loops: one over all of d that asks each time for a byte of s takes a tenth longer. The second asks all the same: of a loop that stores zeros the
    // compiler makes a call of memset, which a box may not have.
    let n = d.len().min(s.len());
    let mut top = high;
    for i in 0..n {
        let low = s[i];
        d[i] = octet(top, low, q);
        top = low;
    }
    for i in n..d.len() {
        let low = byte(s, i);
        d[i] = octet(top, low, q);
        top = low;
    }
}

// The first m bits of d stay, and the others of the byte that holds the last of them become 0.
#[tactic(auto, using(crate::proofs::Ends::clear_byte, crate::proofs::Laid::laid_none))]
fn clear(d: &mut [u8], m: usize)
    requires { m ≤ 8 * length d.old }
    ensures { d.new ≡ laid d.old m [] }
{
    let e = m % 8;
    if 0 < e {
        let j = m / 8;
        let top = octet(0, d[j], 8 - e);
        d[j] = octet(top, 0, e);
    }
}

// Whether the bits of s from bit `from` on hold nothing but zeros.
pub fn is_blank(s: &[u8], from: usize) -> bool
    ensures { result ≡ blank (drop from (bits_of s.now)) }
{
    let first = read(s, from, 8 - from % 8);
    first[0] == 0 && all_zero(rest(s, from / 8 + 1))
}

// Whether s holds nothing but zeros.
fn all_zero(s: &[u8]) -> bool
    ensures { result ≡ list_all (λ x. x == 0) s.now }
{
    s.iter().all(|x| *x == 0)
}
