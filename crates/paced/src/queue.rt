// The queue of a paced line: packed bits that leave at its front, join at its end and change in its middle.
ghost use Rattle.std.specs.Prelude.{◌≡◌, ◌++◌, ◌+◌, ◌*◌, ◌≤◌, length, take, drop};
ghost use Rattle.bits.specs.Bits.{bits_of, pack, part, laid};

// Lays n bits after the first `at` bits of the output, in the part of it from its current byte on.
pub(crate) fn append(output: &mut [u8], at: usize, b: [u8; 16], n: usize)
    requires { (n ≤ 128) × (at + n ≤ 8 * length output.old) }
    ensures { output.new ≡ laid output.old at (take n (bits_of b)) }
{
    let current = at / 8;
    bits::write(&mut output[current..], at % 8, b, n);
}

// Lays the first n bits of the queue in the output. It stays apart from what lays a line file's bits, which lends no part of its output.
pub(crate) fn copy(q: [u8; 60], n: usize, output: &mut [u8])
    requires { (n ≤ 480) × (n ≤ 8 * length output.old) }
    ensures { output.new ≡ laid output.old 0 (part q 0 n) }
{
    for i in (0..n).step_by(128) {
        let m = (n - i).min(128);
        append(output, i, bits::read(&q, i, m), m);
    }
}

// The queue without its first r bits, where d bits of the input join the n bits that stay.
pub(crate) fn joined(q: [u8; 60], r: usize, n: usize, input: &[u8], d: usize) -> [u8; 60]
    requires { (r + n ≤ 480) × (n + d ≤ 480) × (d ≤ 128) × (d ≤ 8 * length input.now) × (q ≡ pack 60 (part q 0 (r + n))) }
    ensures { result ≡ pack 60 (part q r n ++ part input.now 0 d) }
{
    let mut t = [0; 60];
    bits::draw(&mut t, &q, r);
    bits::write(&mut t, n, bits::read(input, 0, d), d);
    t
}

// The queue with the first n bits of b in the place of the n bits from bit `at` on.
pub(crate) fn replaced(q: [u8; 60], at: usize, b: [u8; 16], n: usize) -> [u8; 60]
    requires { (n ≤ 128) × (at + n ≤ 480) }
    ensures { result ≡ pack 60 (part q 0 at ++ (take n (bits_of b) ++ drop (at + n) (bits_of q))) }
{
    let end = at + n;
    // A write makes the rest of its last byte 0: these bits are put back.
    let rest = (8 - end % 8) % 8;
    let kept = bits::read(&q, end, rest);
    let mut t = q;
    bits::write(&mut t, at, b, n);
    bits::write(&mut t, end, kept, rest);
    t
}
