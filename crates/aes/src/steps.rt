// The steps of a round (FIPS 197, 5.1): each takes the state by value and gives the next one.
ghost use Rattle.std.specs.Prelude.{◌≡◌};
ghost use Rattle.aes.specs.State.{columns};
ghost use Rattle.aes.specs.Steps.{sub_bytes, shift_rows, mix_columns, add_round_key, row_by, mix_column};
ghost use Rattle.aes.specs.Cipher.{round_of};

use crate::array::transpose;
use crate::field::product;
use crate::keys::{sub_word, xor_word};
use crate::{State, Word};

// The coefficients of MixColumns (5.1.3).
const MIX: [Word; 4] = [[2, 3, 1, 1], [1, 2, 3, 1], [1, 1, 2, 3], [3, 1, 1, 2]];

// 5.1.1: the S-box at each byte.
pub(crate) fn sub_bytes(s: State) -> State
    ensures { result ≡ sub_bytes s }
{
    s.map(sub_word)
}

// 5.1.2: row r is turned to the left by r places, each by another number, so that it is written out.
#[tactic(auto, unfolding(crate::specs::Steps::shift_rows))]
pub(crate) fn shift_rows(s: State) -> State
    ensures { result ≡ shift_rows s }
{
    let [a, b, c, d] = s;
    [
        [a[0], a[1], a[2], a[3]],
        [b[1], b[2], b[3], b[0]],
        [c[2], c[3], c[0], c[1]],
        [d[3], d[0], d[1], d[2]],
    ]
}

// 5.1.3: a row of the matrix, a, by a column, x. Inlined, its products have a constant factor; without that a block takes many times as long.
#[tactic(auto, unfolding(crate::specs::Steps::row_by))]
#[inline(always)]
fn row_by(a: Word, x: Word) -> u8
    ensures { result ≡ row_by a x }
{
    product(a[0], x[0]) ^ product(a[1], x[1]) ^ product(a[2], x[2]) ^ product(a[3], x[3])
}

// 5.1.3: the matrix by a column. A closure for `map` would need a clause of its own, as it would in `add_round_key`.
#[tactic(auto, unfolding(crate::specs::Steps::mix_column))]
fn mix_column(x: Word) -> Word
    ensures { result ≡ mix_column x }
{
    let [a, b, c, d] = MIX;
    [row_by(a, x), row_by(b, x), row_by(c, x), row_by(d, x)]
}

// 5.1.3: the matrix by each column. It is written out, since with `map` enciphering takes a tenth more time.
#[tactic(auto, unfolding(crate::specs::State::columns, crate::specs::Steps::mix_columns))]
pub(crate) fn mix_columns(s: State) -> State
    ensures { result ≡ mix_columns s }
{
    let [a, b, c, d] = transpose(s);
    transpose([mix_column(a), mix_column(b), mix_column(c), mix_column(d)])
}

// 5.1.4: the round key, laid out as the state is, is added.
#[tactic(auto, unfolding(crate::specs::KeyExpansion::xor_word, crate::specs::State::columns, crate::specs::Steps::add_round_key))]
pub(crate) fn add_round_key(s: State, k: State) -> State
    ensures { result ≡ add_round_key s (columns k) }
{
    [
        xor_word(s[0], k[0]),
        xor_word(s[1], k[1]),
        xor_word(s[2], k[2]),
        xor_word(s[3], k[3]),
    ]
}

// 5.1: a round but the last.
#[tactic(auto, unfolding(crate::specs::Cipher::round_of))]
pub(crate) fn round(s: State, k: State) -> State
    ensures { result ≡ round_of s (columns k) }
{
    add_round_key(mix_columns(shift_rows(sub_bytes(s))), k)
}
