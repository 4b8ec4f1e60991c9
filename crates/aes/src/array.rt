// The bytes of a key or block as words and as a state, and back (FIPS 197, 3.4 and 3.5).
ghost use Rattle.std.specs.Prelude.{◌≡◌};
ghost use Rattle.aes.specs.State.{to_words, to_state, from_state, columns};

use crate::{State, Word};

// The four words of sixteen bytes.
#[tactic(auto, unfolding(crate::specs::State::to_words))]
pub(crate) fn words(b: [u8; 16]) -> [Word; 4]
    ensures { result ≡ to_words b }
{
    [
        [b[0], b[1], b[2], b[3]],
        [b[4], b[5], b[6], b[7]],
        [b[8], b[9], b[10], b[11]],
        [b[12], b[13], b[14], b[15]],
    ]
}

// A state's columns; and the state whose columns are four words.
#[tactic(auto, unfolding(crate::specs::State::columns))]
pub(crate) fn transpose(s: State) -> State
    ensures { result ≡ columns s }
{
    let [a, b, c, d] = s;
    [
        [a[0], b[0], c[0], d[0]],
        [a[1], b[1], c[1], d[1]],
        [a[2], b[2], c[2], d[2]],
        [a[3], b[3], c[3], d[3]],
    ]
}

// The state of sixteen bytes, column by column.
#[tactic(auto, unfolding(crate::specs::State::to_words, crate::specs::State::columns, crate::specs::State::to_state))]
pub(crate) fn state(b: [u8; 16]) -> State
    ensures { result ≡ to_state b }
{
    transpose(words(b))
}

// The sixteen bytes of a state, column by column.
#[tactic(auto, unfolding(crate::specs::State::from_state))]
pub(crate) fn block_of(s: State) -> [u8; 16]
    ensures { result ≡ from_state s }
{
    let [a, b, c, d] = s;
    [
        a[0], b[0], c[0], d[0], a[1], b[1], c[1], d[1], a[2], b[2], c[2], d[2], a[3], b[3], c[3],
        d[3],
    ]
}
