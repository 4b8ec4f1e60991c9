// The next round key (FIPS 197, 5.2), and the functions on words that it is made of.
ghost use Rattle.std.specs.Prelude.{◌≡◌};
ghost use Rattle.aes.specs.KeyExpansion.{xor_word, sub_word, rot_word, next_key};

use crate::Word;
use crate::sbox::s_box;

// The S-box at each byte of a word.
#[tactic(auto, unfolding(crate::specs::KeyExpansion::sub_word))]
pub(crate) fn sub_word(w: Word) -> Word
    ensures { result ≡ sub_word w }
{
    w.map(s_box)
}

// A word turned to the left by a byte.
#[tactic(auto, unfolding(crate::specs::KeyExpansion::rot_word))]
fn rot_word(w: Word) -> Word
    ensures { result ≡ rot_word w }
{
    [w[1], w[2], w[3], w[0]]
}

// The sum of two words.
#[tactic(auto, unfolding(crate::specs::KeyExpansion::xor_word))]
pub(crate) fn xor_word(a: Word, b: Word) -> Word
    ensures { result ≡ xor_word a b }
{
    std::array::from_fn(|i| a[i] ^ b[i])
}

// The round key after w; rc is the first byte of its Rcon.
#[tactic(auto, unfolding(crate::specs::KeyExpansion::next_key))]
pub(crate) fn next_key(w: [Word; 4], rc: u8) -> [Word; 4]
    ensures { result ≡ next_key w rc }
{
    let temp = xor_word(sub_word(rot_word(w[3])), [rc, 0, 0, 0]);
    let w4 = xor_word(w[0], temp);
    let w5 = xor_word(w[1], w4);
    let w6 = xor_word(w[2], w5);
    let w7 = xor_word(w[3], w6);
    [w4, w5, w6, w7]
}
