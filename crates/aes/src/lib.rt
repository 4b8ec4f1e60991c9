// AES-128 enciphering (FIPS 197): the key expansion, the cipher by the round keys, and one block by its key, by value or in lent slices.
#![tactic(auto)]

mod array;
mod field;
mod keys;
mod sbox;
mod steps;

ghost use Rattle.std.specs.Prelude.{◌≡◌};
ghost use Rattle.aes.specs.Schedule.{schedule, cipher_by};
ghost use Rattle.aes.specs.Cipher.{aes128};
ghost use Rattle.aes.specs.Block.{answer, after};

use refusal::Refusal;

// Four bytes (3.5).
pub type Word = [u8; 4];

// Four rows of four bytes (3.4).
pub type State = [[u8; 4]; 4];

// The eleven round keys of a key, each laid out as the state is.
#[tactic(auto, using(crate::proofs::Schedule::expanding), unfolding(crate::specs::KeyExpansion::round_key, crate::specs::KeyExpansion::rcon))]
pub fn expand(key: [u8; 16]) -> [State; 11]
    ensures { result ≡ schedule key }
{
    let mut w = array::words(key);
    let mut ks = [array::transpose(w); 11];
    let mut rc: u8 = 1;
    for k in &mut ks[1..] {
        let next = keys::next_key(w, rc);
        *k = array::transpose(next);
        w = next;
        rc = field::xtime(rc);
    }
    ks
}

// A block enciphered by round keys that `expand` made.
#[tactic(auto, using(crate::proofs::Schedule::enciphering), unfolding(crate::specs::Cipher::rounds))]
pub fn encipher_by(ks: &[State; 11], block: [u8; 16]) -> [u8; 16]
    ensures { result ≡ cipher_by ks.now block }
{
    let mut s = steps::add_round_key(array::state(block), ks[0]);
    for k in &ks[1..10] {
        let next = steps::round(s, *k);
        s = next;
    }
    array::block_of(steps::add_round_key(steps::shift_rows(steps::sub_bytes(s)), ks[10]))
}

// A block enciphered by a key.
#[tactic(auto, using(crate::proofs::Schedule::by_schedule))]
pub fn encipher(key: [u8; 16], block: [u8; 16]) -> [u8; 16]
    ensures { result ≡ aes128 key block }
{
    encipher_by(&expand(key), block)
}

// The first 16 bytes of input, enciphered by key, are written to the front of output; where the call is refused, nothing is.
pub fn block(key: &[u8], input: &[u8], output: &mut [u8]) -> Result<(), Refusal>
    ensures value { result ≡ answer key.now input.now output.old }
    ensures output_after { output.new ≡ after key.now input.now output.old }
{
    let key = <[u8; 16]>::try_from(key).map_err(|_| Refusal::Key)?;
    let input = input.first_chunk::<16>().ok_or(Refusal::Input)?;
    let output = output.first_chunk_mut::<16>().ok_or(Refusal::Output)?;
    *output = encipher(key, *input);
    Ok(())
}
