// For hosts in C and Rust: AES of one block, and lines whose records lie in lent bytes (01, "The equipment covered"; docs/RECORD.md).
#![tactic(auto)]

mod bytes;
pub mod free_calls;
mod free_record;
pub mod paced_calls;
mod paced_record;
mod record;

ghost use Rattle.std.specs.Prelude.{◌≡◌};
ghost use Rattle.refusal.specs.Numbers.{number_of};
ghost use Rattle.aes.specs.Block.{answer, after};

// Enciphers the first 16 bytes of the input into the first 16 of the output.
pub fn tq_aes128(key: &[u8], input: &[u8], output: &mut [u8]) -> u32
    ensures value { result ≡ number_of (answer key.now input.now output.old) }
    ensures output_after { output.new ≡ after key.now input.now output.old }
{
    refusal::code(aes::block(key, input, output))
}
