// What C and Rust link: each call of `tisarqluk`, exported under its own name and with its own clauses (include/tisarqluk.h). C has numbers, where Rust has types.
#![tactic(auto)]

ghost use Rattle.std.specs.Prelude.{◌≡◌};
ghost use Rattle.refusal.specs.Numbers.{number_of};
ghost use Rattle.aes.specs.Block.{answer, after};
ghost use Rattle.tisarqluk.specs.FreeCalls.{opened_answer, opened_buffer, ran_answer, ran_buffer, ran_output};
ghost use Rattle.tisarqluk.specs.PacedCalls.{opened_answer as paced_opened_answer, opened_buffer as paced_opened_buffer};
ghost use Rattle.tisarqluk.specs.PacedCalls.{ticked_answer, ticked_buffer, ticked_output, closed_answer, closed_buffer, closed_output};

use tisarqluk::paced_calls::TqAnswer;
use tisarqluk::{free_calls, paced_calls};

// Enciphers the first 16 bytes of the input into the first 16 of the output.
#[unsafe(no_mangle)]
pub extern "C" fn tq_aes128(key: &[u8], input: &[u8], output: &mut [u8]) -> u32
    ensures value { result ≡ number_of (answer key.now input.now output.old) }
    ensures output_after { output.new ≡ after key.now input.now output.old }
{
    tisarqluk::tq_aes128(key, input, output)
}

// How long a free line's record buffer must be.
#[unsafe(no_mangle)]
pub extern "C" fn tq_free_record_bytes() -> usize
    ensures { result ≡ 58 }
{
    free_calls::tq_free_record_bytes()
}

// Opens a free line in a buffer; direction 0 sends, any other receives.
#[unsafe(no_mangle)]
pub extern "C" fn tq_free_open(
    buf: &mut [u8],
    key: &[u8],
    iv: &[u8],
    pattern: u8,
    l: u64,
    direction: u64,
) -> u32
    ensures value { result ≡ opened_answer buf.old key.now iv.now pattern l direction }
    ensures buf_after { buf.new ≡ opened_buffer buf.old key.now iv.now pattern l direction }
{
    free_calls::tq_free_open(buf, key, iv, pattern, l, direction)
}

// Runs so many bits of the input through the free line in a buffer into the output.
#[unsafe(no_mangle)]
pub extern "C" fn tq_free_run(buf: &mut [u8], bits: u64, input: &[u8], output: &mut [u8]) -> u32
    ensures value { result ≡ ran_answer buf.old bits input.now output.old }
    ensures buf_after { buf.new ≡ ran_buffer buf.old bits input.now output.old }
    ensures output_after { output.new ≡ ran_output buf.old bits input.now output.old }
{
    free_calls::tq_free_run(buf, bits, input, output)
}

// How long a paced line's record buffer must be.
#[unsafe(no_mangle)]
pub extern "C" fn tq_paced_record_bytes() -> usize
    ensures { result ≡ 126 }
{
    paced_calls::tq_paced_record_bytes()
}

// Opens a paced line in a buffer; direction 0 sends, any other receives.
#[unsafe(no_mangle)]
pub extern "C" fn tq_paced_open(
    buf: &mut [u8],
    key: &[u8],
    iv: &[u8],
    pattern: u8,
    l: u64,
    direction: u64,
    d: u64,
) -> u32
    ensures value { result ≡ paced_opened_answer buf.old key.now iv.now pattern l direction d }
    ensures buf_after { buf.new ≡ paced_opened_buffer buf.old key.now iv.now pattern l direction d }
{
    paced_calls::tq_paced_open(buf, key, iv, pattern, l, direction, d)
}

// Takes D bits of the input into the paced line in a buffer, and writes the line bits that leave it.
#[unsafe(no_mangle)]
pub extern "C" fn tq_paced_tick(buf: &mut [u8], input: &[u8], output: &mut [u8]) -> TqAnswer
    ensures value { result ≡ ticked_answer buf.old input.now output.old }
    ensures buf_after { buf.new ≡ ticked_buffer buf.old input.now output.old }
    ensures output_after { output.new ≡ ticked_output buf.old input.now output.old }
{
    paced_calls::tq_paced_tick(buf, input, output)
}

// Closes the paced line in a buffer, and writes the ready bits and then the waiting ones, passed.
#[unsafe(no_mangle)]
pub extern "C" fn tq_paced_close(buf: &mut [u8], output: &mut [u8]) -> TqAnswer
    ensures value { result ≡ closed_answer buf.old output.old }
    ensures buf_after { buf.new ≡ closed_buffer buf.old output.old }
    ensures output_after { output.new ≡ closed_output buf.old output.old }
{
    paced_calls::tq_paced_close(buf, output)
}
