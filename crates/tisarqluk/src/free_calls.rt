// A free line for a host: opening and running on its record in lent bytes.
ghost use Rattle.std.specs.Prelude.{◌≡◌, cond, leb, length};
ghost use Rattle.line.specs.Free.{opening, run_answer};
ghost use Rattle.tisarqluk.specs.FreeRecord.{holds_free, line_in};
ghost use Rattle.tisarqluk.specs.FreeCalls.{kept, opened_answer, opened_buffer, ran_answer, ran_buffer, ran_output};
ghost use Rattle.tisarqluk.specs.Inner.{where_held};

use super::record::{self, Record};
use line::record::Line;
use line::settings::Settings;
use refusal::Refusal;

// How long a free line's record buffer must be.
pub fn tq_free_record_bytes() -> usize
    ensures { result ≡ 58 }
{
    Line::BYTES
}

// An opening that stores its line; a refused one leaves the buffer as it was. A paced line's is written out likewise, since it takes D.
fn open(buf: &mut [u8], settings: Settings) -> Result<(), Refusal>
    ensures value { result ≡ where_held (leb 58 (length buf.old)) (opening settings.entry.key.now settings.entry.iv.now settings.entry.pattern settings.entry.l settings.entry.receiving).answer }
    ensures buf_after { buf.new ≡ cond (leb 58 (length buf.old)) (kept (opening settings.entry.key.now settings.entry.iv.now settings.entry.pattern settings.entry.l settings.entry.receiving) buf.old) buf.old }
{
    record::roomy::<Line>(buf)?;
    let opened = Line::open(settings);
    opened.answer?;
    opened.line.store(buf);
    Ok(())
}

// Opens a free line in a buffer; direction 0 sends, any other receives.
pub fn tq_free_open(
    buf: &mut [u8],
    key: &[u8],
    iv: &[u8],
    pattern: u8,
    l: u64,
    direction: u64,
) -> u32
    ensures value { result ≡ opened_answer buf.old key.now iv.now pattern l direction }
    ensures buf_after { buf.new ≡ opened_buffer buf.old key.now iv.now pattern l direction }
{
    let settings = Settings {
        key,
        iv,
        pattern,
        l,
        receiving: direction != 0,
    };
    refusal::code(open(buf, settings))
}

// A run that stores the line after it; a refused one leaves the buffer as it was. A tick and a closing are written out likewise: of a call passed as a closure no
// clause can say what it leaves in the output where it isn't made.
fn run(buf: &mut [u8], bits: usize, input: &[u8], output: &mut [u8]) -> Result<(), Refusal>
    ensures value { result ≡ where_held (holds_free buf.old) (run_answer (line_in buf.old) bits input.now output.old) }
    ensures buf_after { buf.new ≡ ran_buffer buf.old bits input.now output.old }
    ensures output_after { output.new ≡ ran_output buf.old bits input.now output.old }
{
    let Some(mut line) = Line::load(buf) else {
        return Err(Refusal::State);
    };
    line.run(bits, input, output)?;
    line.store(buf);
    Ok(())
}

// Runs so many bits of the input through the free line in a buffer into the output.
pub fn tq_free_run(buf: &mut [u8], bits: u64, input: &[u8], output: &mut [u8]) -> u32
    ensures value { result ≡ ran_answer buf.old bits input.now output.old }
    ensures buf_after { buf.new ≡ ran_buffer buf.old bits input.now output.old }
    ensures output_after { output.new ≡ ran_output buf.old bits input.now output.old }
{
    refusal::code(run(buf, bits as usize, input, output))
}
