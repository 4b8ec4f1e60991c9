// A paced line for a host: opening, ticks and closing on its record in lent bytes.
ghost use Rattle.std.specs.Prelude.{◌≡◌, cond, leb, length};
ghost use Rattle.paced.specs.Opening.{opening};
ghost use Rattle.paced.specs.Ticking.{tick_answer};
ghost use Rattle.paced.specs.Closing.{close_answer};
ghost use Rattle.tisarqluk.specs.PacedRecord.{holds_paced, paced_in};
ghost use Rattle.tisarqluk.specs.PacedCalls.{answer_of, opened_kept, opened_answer, opened_buffer};
ghost use Rattle.tisarqluk.specs.PacedCalls.{ticked_answer, ticked_buffer, ticked_output, closed_answer, closed_buffer, closed_output};
ghost use Rattle.tisarqluk.specs.Inner.{where_held};

use super::record::{self, Record};
use line::settings::Settings;
use paced::counts::Counts;
use paced::record::Paced;
use refusal::Refusal;

// What a tick or a closing answers: a refusal's number, 0 where there is none, the line bits written and the bits waiting.
#[repr(C)]
#[derive(Clone, Copy)]
pub struct TqAnswer {
    pub refusal: u32,
    pub bits: u32,
    pub waiting: u32,
}

impl From<Result<Counts, Refusal>> for TqAnswer {
    ghost from_gives = { λ a q. q ≡ answer_of a };

    fn from(answer: Result<Counts, Refusal>) -> TqAnswer {
        match answer {
            Ok(counts) => TqAnswer {
                refusal: 0,
                bits: counts.bits as u32,
                waiting: counts.waiting as u32,
            },
            Err(refusal) => TqAnswer {
                refusal: refusal.number(),
                bits: 0,
                waiting: 0,
            },
        }
    }
}

// How long a paced line's record buffer must be.
pub fn tq_paced_record_bytes() -> usize
    ensures { result ≡ 126 }
{
    Paced::BYTES
}

// An opening that stores its line; a refused one leaves the buffer as it was.
fn open(buf: &mut [u8], settings: Settings, d: u64) -> Result<(), Refusal>
    ensures value { result ≡ where_held (leb 126 (length buf.old)) (opening settings.entry.key.now settings.entry.iv.now settings.entry.pattern settings.entry.l settings.entry.receiving d).answer }
    ensures buf_after { buf.new ≡ cond (leb 126 (length buf.old)) (opened_kept (opening settings.entry.key.now settings.entry.iv.now settings.entry.pattern settings.entry.l settings.entry.receiving d) buf.old) buf.old }
{
    record::roomy::<Paced>(buf)?;
    let opened = Paced::open(settings, d);
    opened.answer?;
    opened.line.store(buf);
    Ok(())
}

// Opens a paced line in a buffer; direction 0 sends, any other receives.
pub fn tq_paced_open(
    buf: &mut [u8],
    key: &[u8],
    iv: &[u8],
    pattern: u8,
    l: u64,
    direction: u64,
    d: u64,
) -> u32
    ensures value { result ≡ opened_answer buf.old key.now iv.now pattern l direction d }
    ensures buf_after { buf.new ≡ opened_buffer buf.old key.now iv.now pattern l direction d }
{
    let settings = Settings {
        key,
        iv,
        pattern,
        l,
        receiving: direction != 0,
    };
    refusal::code(open(buf, settings, d))
}

// A tick that stores the line after it; a refused one leaves the buffer as it was.
fn tick(buf: &mut [u8], input: &[u8], output: &mut [u8]) -> Result<Counts, Refusal>
    ensures value { result ≡ where_held (holds_paced buf.old) (tick_answer (paced_in buf.old) input.now output.old) }
    ensures buf_after { buf.new ≡ ticked_buffer buf.old input.now output.old }
    ensures output_after { output.new ≡ ticked_output buf.old input.now output.old }
{
    let Some(mut line) = Paced::load(buf) else {
        return Err(Refusal::State);
    };
    let counts = line.tick(input, output)?;
    line.store(buf);
    Ok(counts)
}

// Takes D bits of the input into the paced line in a buffer, and writes the line bits that leave it.
pub fn tq_paced_tick(buf: &mut [u8], input: &[u8], output: &mut [u8]) -> TqAnswer
    ensures value { result ≡ ticked_answer buf.old input.now output.old }
    ensures buf_after { buf.new ≡ ticked_buffer buf.old input.now output.old }
    ensures output_after { output.new ≡ ticked_output buf.old input.now output.old }
{
    tick(buf, input, output).into()
}

// A closing that stores the line after it; a refused one leaves the buffer as it was.
fn close(buf: &mut [u8], output: &mut [u8]) -> Result<Counts, Refusal>
    ensures value { result ≡ where_held (holds_paced buf.old) (close_answer (paced_in buf.old) output.old) }
    ensures buf_after { buf.new ≡ closed_buffer buf.old output.old }
    ensures output_after { output.new ≡ closed_output buf.old output.old }
{
    let Some(mut line) = Paced::load(buf) else {
        return Err(Refusal::State);
    };
    let counts = line.close(output)?;
    line.store(buf);
    Ok(counts)
}

// Closes the paced line in a buffer, and writes the ready bits and then the waiting ones, passed.
pub fn tq_paced_close(buf: &mut [u8], output: &mut [u8]) -> TqAnswer
    ensures value { result ≡ closed_answer buf.old output.old }
    ensures buf_after { buf.new ≡ closed_buffer buf.old output.old }
    ensures output_after { output.new ≡ closed_output buf.old output.old }
{
    close(buf, output).into()
}
