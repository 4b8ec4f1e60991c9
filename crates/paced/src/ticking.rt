// One tick of a paced line (01, "The tick").
ghost use Rattle.std.specs.Prelude.{◌≡◌, Ok, ◌+◌, ◌*◌, ◌≤◌, length};
ghost use Rattle.bits.specs.Bits.{laid};
ghost use Rattle.pace.specs.Tick.{width};
ghost use Rattle.line.specs.Good.{Good};
ghost use Rattle.paced.specs.Ticking.{leaving_from, tick_answer, ticking, tick_writes};
ghost use Rattle.paced.specs.Inner.{Open, Passes, ticked_to};

use super::counts::Counts;
use super::record::Paced;
use super::{block, queue};
use line::record::Line;
use refusal::Refusal;

// w.
fn width_of(left: u16) -> usize
    ensures { result ≡ width left }
{
    if left == 0 {
        128
    } else {
        (left as usize).min(128)
    }
}

// The line and the queue after a move, and the number of bits moved.
#[derive(Clone, Copy)]
pub struct Move {
    pub line: Line,
    pub queue: [u8; 60],
    pub count: usize,
}

// Of n waiting bits, which stand in the queue from bit `at` on, exactly w pass where so many wait, otherwise none.
fn passing(line: Line, q: [u8; 60], at: usize, n: usize) -> Move
    requires { Good line × (at + n ≤ 480) }
    ensures { Passes line q at n result }
{
    let w = width_of(line.left);
    if n < w {
        return Move {
            line,
            queue: q,
            count: 0,
        };
    }
    let t = block::passed(line, bits::read(&q, at, w), w);
    Move {
        line: t.line,
        queue: queue::replaced(q, at, t.out, w),
        count: w,
    }
}

impl Paced {
    // A tick of an open line with bytes enough on both sides.
    fn ticked(self, input: &[u8], output: &mut [u8]) -> (Counts, Paced)
        requires opened { Open self }
        requires room { (self.d ≤ 8 * length input.now) × (self.d ≤ 8 * length output.old) }
        ensures value { record { answer = Ok result.0; line = result.1 } ≡ ticked_to self input.now }
        ensures output_after { output.new ≡ laid output.old 0 (leaving_from self) }
    {
        let d = self.d as usize;
        let ready = self.ready as usize;
        let waiting = self.waiting as usize;
        let fillers = self.fillers as usize;
        let leaving = d.saturating_sub(fillers);
        queue::copy(self.queue, leaving, output);
        let stay = ready - leaving;
        let q = queue::joined(self.queue, leaving, stay + waiting, input, d);
        let m = passing(self.line, q, stay, waiting + d);
        let queue = m.queue;
        let still = (waiting + d - m.count) as u16;
        let counts = Counts {
            bits: leaving as u16,
            waiting: still,
        };
        let after = Paced {
            line: m.line,
            ready: (stay + m.count) as u16,
            waiting: still,
            fillers: fillers.saturating_sub(d) as u16,
            queue,
            ..self
        };
        (counts, after)
    }

    // Takes D bits of the input, and writes the line bits that leave.
    #[tactic(auto, unfolding(crate::specs::Ticking::tick_answer))]
    pub fn tick(&mut self, input: &[u8], output: &mut [u8]) -> Result<Counts, Refusal>
        ensures value { result ≡ tick_answer self.old input.now output.old }
        ensures line_after { self.new ≡ (ticking self.old input.now output.old).line }
        ensures output_after { output.new ≡ tick_writes self.old input.now output.old }
    {
        self.tested()?;
        let bytes = (self.d as usize).div_ceil(8);
        if input.len() < bytes {
            return Err(Refusal::Input);
        }
        if output.len() < bytes {
            return Err(Refusal::Output);
        }
        let (counts, after) = self.ticked(input, output);
        *self = after;
        Ok(counts)
    }
}
