// Closing a paced line (01, "The tick").
ghost use Rattle.std.specs.Prelude.{◌≡◌, Ok, [], ◌+◌, ◌*◌, ◌≤◌, length, take};
ghost use Rattle.bits.specs.Bits.{bits_of, part, laid};
ghost use Rattle.line.specs.Good.{Good};
ghost use Rattle.paced.specs.Closing.{last_from, close_answer, closing as closing_of, close_writes};
ghost use Rattle.paced.specs.Inner.{Open, PassedOn, closed_to};

use super::counts::Counts;
use super::record::Paced;
use super::{block, queue};
use line::record::Line;
use refusal::Refusal;

// Passes n bits of the queue from bit `from` on through the line, and appends what comes out to the first `from` bits of the output.
fn pass_on(line: Line, q: [u8; 60], from: usize, n: usize, output: &mut [u8]) -> Line
    requires { Good line × (from + n ≤ 480) × (from + n ≤ 8 * length output.old) × (laid output.old from [] ≡ output.old) }
    ensures { PassedOn line q from n output.old result output.new }
{
    let mut line = line;
    let end = from + n;
    for i in (from..end).step_by(128) {
        let m = (end - i).min(128);
        let t = block::passed(line, bits::read(&q, i, m), m);
        queue::append(output, i, t.out, m);
        line = t.line;
    }
    line
}

impl Paced {
    // Closes an open line with bytes enough in the output: the ready bits, and then the rest, after which it holds nothing.
    fn shut(self, output: &mut [u8]) -> (Counts, Paced)
        requires opened { Open self }
        requires room { self.waiting + self.ready ≤ 8 * length output.old }
        ensures value { record { answer = Ok result.0; line = result.1 } ≡ closed_to self }
        ensures output_after { output.new ≡ laid output.old 0 (last_from self) }
    {
        let ready = self.ready as usize;
        let waiting = self.waiting as usize;
        queue::copy(self.queue, ready, output);
        let line = pass_on(self.line, self.queue, ready, waiting, output);
        let counts = Counts {
            bits: (ready + waiting) as u16,
            waiting: 0,
        };
        let after = Paced {
            line,
            closed: true,
            ready: 0,
            waiting: 0,
            fillers: 0,
            queue: [0; 60],
            ..self
        };
        (counts, after)
    }

    // Passes all waiting bits, writes the ready bits and then these, and drops the fillers.
    #[tactic(auto, unfolding(crate::specs::Closing::close_answer))]
    pub fn close(&mut self, output: &mut [u8]) -> Result<Counts, Refusal>
        ensures value { result ≡ close_answer self.old output.old }
        ensures line_after { self.new ≡ (closing_of self.old output.old).line }
        ensures output_after { output.new ≡ close_writes self.old output.old }
    {
        self.tested()?;
        if output.len() < (self.waiting as usize + self.ready as usize).div_ceil(8) {
            return Err(Refusal::Output);
        }
        let (counts, after) = self.shut(output);
        *self = after;
        Ok(counts)
    }
}
