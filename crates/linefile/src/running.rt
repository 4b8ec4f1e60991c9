// The work of the program `linerun`: the bits of a line file through its line, free or by ticks and closing.
ghost use Rattle.std.specs.Prelude.{◌≡◌, Ok, [], ◌+◌, ◌*◌, ◌≤◌, length};
ghost use Rattle.mode.specs.Rule.{outs};
ghost use Rattle.bits.specs.Bits.{part, laid};
ghost use Rattle.line.specs.View.{rule_of, view};
ghost use Rattle.paced.specs.Ticking.{leaving_from};
ghost use Rattle.paced.specs.Closing.{last_from};
ghost use Rattle.linefile.specs.Run.{line_of, ran as ran_of, result_left};
ghost use Rattle.linefile.specs.Paces.{Freed, Ticks, ticked_on, Closes, Paceable};

use super::reader;
use super::reader::Contents;
use line::record::Line;
use paced::record::Paced;
use refusal::Refusal;

// A free line opened with a file's settings, and one run of its bits. Neither is refused.
fn run_free(contents: Contents, file: &[u8], output: &mut [u8]) -> Result<(), Refusal>
    requires { Freed contents (length file.now) (length output.old) }
    ensures value { result ≡ Ok tt }
    ensures output_after { output.new ≡ laid output.old 0 (outs (rule_of (line_of contents.settings)) (view (line_of contents.settings)) (part file.now (8 * contents.start) contents.count)) }
{
    let c = contents.settings;
    let mut line = Line::opened((&c).into())?;
    let start = contents.start as usize;
    line.run(contents.count as usize, &file[start..], output)
}

// Lays the first n bits of s after the first `at` bits of the output, behind which its last byte has nothing but zeros. paced lays its queue in the same way, but
// lends the output from its current byte on, as 01 has it.
fn append(output: &mut [u8], at: usize, s: &[u8], n: usize)
    requires { (n ≤ 8 * length s.now) × (at + n ≤ 8 * length output.old) × (at + n ≤ 524288) × (laid output.old at [] ≡ output.old) }
    ensures { output.new ≡ laid output.old at (part s.now 0 n) }
{
    for i in (0..n).step_by(128) {
        let m = (n - i).min(128);
        bits::write(output, at + i, bits::read(s, i, m), m);
    }
}

// A paced line between two ticks, and the number of line bits that stand in the output.
#[derive(Clone, Copy)]
pub struct Going {
    pub line: Paced,
    pub at: usize,
}

impl Going {
    // One tick with d bits of the file from bit `from` on; its line bits go after those that stand in the output. It is not refused.
    fn tick(&mut self, file: &[u8], from: usize, d: usize, output: &mut [u8]) -> Result<(), Refusal>
        requires { Ticks self.old file.now from d output.old }
        ensures value { result ≡ Ok tt }
        ensures going_after { self.new ≡ ticked_on self.old file.now from }
        ensures output_after { output.new ≡ laid output.old self.old.at (leaving_from self.old.line) }
    {
        let input = bits::read(file, from, d);
        let mut some = [0; 16];
        let n = self.line.tick(&input, &mut some)?.bits as usize;
        append(output, self.at, &some, n);
        self.at += n;
        Ok(())
    }

    // Closing: its line bits go after those that stand in the output. It is not refused.
    fn close(&mut self, output: &mut [u8]) -> Result<(), Refusal>
        requires { Closes self.old output.old }
        ensures value { result ≡ Ok tt }
        ensures output_after { output.new ≡ laid output.old self.old.at (last_from self.old.line) }
    {
        let mut rest = [0; 60];
        let n = self.line.close(&mut rest)?.bits as usize;
        append(output, self.at, &rest, n);
        Ok(())
    }
}

// A paced line opened with a file's settings: its bits by ticks of D bits, and closing. Nothing of it is refused.
fn run_paced(contents: Contents, file: &[u8], output: &mut [u8]) -> Result<(), Refusal>
    requires { Paceable contents.settings (length file.now) (8 * contents.start) contents.count (length output.old) }
    ensures value { result ≡ Ok tt }
    ensures output_after { output.new ≡ laid output.old 0 (outs (rule_of (line_of contents.settings)) (view (line_of contents.settings)) (part file.now (8 * contents.start) contents.count)) }
{
    let c = contents.settings;
    let line = Paced::opened((&c).into(), c.d as u64)?;
    let mut going = Going { line, at: 0 };
    let from = 8 * contents.start as usize;
    let d = c.d as usize;
    for i in (0..contents.count as usize).step_by(d) {
        going.tick(file, from + i, d, output)?;
    }
    going.close(output)
}

// The result bits of a file, free or by ticks and closing, from the output's first bit on, and how many there are.
#[tactic(auto, unfolding(crate::specs::File::contents, crate::specs::Run::ran_answer))]
pub fn run(file: &[u8], output: &mut [u8]) -> Result<u64, Refusal>
    ensures value { result ≡ ran_of file.now output.old }
    ensures output_after { output.new ≡ result_left file.now output.old }
{
    let contents = reader::read(file)?;
    if contents.count.div_ceil(8) > output.len() as u64 {
        return Err(Refusal::Output);
    }
    if contents.settings.d == 0 {
        run_free(contents, file, output)?;
    } else {
        run_paced(contents, file, output)?;
    }
    Ok(contents.count)
}
