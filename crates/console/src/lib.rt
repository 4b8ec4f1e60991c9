// Standard input of the programs: a read that fails is told from the end of the input.
#![tactic(auto)]

ghost use Rattle.std.specs.Prelude.{IfOk, IfErr};
ghost use Rattle.io.specs.Counts.{IsPrefixLen};

use std::io::Read;

// A read failed, and how many bytes there were before it.
#[derive(Clone, Copy, Debug, PartialEq, Eq)]
pub struct CutOff {
    pub bytes: usize,
}

// Reads until the input ends or the buffer is full, so that input without end is not read for ever, and answers how many bytes it read; a read that fails is no
// end of the input.
pub fn read_input<R: Read>(input: &mut R, buf: &mut [u8]) -> Result<usize, CutOff>
    ensures read { IfOk result (λ n. IsPrefixLen n buf.new) }
    ensures cut_off { IfErr result (λ e. IsPrefixLen e.bytes buf.new) }
{
    let mut done = 0;
    // Written out, since of std's readers it is not known how many bytes there are after a failure.
    while done < buf.len() {
        match input.read(&mut buf[done..]) {
            Ok(0) => return Ok(done),
            Ok(more) => done += more,
            Err(_) => return Err(CutOff { bytes: done }),
        }
    }
    Ok(done)
}
