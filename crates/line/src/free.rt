// A free line: opening, and a run whose bits are answered at once.
ghost use Rattle.std.specs.Prelude.{◌≡◌};
ghost use Rattle.line.specs.Free.{fresh as fresh_of, zero_line, opened as opened_of, opening, run_answer, running, written};

use super::record::Line;
use super::run;
use super::settings::Settings;
use counter::Position;
use refusal::{Refusal, Reply};

impl Line {
    // A line with these settings, before its first bit.
    fn fresh(key: [u8; 16], iv: [u8; 16], pattern: u8, l: u8, receiving: bool) -> Line
        ensures { result ≡ fresh_of key iv pattern l receiving }
    {
        Line {
            key,
            pattern,
            l,
            receiving,
            position: Position {
                counter: iv,
                place: 0,
            },
            window: 0,
            seen: 0,
            left: 0,
            iv: [0; 16],
            collected: 0,
        }
    }

    // A record of zeros, which every call refuses with 9.
    pub fn zero() -> Line
        ensures { result ≡ zero_line }
    {
        Line::fresh([0; 16], [0; 16], 0, 0, false)
    }

    // The line that an opening gives, sending or receiving.
    #[tactic(auto, unfolding(crate::specs::Free::open_answer))]
    pub fn opened(settings: Settings) -> Result<Line, Refusal>
        ensures { result ≡ opened_of settings.entry.key.now settings.entry.iv.now settings.entry.pattern settings.entry.l settings.entry.receiving }
    {
        let key = <&[u8; 16]>::try_from(settings.key).map_err(|_| Refusal::Key)?;
        let iv = <&[u8; 16]>::try_from(settings.iv).map_err(|_| Refusal::Iv)?;
        if !(1..=11).contains(&settings.l) {
            return Err(Refusal::Blackout);
        }
        let l = settings.l as u8;
        Ok(Line::fresh(*key, *iv, settings.pattern, l, settings.receiving))
    }

    // Opens a line, sending or receiving; of a refused opening the line is a record of zeros.
    pub fn open(settings: Settings) -> Reply<(), Line>
        ensures { result ≡ opening settings.entry.key.now settings.entry.iv.now settings.entry.pattern settings.entry.l settings.entry.receiving }
    {
        Reply::of(Line::opened(settings), Line::zero())
    }

    // Runs so many bits of the input through the line into the output.
    #[tactic(auto, using(bits::proofs::Laid::laid_nothing), unfolding(crate::specs::Free::run_answer))]
    pub fn run(&mut self, bits: usize, input: &[u8], output: &mut [u8]) -> Result<(), Refusal>
        ensures value { result ≡ run_answer self.old bits input.now output.old }
        ensures line_after { self.new ≡ (running self.old bits input.now output.old).line }
        ensures output_after { output.new ≡ written self.old bits input.now output.old }
    {
        self.tested()?;
        if 524288 < bits {
            return Err(Refusal::Bits);
        }
        let bytes = bits.div_ceil(8);
        if input.len() < bytes {
            return Err(Refusal::Input);
        }
        if output.len() < bytes {
            return Err(Refusal::Output);
        }
        *self = run::whole(*self, bits, input, output).line;
        Ok(())
    }
}
