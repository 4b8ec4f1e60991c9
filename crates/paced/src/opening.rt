// Opening a paced line (01, "The tick", "Numbers given instead of bits").
ghost use Rattle.std.specs.Prelude.{◌≡◌};
ghost use Rattle.paced.specs.Opening.{empty as empty_of, opened as opened_of, opening as opening_of, zero_paced};

use super::record::Paced;
use super::tests::{hold_of, is_too_fast};
use line::record::Line;
use line::settings::Settings;
use refusal::{Refusal, Reply};

impl Paced {
    // A line that paces and holds nothing but fillers.
    fn empty(line: Line, d: u8, fillers: u16) -> Paced
        ensures { result ≡ empty_of line d fillers }
    {
        Paced {
            line,
            d,
            closed: false,
            ready: 0,
            waiting: 0,
            fillers,
            queue: [0; 60],
        }
    }

    // A record of zeros.
    fn zero() -> Paced
        ensures { result ≡ zero_paced }
    {
        Paced::empty(Line::zero(), 0, 0)
    }

    // The line that an opening gives, sending or receiving, with M fillers.
    #[tactic(auto, using(line::proofs::Passing::opened_of), unfolding(crate::specs::Opening::paced_answer))]
    pub fn opened(settings: Settings, d: u64) -> Result<Paced, Refusal>
        ensures { result ≡ opened_of settings.entry.key.now settings.entry.iv.now settings.entry.pattern settings.entry.l settings.entry.receiving d }
    {
        let line = Line::opened(settings)?;
        if is_too_fast(d, settings.l) {
            return Err(Refusal::Rate);
        }
        Ok(Paced::empty(line, d as u8, hold_of(d as usize) as u16))
    }

    // Opens a line, sending or receiving; of a refused opening the line is a record of zeros.
    pub fn open(settings: Settings, d: u64) -> Reply<(), Paced>
        ensures { result ≡ opening_of settings.entry.key.now settings.entry.iv.now settings.entry.pattern settings.entry.l settings.entry.receiving d }
    {
        Reply::of(Paced::opened(settings, d), Paced::zero())
    }
}
