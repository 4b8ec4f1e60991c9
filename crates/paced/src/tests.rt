// The tests for 9 of a paced line's record (01, "Tests for 9").
ghost use Rattle.std.specs.Prelude.{◌≡◌, ◌≤◌, cond, Ok, Err, OnOk};
ghost use Rattle.pace.specs.Tick.{hold};
ghost use Rattle.refusal.specs.declared.Refusal.{Refusal};
ghost use Rattle.paced.specs.Tests.{too_fast, miscounted, faulty};
ghost use Rattle.paced.specs.Inner.{Open};

use super::record::Paced;
use refusal::Refusal;

// Whether 4 refuses D.
pub(crate) fn is_too_fast(d: u64, l: u64) -> bool
    requires { l ≤ 11 }
    ensures { result ≡ too_fast d l }
{
    d == 0 || 128 < d || 128 * l < d * (l + 1)
}

// M.
pub(crate) fn hold_of(d: usize) -> usize
    requires { d ≤ 255 }
    ensures { result ≡ hold d }
{
    128 + 3 * d - 2
}

impl Paced {
    // Whether the three counts of a record meet a test, on an open line or on a closed one.
    fn is_miscounted(&self) -> bool
        ensures { result ≡ miscounted self.now }
    {
        let (waiting, ready) = (self.waiting as usize, self.ready as usize);
        let (fillers, d) = (self.fillers as usize, self.d as usize);
        if self.closed {
            waiting != 0 || ready != 0 || fillers != 0
        } else {
            let m = hold_of(d);
            waiting + ready + fillers != m || m - d < waiting
        }
    }

    // Whether a record meets any of the tests.
    #[tactic(auto, using(line::proofs::Records::passed), unfolding(crate::specs::Tests::faulty))]
    pub fn is_faulty(&self) -> bool
        ensures { result ≡ faulty self.now }
    {
        if self.line.is_faulty() {
            return true;
        }
        is_too_fast(self.d as u64, self.line.l as u64)
            || self.is_miscounted()
            || !bits::is_blank(&self.queue, self.ready as usize + self.waiting as usize)
    }

    // What a tick and a closing try first: 9 where the record meets a test, and 8 where the line is closed.
    pub(crate) fn tested(self) -> Result<(), Refusal>
        ensures value { result ≡ cond (faulty self) (Err Refusal.State) (cond self.closed (Err Refusal.Closed) (Ok tt)) }
        ensures opened { OnOk result (Open self) }
    {
        if self.is_faulty() {
            return Err(Refusal::State);
        }
        if self.closed {
            return Err(Refusal::Closed);
        }
        Ok(())
    }
}
