// The tests for 9 of a free line's record (01, "Tests for 9").
ghost use Rattle.std.specs.Prelude.{◌≡◌, Ok, Err, OnOk, cond, ◌-◌, ◌*◌, ◌/◌, ◌^◌, ◌<◌, ◌≤◌, min, ltb, eqb};
ghost use Rattle.refusal.specs.declared.Refusal.{Refusal};
ghost use Rattle.line.specs.Good.{Good};
ghost use Rattle.line.specs.Tests.{due_in, most_in, faulty};

use super::record::Line;
use refusal::Refusal;

impl Line {
    // The IV bits that are due.
    fn due(&self) -> u16
        requires { self.now.left ≤ 128 * self.now.l }
        ensures { result ≡ due_in self.now }
    {
        if 0 < self.left {
            (128 * self.l as u16 - self.left).min(128)
        } else {
            0
        }
    }

    // The most window bits there may be.
    fn most(&self) -> u8
        ensures { result ≡ most_in self.now }
    {
        if 0 < self.left { 0 } else { 7 }
    }

    // Whether a record meets any of the tests.
    #[tactic(auto, unfolding(crate::specs::Tests::faulty))]
    pub fn is_faulty(&self) -> bool
        ensures { result ≡ faulty self.now }
    {
        if !(1..=11).contains(&self.l) || 127 < self.position.place {
            return true;
        }
        if self.left > 128 * self.l as u16 || self.due() != self.collected as u16 {
            return true;
        }
        if self.most() < self.seen || self.window >> self.seen != 0 {
            return true;
        }
        !bits::is_blank(&self.iv, self.collected as usize)
    }

    // What a run tries first: 9 where the record meets a test.
    pub(crate) fn tested(self) -> Result<(), Refusal>
        ensures value { result ≡ cond (faulty self) (Err Refusal.State) (Ok tt) }
        ensures good { OnOk result (Good self) }
    {
        if self.is_faulty() {
            return Err(Refusal::State);
        }
        Ok(())
    }
}
