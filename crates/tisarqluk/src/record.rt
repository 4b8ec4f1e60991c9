// A record in a lent buffer, of either kind (docs/RECORD.md), and what opening one in a buffer tries first.
ghost use Rattle.std.specs.Prelude.{◌≡◌, ◌≤◌, Bool, IfSome, OnOk, Some, None, Ok, cond, leb, List, ℕ, length};
ghost use Rattle.tisarqluk.specs.Inner.{where_held};

use refusal::Refusal;

pub(crate) trait Record: Copy {
    // How many bytes it has.
    ghost BYTES: { ℕ };

    // Whether a buffer is long enough, and its bytes stand for one.
    ghost holds: { List ℕ → Bool };

    // The one that stands in bytes.
    ghost loaded: { List ℕ → Self };

    // A buffer with one at its start.
    ghost stored: { Self → List ℕ → List ℕ };

    const BYTES: usize;

    fn load(buf: &[u8]) -> Option<Self>
        ensures value { result ≡ cond (holds buf.now) (Some (loaded buf.now)) None }
        ensures room { IfSome result (λ line. BYTES ≤ length buf.now) };

    fn store(self, buf: &mut [u8])
        requires { BYTES ≤ length buf.old }
        ensures { buf.new ≡ stored self buf.old };
}

// What an opening tries first: 9 where a buffer is too short.
pub(crate) fn roomy<R: Record>(buf: &[u8]) -> Result<(), Refusal>
    ensures value { result ≡ where_held (leb R.BYTES (length buf.now)) (Ok tt) }
    ensures room { OnOk result (R.BYTES ≤ length buf.now) }
{
    if buf.len() < R::BYTES {
        return Err(Refusal::State);
    }
    Ok(())
}
