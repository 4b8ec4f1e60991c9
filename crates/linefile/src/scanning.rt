// The work of the program `syncs`: the bits of a line file taken as line bits and scanned.
ghost use Rattle.std.specs.Prelude.{◌≡◌};
ghost use Rattle.linefile.specs.Syncs.{synced, syncs_left, first_under_new};

use super::{reader, scanner};
use refusal::Refusal;

// What is printed of a file: its bit count and the number of patterns found; and L, which says how long a blackout is.
#[derive(Clone, Copy)]
pub struct Syncs {
    pub bits: u64,
    pub l: u8,
    pub found: usize,
}

// Scans a file, and stores the numbers of the patterns' last bits at the start of `ends`, as many as it holds.
#[tactic(auto, using(crate::proofs::Areas::bits_inside), unfolding(crate::specs::File::contents))]
pub fn scan(file: &[u8], ends: &mut [u32]) -> Result<Syncs, Refusal>
    ensures value { result ≡ synced file.now }
    ensures ends_after { ends.new ≡ syncs_left file.now ends.old }
{
    let contents = reader::read(file)?;
    let l = contents.settings.l;
    let found = scanner::list_ends(
        file,
        8 * contents.start as usize,
        contents.count as usize,
        contents.settings.pattern,
        l,
        ends,
    );
    Ok(Syncs {
        bits: contents.count,
        l,
        found,
    })
}

// The number of the first bit under the new counter, for a pattern that ends at bit `end`.
pub fn first_under_new(l: u8, end: u32) -> u64
    ensures { result ≡ first_under_new l end }
{
    end as u64 + 128 * l as u64 + 1
}
