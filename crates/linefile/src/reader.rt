// The reader of line files: the settings and the place of the bits, or the number that a file is refused with.
ghost use Rattle.std.specs.Prelude.{◌≡◌, Ok, ◌+◌, ◌≤◌, length};
ghost use Rattle.linefile.specs.File.{number_at, outside, overlapping, ragged, malformed, rate_refused, read_answer, settings_of, settings_at, contents};

use refusal::Refusal;

// The 36 bytes of settings. D is 0 for a free line.
#[derive(Clone, Copy)]
pub struct Settings {
    pub l: u8,
    pub pattern: u8,
    pub receiving: bool,
    pub d: u8,
    pub key: [u8; 16],
    pub iv: [u8; 16],
}

// As an opening takes them.
impl<'a> From<&'a Settings> for line::settings::Settings<'a> {
    ghost from_gives = { λ s t. (t.key.now ≡ s.now.key) × (t.iv.now ≡ s.now.iv) × (t.pattern ≡ s.now.pattern) × (t.l ≡ s.now.l) × (t.receiving ≡ s.now.receiving) };

    fn from(settings: &'a Settings) -> line::settings::Settings<'a> {
        line::settings::Settings {
            key: &settings.key,
            iv: &settings.iv,
            pattern: settings.pattern,
            l: settings.l as u64,
            receiving: settings.receiving,
        }
    }
}

// What a file says: its settings, how many bits it has and the byte at which they start.
#[derive(Clone, Copy)]
pub struct Contents {
    pub settings: Settings,
    pub count: u64,
    pub start: u64,
}

// An area of a file: the byte at which it starts, and how many bytes it has.
#[derive(Clone, Copy)]
struct Area {
    start: u32,
    bytes: u32,
}

impl Area {
    // The byte behind it.
    fn end(self) -> u64
        ensures { result ≡ self.start + self.bytes }
    {
        self.start as u64 + self.bytes as u64
    }

    // Whether it starts before 16 or does not lie inside the file.
    fn is_outside(self, length: u64) -> bool
        ensures { result ≡ outside self.start self.bytes length }
    {
        self.start < 16 || length < self.end()
    }

    // Whether two areas overlap; an empty one overlaps nothing.
    fn overlaps(self, other: Area) -> bool
        ensures { result ≡ overlapping self.start self.bytes other.start other.bytes }
    {
        0 < self.bytes
            && 0 < other.bytes
            && other.end() > self.start as u64
            && self.end() > other.start as u64
    }
}

// The big-endian number of the four bytes from byte i on.
fn number_at(s: &[u8], i: usize) -> u32
    requires { i ≤ 12 }
    ensures { result ≡ number_at s.now i }
{
    u32::from_be_bytes([
        bits::byte(s, i),
        bits::byte(s, i + 1),
        bits::byte(s, i + 2),
        bits::byte(s, i + 3),
    ])
}

// Whether d is not 0 and the count no multiple of it.
fn is_ragged(count: u32, d: u8) -> bool
    ensures { result ≡ ragged count d }
{
    d != 0 && count % d as u32 != 0
}

// What 10 refuses.
#[tactic(auto, unfolding(crate::specs::File::malformed))]
fn is_malformed(file: &[u8]) -> bool
    ensures { result ≡ malformed file.now }
{
    let length = file.len() as u64;
    let count = number_at(file, 4);
    let bits = Area {
        start: number_at(file, 8),
        bytes: count.div_ceil(8),
    };
    let settings = Area {
        start: number_at(file, 12),
        bytes: 36,
    };
    let direction = bits::byte(file, settings.start as usize + 2);
    let d = bits::byte(file, settings.start as usize + 3);
    if 65536 < length || number_at(file, 0) as u64 != length || length < 16 {
        return true;
    }
    if bits.is_outside(length) || settings.is_outside(length) || bits.overlaps(settings) {
        return true;
    }
    1 < direction || is_ragged(count, d)
}

// 4: D is not 0, and D(L + 1) > 128L.
fn is_rate_refused(l: u8, d: u8) -> bool
    ensures { result ≡ rate_refused l d }
{
    let (l, d) = (l as u32, d as u32);
    d != 0 && 128 * l < d * (l + 1)
}

// The first of 10, 3 and 4 that a file is refused with.
#[tactic(auto, unfolding(crate::specs::File::read_answer))]
fn tried(file: &[u8]) -> Result<(), Refusal>
    ensures { result ≡ read_answer file.now }
{
    if is_malformed(file) {
        return Err(Refusal::File);
    }
    let at = number_at(file, 12) as usize;
    let l = bits::byte(file, at);
    if !(1..=11).contains(&l) {
        return Err(Refusal::Blackout);
    }
    if is_rate_refused(l, bits::byte(file, at + 3)) {
        return Err(Refusal::Rate);
    }
    Ok(())
}

// The settings in a file that holds all 36 bytes of them.
fn settings_in(file: &[u8]) -> Settings
    requires { settings_at file.now + 36 ≤ length file.now }
    ensures { result ≡ settings_of file.now }
{
    let at = number_at(file, 12) as usize;
    let direction = bits::byte(file, at + 2);
    Settings {
        l: bits::byte(file, at),
        pattern: bits::byte(file, at + 1),
        receiving: direction == 1,
        d: bits::byte(file, at + 3),
        key: bits::read(file, 8 * (at + 4), 128),
        iv: bits::read(file, 8 * (at + 20), 128),
    }
}

// Reads a file.
#[tactic(auto, using(crate::proofs::Areas::settings_inside), unfolding(crate::specs::File::contents))]
pub fn read(file: &[u8]) -> Result<Contents, Refusal>
    ensures { result ≡ contents file.now }
{
    tried(file)?;
    let settings = settings_in(file);
    Ok(Contents {
        settings,
        count: number_at(file, 4) as u64,
        start: number_at(file, 8) as u64,
    })
}
