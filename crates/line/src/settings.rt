// What a line is opened with (01, "Bits and settings").

// A key and an IV, which may be of any length until an opening has tried them; the pattern; L; and whether the line receives.
#[derive(Clone, Copy)]
pub struct Settings<'a> {
    pub key: &'a [u8],
    pub iv: &'a [u8],
    pub pattern: u8,
    pub l: u64,
    pub receiving: bool,
}
