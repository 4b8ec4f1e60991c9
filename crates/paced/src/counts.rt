// What a tick or a closing that is done answers.

// The number of line bits written, and the number of bits waiting.
#[derive(Clone, Copy, Debug, PartialEq, Eq)]
pub struct Counts {
    pub bits: u16,
    pub waiting: u16,
}
