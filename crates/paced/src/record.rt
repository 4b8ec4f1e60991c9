// A paced line's record: the line's own, D, whether it is closed, and what it holds between ticks (01, "The tick").
use line::record::Line;

// The queue has the ready bits, oldest first, and then the waiting bits, packed from the top; a bit that holds nothing is 0. M is at most 477. The counts are plain
// numbers beside it, since a host's bytes may stand for any record.
#[derive(Clone, Copy)]
pub struct Paced {
    pub line: Line,
    pub d: u8,
    pub closed: bool,
    pub ready: u16,
    pub waiting: u16,
    pub fillers: u16,
    pub queue: [u8; 60],
}
