// A line's record: its settings and its state, in one form for each state.
use counter::Position;

// A bit that holds nothing is 0: of the window above its count, of the IV past the bits collected. The window and its count are plain numbers here, and no fact
// stands in the type, since a host's bytes may stand for any record.
#[derive(Clone, Copy)]
pub struct Line {
    pub key: [u8; 16],
    pub pattern: u8,
    pub l: u8,
    pub receiving: bool,
    pub position: Position,
    pub window: u8,
    pub seen: u8,
    pub left: u16,
    pub iv: [u8; 16],
    pub collected: u8,
}
