// A free line's record in a lent buffer (docs/RECORD.md), and the part that a paced line's record shares with it.
ghost use Rattle.std.specs.Prelude.{◌≡◌, ◌++◌, ◌≤◌, length, drop};
ghost use Rattle.tisarqluk.specs.FreeRecord.{line_bytes, line_in as line_in_of, stored_free, holds_free};

use super::bytes;
use super::record::Record;
use counter::Position;
use line::record::Line;

// Byte 0.
const KIND: u8 = b'F';

// The line that stands in a buffer, which has a record of either kind and says so in no type of its own.
#[tactic(auto, unfolding(crate::specs::FreeRecord::line_in))]
pub(crate) fn line_in(buf: &[u8]) -> Line
    requires { 58 ≤ length buf.now }
    ensures { result ≡ line_in_of buf.now }
{
    let key = bytes::array(buf, 4);
    let counter = bytes::array(buf, 20);
    let iv = bytes::array(buf, 41);
    Line {
        key,
        pattern: buf[2],
        l: buf[1],
        receiving: buf[3] == 1,
        position: Position {
            counter,
            place: buf[36],
        },
        window: buf[37],
        seen: buf[38],
        left: bytes::number(buf, 39),
        iv,
        collected: buf[57],
    }
}

// Writes the first 58 bytes of a record of this kind.
pub(crate) fn put_line(kind: u8, line: Line, buf: &mut [u8])
    requires { 58 ≤ length buf.old }
    ensures { buf.new ≡ line_bytes kind line ++ drop 58 buf.old }
{
    let p = line.position;
    let [high, low] = line.left.to_be_bytes();
    buf[..4].copy_from_slice(&[kind, line.l, line.pattern, u8::from(line.receiving)]);
    buf[4..20].copy_from_slice(&line.key);
    buf[20..36].copy_from_slice(&p.counter);
    buf[36..41].copy_from_slice(&[p.place, line.window, line.seen, high, low]);
    buf[41..57].copy_from_slice(&line.iv);
    buf[57] = line.collected;
}

impl Record for Line {
    ghost BYTES = { 58 };

    ghost holds = { holds_free };

    ghost loaded = { line_in_of };

    ghost stored = { stored_free };

    const BYTES: usize = 58;

    #[tactic(auto, unfolding(crate::specs::FreeRecord::holds_free))]
    fn load(buf: &[u8]) -> Option<Line> {
        if buf.len() < Line::BYTES || buf[0] != KIND || 1 < buf[3] {
            return None;
        }
        Some(line_in(buf))
    }

    fn store(self, buf: &mut [u8]) {
        put_line(KIND, self, buf);
    }
}
