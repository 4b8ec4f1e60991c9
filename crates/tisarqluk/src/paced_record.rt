// A paced line's record in a lent buffer (docs/RECORD.md).
ghost use Rattle.std.specs.Prelude.{◌≡◌, ◌≤◌, length};
ghost use Rattle.tisarqluk.specs.PacedRecord.{paced_in, stored_paced, holds_paced};

use super::record::Record;
use super::{bytes, free_record};
use paced::record::Paced;

// Byte 0.
const KIND: u8 = b'P';

impl Record for Paced {
    ghost BYTES = { 126 };

    ghost holds = { holds_paced };

    ghost loaded = { paced_in };

    ghost stored = { stored_paced };

    const BYTES: usize = 126;

    #[tactic(auto, unfolding(crate::specs::PacedRecord::holds_paced, crate::specs::PacedRecord::paced_in))]
    fn load(buf: &[u8]) -> Option<Paced> {
        if buf.len() < Paced::BYTES || buf[0] != KIND || 1 < buf[3] || 1 < buf[59] {
            return None;
        }
        let queue = bytes::array(buf, 66);
        Some(Paced {
            line: free_record::line_in(buf),
            d: buf[58],
            closed: buf[59] == 1,
            ready: bytes::number(buf, 60),
            waiting: bytes::number(buf, 62),
            fillers: bytes::number(buf, 64),
            queue,
        })
    }

    fn store(self, buf: &mut [u8]) {
        free_record::put_line(KIND, self.line, buf);
        buf[58..60].copy_from_slice(&[self.d, u8::from(self.closed)]);
        buf[60..62].copy_from_slice(&self.ready.to_be_bytes());
        buf[62..64].copy_from_slice(&self.waiting.to_be_bytes());
        buf[64..66].copy_from_slice(&self.fillers.to_be_bytes());
        buf[66..126].copy_from_slice(&self.queue);
    }
}
