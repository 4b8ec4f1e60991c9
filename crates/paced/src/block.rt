// Up to 128 bits through a line, from sixteen bytes into sixteen bytes.
ghost use Rattle.std.specs.Prelude.{◌≡◌, ◌≤◌};
ghost use Rattle.mode.specs.Rule.{after, outs};
ghost use Rattle.bits.specs.Bits.{pack, part};
ghost use Rattle.line.specs.View.{rule_of, view, holding};
ghost use Rattle.line.specs.Good.{Good};

use line::record::Line;

// The line after the bits, and what came out.
#[derive(Clone, Copy)]
pub struct Block {
    pub line: Line,
    pub out: [u8; 16],
}

// That the line is good is asked and not kept in a type, since the run is a method of `Line`.
pub(crate) fn passed(mut line: Line, b: [u8; 16], n: usize) -> Block
    requires { Good line × (n ≤ 128) }
    ensures line_value { result.line ≡ holding line (after (rule_of line) (view line) (part b 0 n)) }
    ensures out_value { result.out ≡ pack 16 (outs (rule_of line) (view line) (part b 0 n)) }
{
    let mut out = [0; 16];
    // So few bits are never refused.
    let _ = line.run(n, &b, &mut out);
    Block { line, out }
}
