// `linerun`: writes the result bits of the line file on standard input (01, "Line files and the two programs").
#![tactic(auto)]

ghost use Rattle.std.specs.Prelude.{◌*◌, ◌≤◌, length, IfOk};

use linefile::running;
use refusal::Refusal;
use std::io;
use std::io::{Input, Stdout};

// The bytes of the output that the bits fill, or the line of a refusal.
fn write(out: Stdout, ran: Result<u64, Refusal>, output: &[u8]) -> io::Result<()>
    requires { IfOk ran (λ bits. bits ≤ 8 * length output.now) }
{
    match ran {
        Ok(bits) => out.write_all(&output[..bits.div_ceil(8) as usize]),
        Err(refusal) => println!(out; "{refusal}"),
    }
}

#[tactic(auto, using(linefile::proofs::Results::result_fits))]
fn main(rt: HostRuntime) {
    // One byte more than a file may have.
    let mut file = [0; 65537];
    let mut output = [0; 65536];
    let Ok(n) = console::read_input(&mut rt.reader(), &mut file) else {
        let _ = eprintln!(rt; "linerun: the input cannot be read");
        return;
    };
    let ran = running::run(&file[..n], &mut output);
    if write(rt.stdout(), ran, &output).is_err() {
        let _ = eprintln!(rt; "linerun: the output cannot be written");
    }
}
