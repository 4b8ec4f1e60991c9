// `syncs`: prints where patterns end in the bits of the line file on standard input (01, "Line files and the two programs").
#![tactic(auto)]

use linefile::scanning;
use linefile::scanning::Syncs;
use refusal::Refusal;
use std::io;
use std::io::{Input, Stdout};

// The bit count and the number of patterns, and for each of them its last bit and the first bit under the new counter; or the line of a refusal.
fn print(out: Stdout, scanned: Result<Syncs, Refusal>, ends: &[u32]) -> io::Result<()> {
    let Syncs { bits, l, found } = match scanned {
        Ok(syncs) => syncs,
        Err(refusal) => return println!(out; "{refusal}"),
    };
    println!(out; "bits {bits} syncs {found}")?;
    for &end in ends.iter().take(found) {
        println!(out; "{end} {}", scanning::first_under_new(l, end))?;
    }
    Ok(())
}

fn main(rt: HostRuntime) {
    // As in `linerun`, but for the second buffer and what is done. One byte more than a file may have, and room for more patterns than so many bits can hold, each with its blackout.
    let mut file = [0; 65537];
    let mut ends = [0; 4096];
    let Ok(n) = console::read_input(&mut rt.reader(), &mut file) else {
        let _ = eprintln!(rt; "syncs: the input cannot be read");
        return;
    };
    let scanned = scanning::scan(&file[..n], &mut ends);
    if print(rt.stdout(), scanned, &ends).is_err() {
        let _ = eprintln!(rt; "syncs: the output cannot be written");
    }
}
