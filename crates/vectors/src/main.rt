// Enciphers known answers with `aes::block` and prints how many there are and how many agree.
//
// Standard input holds the cases, 48 bytes each: key, plaintext, ciphertext. In their order:
//   2  FIPS 197, appendix B and appendix C.1;
//   7  AESAVS GFSbox, and 21 AESAVS KeySbox, at 128 bits;
// 128  AESAVS VarTxt: the key 0, and the plaintext whose first i bits are 1, for i from 1 to 128;
// 128  AESAVS VarKey: the same with key and plaintext exchanged.
// Each ciphertext is what `openssl enc -aes-128-ecb -nopad -K KEY` (OpenSSL 3.0) makes of the plaintext.
#![tactic(auto)]

use std::io;
use std::io::Input;

// Whether the case agrees.
fn agrees(case: &[u8; 48]) -> bool {
    let mut got = [0; 16];
    aes::block(&case[..16], &case[16..32], &mut got).is_ok() && got[..] == case[32..]
}

fn main(rt: HostRuntime) -> io::Result<()> {
    let mut buf = [0; 16384];
    // A read that fails ends the cases.
    let n = console::read_input(&mut rt.reader(), &mut buf).unwrap_or_else(|cut_off| cut_off.bytes);
    let (cases, _) = buf[..n].as_chunks::<48>();
    let all = cases.len();
    let same = cases.iter().filter(|case| agrees(case)).count();
    println!(rt; "vectors {all} same {same}")
}
