// Reads a sheet from standard input, compares its starts 0 and 1 and prints the report or the refusal. A sheet has at most 724
// bytes, so one byte more is enough to refuse a longer input.
#![tactic(auto)]

use std::io::{self, Write};

fn main(rt: HostRuntime) -> io::Result<()> {
    let mut sheet = [0u8; 725];
    let mut out = [0u8; 65536];
    let n = input_bytes::read_full(&mut rt.stdin(), &mut sheet)?;
    let k = sheet_text::sheet_text(&sheet[..n], &mut out);
    rt.stdout().write_all(&out[..k])
}
