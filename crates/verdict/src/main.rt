// Reads a job text from standard input, and prints its listing or why it is refused.
#![tactic(auto)]

use decision::decide;
use listing::SPACE;
use std::io;
use std::io::{Read, Write};

// Of a longer input the first bytes are the text.
const TEXT_LIMIT: u64 = 16_384;

fn main(rt: HostRuntime) -> io::Result<()> {
    let mut text = Vec::new(rt.alloc());
    rt.stdin().take(TEXT_LIMIT).read_to_end(&mut text)?;
    let mut space = vec![in rt.alloc(); 0u8; SPACE]?;
    match decide(&text, &mut space) {
        Ok(long) => rt.stdout().write_all(&space[0..long]),
        Err(declined) => println!(rt; "{declined}"),
    }
}
