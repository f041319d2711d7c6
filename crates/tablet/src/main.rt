// The console program: standard input to standard output, over a page.
// For now it writes each line back as it was understood, or `no 12`.
#![tactic(auto)]

use lines::{MAX_INPUT, echo_input};
use page::Page;
use std::io;
use std::io::{Read, Write};

const PAGE_BYTES: usize = 32_768;

fn main(rt: HostRuntime) -> io::Result<()> {
    let mut input = Vec::new(rt.alloc());
    // one byte more than may come tells an input that is too long
    rt.stdin()
        .take(MAX_INPUT as u64 + 1)
        .read_to_end(&mut input)?;
    let mut bytes = vec![in rt.alloc(); 0; PAGE_BYTES]?;
    let mut page = Page::new(&mut bytes);
    // a full page ends the run early: what stands on it is printed all the same
    let _ = echo_input(&input, &mut page);
    rt.stdout().write_all(page.lines())
}
