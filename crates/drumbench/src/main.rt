// Runs a script from standard input and writes the answer to each of its lines.
#![tactic(auto)]

use bench::session::Session;
use bench::{help, writing};
use std::io::{BufRead, BufReader, Write};

fn main(rt: HostRuntime) -> anyhow::Result<()> {
    let heap = rt.alloc();
    let mut session = Session::new();
    let mut input = BufReader::new(heap, rt.stdin())?;
    // One buffer for every line: `split` makes a new one for each, which costs an empty line three times the work and a long one twice the memory.
    let mut line = Vec::new(heap);
    let mut text = String::new(heap);
    for count in 0..u64::MAX {
        line.clear();
        text.clear();
        if input.read_until(b'\n', &mut line)? == 0 {
            if count == 0 {
                rt.stdout().write_all(help::HELP.as_bytes())?;
            }
            break;
        }
        if line.last() == Some(&b'\n') {
            line.pop();
        }
        writing::write_answer(&mut text, session.run_line(&line))?;
        rt.stdout().write_all(text.as_bytes())?;
    }
    Ok(())
}
