//! Prints the types of files, for tests. The input holds one file after the other, each ended by
//! a line `====`; for each the output has the lines of its types, or where it is refused, and then
//! that line again.
#![tactic(auto)]

mod answer;
#[cfg(test)]
mod limits;

use answer::answer;
use std::io;

fn main(rt: HostRuntime) -> io::Result<()> {
    let mut text = String::new(rt.alloc());
    for line in rt.lines(rt.alloc()) {
        let line = line?;
        if line.as_str() == "====" {
            let answer = answer(rt.alloc(), text.as_str())?;
            println!(rt; "{answer}====")?;
            text = String::new(rt.alloc());
        } else {
            text.push_str(line.as_str())?;
            text.push('\n')?;
        }
    }
    Ok(())
}
