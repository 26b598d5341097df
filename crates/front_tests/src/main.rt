//! Answers questions about files and about terms, for tests. A line of the input is a question: a
//! word that says what is asked, and of what. The output has each of them again, and in the line
//! that follows the answer behind two blanks. In a question `@` stands for the end of a line of a
//! file, and `%HH` for a byte.
#![tactic(auto)]

mod answer;
mod environment;
mod grammar;
mod large;
mod names;
mod places;
mod scope;
mod terms;
mod tokens;
mod trees;

use answer::answer;
use std::io;

fn main(rt: HostRuntime) -> io::Result<()> {
    for line in rt.lines(rt.alloc()) {
        let line = line?;
        match answer(rt.alloc(), line.as_str()) {
            Ok(answer) => println!(rt; "{line}\n  {answer}")?,
            Err(_) => return Err(io::Error::from(io::ErrorKind::OutOfMemory)),
        }
    }
    Ok(())
}
