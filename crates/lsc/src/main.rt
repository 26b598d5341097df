//! The program: gives the real objects of the outside to the top call, and ends with its status.
#![tactic(auto)]

use ls_base::{FileTexts, InputSource, OutputSink};
use lsc_cli::{Status, lsc};
use std::process::ExitCode;
use std::rt::Env;
use std::{env, io};

fn main(rt: HostRuntime) -> ExitCode {
    let status = match words(&rt) {
        Ok(words) => lsc(
            rt.alloc(),
            &words,
            &mut FileTexts::new(&rt),
            &mut InputSource::new(&rt),
            &mut OutputSink::new(&rt),
        ),
        Err(error) => status_of(&error),
    };
    ExitCode::from(status.number())
}

/// The words after the program's name.
fn words(rt: &(impl Env + AllocGlobal)) -> io::Result<Vec<String>> {
    let mut words = env::args(rt)?;
    let _program = words.next();
    Ok(words.collect(rt.alloc())?)
}

/// The words are of no form where one is not UTF-8.
fn status_of(error: &io::Error) -> Status {
    match error.kind() {
        io::ErrorKind::OutOfMemory => Status::NoMemory,
        _ => Status::Usage,
    }
}
