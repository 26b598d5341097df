use crate::{Command, Task, read_words};
use std::test::Fail;

/// A command in a line of its own.
fn shown(alloc: Global, words: &[&str]) -> Result<String, Fail> {
    let mut owned = Vec::new(alloc);
    for word in words {
        owned.push(String::from_str(alloc, word)?)?;
    }
    let text = match read_words(alloc, owned.as_slice()).map_err(|_| AllocError)? {
        None => String::from_str(alloc, "none")?,
        Some(Command::Demo(seed, instants)) => format!(in alloc; "demo {seed} {instants}")?,
        Some(Command::OnFile(file, Task::Check)) => format!(in alloc; "check {file}")?,
        Some(Command::OnFile(file, Task::Run(node, most))) => {
            format!(in alloc; "run {file} {node} {most}")?
        }
        Some(Command::OnFile(file, Task::Code(node))) => format!(in alloc; "code {file} {node}")?,
        Some(Command::OnFile(file, Task::Model(node))) => {
            format!(in alloc; "model {file} {node}")?
        }
        Some(Command::OnFile(file, Task::Exec)) => format!(in alloc; "exec {file}")?,
    };
    Ok(text)
}

use std::alloc::{AllocError, Global};

#[test]
fn words_are_read(rt: HostRuntime) -> Result<(), Fail> {
    let cases: [(&[&str], &str); 26] = [
        (&[], "none"),
        (&["check", "f"], "check f"),
        (&["check", "f", "g"], "none"),
        (&["run", "f", "n"], "run f n 4294967295"),
        (&["run", "--max", "3", "f", "n"], "run f n 3"),
        (&["run", "f", "--max=003", "n"], "run f n 3"),
        (&["run", "f", "n", "--max=0"], "none"),
        (&["run", "f", "n", "--max=4294967296"], "none"),
        (&["run", "f", "n", "--max=+3"], "none"),
        (&["run", "f", "n", "--max"], "none"),
        (&["run", "f", "n", "--max", "-1"], "none"),
        (&["run", "f", "n", "--max", "--"], "none"),
        (&["run", "f", "n", "--max", "1", "--max", "2"], "none"),
        (&["run", "f", "n", "--ma", "1"], "none"),
        (&["run", "f", "n", "--help"], "none"),
        (&["run", "-h"], "none"),
        (&["run", "--", "--max", "-n"], "run --max -n 4294967295"),
        (&["run", "--", "f", "--"], "run f -- 4294967295"),
        (&["run", "-", ""], "run -  4294967295"),
        (&["run", "f"], "none"),
        (&["-x", "f"], "none"),
        (&["exec", "f"], "exec f"),
        (&["exec", "f", "--max", "2"], "none"),
        (&["demo", "7", "200000"], "demo 7 200000"),
        (&["demo", "7", "200001"], "none"),
        (&["demo", "-7", "1"], "none"),
    ];
    for (words, wanted) in cases {
        assert_eq!(rt; shown(rt.alloc(), words)?.as_str(), wanted);
    }
    Ok(())
}
