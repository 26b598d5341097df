//! Programs with a row that is known by hand.

use crate::hints::Hint;
use crate::run::run;
use std::alloc::Global;
use std::test::Fail;

/// A node of a program, the rows of its parameters, and its own. In rows `.` is a signal that is
/// not emitted, and `!` an alarm.
#[derive(Clone, Copy)]
pub struct Known<'a> {
    pub what: &'a str,
    pub node: &'a str,
    pub text: &'a str,
    /// What is told in place of types and clocks.
    pub hints: &'a [Hint<'a>],
    pub args: &'a [&'a str],
    pub row: &'a str,
}

/// What those of these programs are whose rows are others, and their rows.
pub fn others(alloc: Global, all: &[Known]) -> Result<String, Fail> {
    let mut found = String::new(alloc);
    for known in all {
        let row = run(alloc, known)?;
        if row.as_str() != known.row {
            let line = format!(in alloc; "{}: {}; ", known.what, row.as_str())?;
            found.push_str(line.as_str())?;
        }
    }
    Ok(found)
}
