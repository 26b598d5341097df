//! Resolution of names: which files have a fault of scope, and where it stands.

use crate::grammar::{Parsed, tree};
use ls_base::NoMemory;
use ls_scope::{ScopeFault, resolve};
use ls_sig::Resolved;
use std::alloc::Global;

/// `Accepted`, or the kind and the line of a fault.
pub fn verdict(alloc: Global, resolved: &Result<Resolved, ScopeFault>) -> Result<String, NoMemory> {
    let (kind, line) = match resolved {
        Ok(_) => return Ok(String::from_str(alloc, "Accepted")?),
        Err(ScopeFault::Twice(line)) => ("Twice", line),
        Err(ScopeFault::Unbound(line)) => ("Unbound", line),
        Err(ScopeFault::NotAllArms(line)) => ("NotAllArms", line),
        Err(ScopeFault::Mixed(line)) => ("Mixed", line),
        Err(ScopeFault::NotCombinatorial(line)) => ("NotCombinatorial", line),
        Err(ScopeFault::NoMemory) => return Err(NoMemory),
    };
    Ok(format!(in alloc; "{kind} {}", line.0)?)
}

/// The verdict on a source.
pub fn judged(alloc: Global, source: &[u8]) -> Result<String, NoMemory> {
    let Parsed::File(file) = tree(alloc, source)? else {
        return Ok(String::from_str(alloc, "no file")?);
    };
    verdict(alloc, &resolve(alloc, &file))
}
