//! Resolution of names after an environment.

use crate::grammar::{Parsed, tree};
use crate::scope::verdict;
use ls_ast::Mark;
use ls_base::{List, NoMemory};
use ls_scope::resolve_after;
use ls_sig::{Env, Sig};
use ls_terms::{ClockTerm, Kind, TypeTerm};
use std::alloc::Global;

/// The signature of `let node sample x c = x when c`; types and clocks are not looked at.
fn sample(alloc: Global, env: &mut Env) -> Result<Sig, NoMemory> {
    let mut marks = List::new(alloc);
    marks.push(Mark::Data)?;
    marks.push(Mark::Clock)?;
    Ok(Sig {
        name: env.names.add("sample")?,
        kind: Kind::Seq,
        marks,
        params: List::new(alloc),
        result: TypeTerm::Int,
        clocks: List::new(alloc),
        result_clock: ClockTerm::Var(0),
        clock_names: List::new(alloc),
    })
}

/// The environment of `type lamp = Off | On` and `sample`.
fn environment(alloc: Global) -> Result<Env, NoMemory> {
    let mut env = Env::empty(alloc)?;
    let mut cases = List::new(alloc);
    cases.push(env.names.add("Off")?)?;
    cases.push(env.names.add("On")?)?;
    let lamp = env.names.add("lamp")?;
    env.enums.push((lamp, cases))?;
    let sig = sample(alloc, &mut env)?;
    env.sigs.push(sig)?;
    Ok(env)
}

/// The verdict on a source after that environment.
pub fn judged(alloc: Global, source: &[u8]) -> Result<String, NoMemory> {
    let env = environment(alloc)?;
    let Parsed::File(file) = tree(alloc, source)? else {
        return Ok(String::from_str(alloc, "no file")?);
    };
    verdict(alloc, &resolve_after(alloc, &env, &file))
}
