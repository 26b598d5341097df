//! The types of constructors.

ghost use Rattle.std.specs.Prelude.{◌≡◌, ◌+◌, nat_eq, slice_get, length, IfOk, OnOk, ℕ};
ghost use Rattle.indexmap.specs.IndexMap.{get};
ghost use Rattle.type_infer.specs.Constructors as spec;
ghost use Rattle.type_rules.specs.Files.{enumeration_of};

use indexmap::IndexMap;
use ls_ast::DefOf;
use ls_base::{List, Name, Names, NoMemory};
use ls_sig::{Env, Resolved, Use};
use ls_terms::TypeTerm;
use std::alloc::Global;
use type_readings::CaseTypes;

fn add_name(k: u32, name: u32, table: &mut IndexMap<u32, u32>) -> Result<(), NoMemory>
    ensures { OnOk result (spec.NameMore k name table.old table.new) }
{
    if table.contains_key(&name) {
        return Ok(());
    }
    match table.insert(name, k) {
        Ok(_) => Ok(()),
        Err(_) => Err(NoMemory),
    }
}

/// The constructors of one more enumeration.
fn add_names(k: u32, names: &[Name], table: &mut IndexMap<u32, u32>) -> Result<(), NoMemory>
    ensures { OnOk result (spec.NamesMore k names.now table.old table.new) }
{
    for name in names {
        add_name(k, name.0, table)?;
    }
    Ok(())
}

fn after(k: u32) -> Result<u32, NoMemory>
    ensures { IfOk result (λ r. r ≡ k + 1) }
{
    match k.checked_add(1) {
        Some(next) => Ok(next),
        None => Err(NoMemory),
    }
}

/// The enumerations of an environment.
fn earlier_table(
    alloc: Global,
    enums: &[(Name, List<Name>)],
) -> Result<IndexMap<u32, u32>, NoMemory>
    ensures { IfOk result (λ r. (x : ℕ) → get nat_eq r x ≡ spec.enumeration_in 0 enums.now x) }
{
    let mut table = IndexMap::new(alloc);
    let mut k = 0;
    for entry in enums {
        add_names(k, entry.1.as_slice(), &mut table)?;
        k = after(k)?;
    }
    Ok(table)
}

/// One more definition of a file, where the next enumeration has the number k. Answers the number
/// after it.
fn add_definition(k: u32, def: &DefOf<Use>, table: &mut IndexMap<u32, u32>) -> Result<u32, NoMemory>
    ensures next { IfOk result (λ r. r ≡ spec.next_enumeration k def.now) }
    ensures table { OnOk result (spec.DefinitionMore k def.now table.old table.new) }
{
    match def {
        DefOf::Cases { cases, .. } => {
            add_names(k, cases.as_slice(), table)?;
            after(k)
        }
        DefOf::Let { .. } => Ok(k),
    }
}

/// The enumerations of a file, numbered from a number on.
fn own_table(alloc: Global, first: u32, defs: &[DefOf<Use>]) -> Result<IndexMap<u32, u32>, NoMemory>
    ensures { IfOk result (λ r. (x : ℕ) → get nat_eq r x ≡ enumeration_of first defs.now x) }
{
    let mut table = IndexMap::new(alloc);
    let mut k = first;
    for def in defs {
        k = add_definition(k, def, &mut table)?;
    }
    Ok(table)
}

/// The number of a spelling.
fn number_of(names: &Names, text: &str) -> Option<u32>
    ensures { result ≡ spec.spelling_at 0 names.now text.now }
{
    let count = names.len();
    match names.find(text) {
        None => None,
        Some(name) => {
            prove!(count == count);
            Some(name.0)
        }
    }
}

/// The types of the constructors of a file after an environment.
#[derive(Drop)]
pub struct FileCases<'a> {
    env: &'a Env,
    file: &'a Resolved,
    earlier: IndexMap<u32, u32>,
    own: IndexMap<u32, u32>,
    ghost earlier_is: { (x : ℕ) → get nat_eq earlier x ≡ spec.enumeration_in 0 env.now.enums x },
    ghost own_is: { (x : ℕ) → get nat_eq own x ≡ enumeration_of (length env.now.enums) file.now.defs x },
}

impl FileCases<'_> {
    pub fn new<'a>(
        alloc: Global,
        env: &'a Env,
        file: &'a Resolved,
    ) -> Result<FileCases<'a>, NoMemory>
        ensures env { IfOk result (λ r. r.env.now ≡ env.now) }
        ensures file { IfOk result (λ r. r.file.now ≡ file.now) }
    {
        let earlier = earlier_table(alloc, env.enums.as_slice())?;
        let own = own_table(alloc, env.enums.len() as u32, file.defs.as_slice())?;
        Ok(FileCases {
            env,
            file,
            earlier,
            own,
        })
    }

    /// The enumeration of the environment that has the constructor.
    fn enumeration_before(&self, name: u32) -> Option<u32>
        ensures { result ≡ spec.enumeration_before self.now.env.now (slice_get self.now.file.now.names name) }
    {
        match self.file.names.spell(Name(name)) {
            None => None,
            Some(text) => match number_of(&self.env.names, text) {
                None => None,
                Some(own) => match self.earlier.get(&own) {
                    Some(k) => Some(*k),
                    None => None,
                },
            },
        }
    }

    fn enumeration(&self, name: u32) -> Option<u32>
        ensures { result ≡ spec.enumeration self.now.env.now self.now.file.now name }
    {
        match self.enumeration_before(name) {
            Some(k) => Some(k),
            None => match self.own.get(&name) {
                Some(k) => Some(*k),
                None => None,
            },
        }
    }
}

impl CaseTypes for FileCases<'_> {
    ghost use Rattle.type_infer.specs.Constructors as spec;

    ghost case_type = { λ it name. spec.case_type it.env.now it.file.now name };

    fn case_type(&self, name: u32) -> Option<TypeTerm> {
        if name == 0 || name == 1 {
            return Some(TypeTerm::Bool);
        }
        match self.enumeration(name) {
            Some(k) => Some(TypeTerm::Enum(k)),
            None => None,
        }
    }
}
