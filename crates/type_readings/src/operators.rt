//! The schemes of literals and operators.

ghost use Rattle.std.specs.Prelude.{◌≡◌, ◌<◌, ◌^◌, ◌∷◌, [], IfOk, replicate};
ghost use Rattle.type_rules.specs.Expressions as spec;

use crate::fits::any;
use ls_base::{List, NoMemory};
use ls_ops::OpSign;
use ls_terms::TypeTerm;
use ls_value::Leaf;
use std::alloc::Global;

/// The type of a literal. The missing value has any.
pub fn literal_type(leaf: &Leaf) -> TypeTerm
    ensures { result ≡ spec.literal_type leaf.now }
{
    match leaf {
        Leaf::Nil => any(),
        Leaf::Int(_) => TypeTerm::Int,
        Leaf::Bool(_) => TypeTerm::Bool,
        Leaf::Char(_) => TypeTerm::Char,
        Leaf::Text(_) => TypeTerm::Text,
        Leaf::Enum(e, _) => TypeTerm::Enum(*e),
        Leaf::Unit => TypeTerm::Unit,
    }
}

fn ints(alloc: Global, count: u8) -> Result<List<TypeTerm>, NoMemory>
    ensures { IfOk result (λ r. r ≡ replicate count TypeTerm.Int) }
{
    let mut list = List::new(alloc);
    for k in 0..count {
        prove!(k < count);
        list.push(TypeTerm::Int)?;
    }
    Ok(list)
}

fn bools(alloc: Global, count: u8) -> Result<List<TypeTerm>, NoMemory>
    ensures { IfOk result (λ r. r ≡ replicate count TypeTerm.Bool) }
{
    let mut list = List::new(alloc);
    for k in 0..count {
        prove!(k < count);
        list.push(TypeTerm::Bool)?;
    }
    Ok(list)
}

fn one_char(alloc: Global) -> Result<List<TypeTerm>, NoMemory>
    ensures { IfOk result (λ r. r ≡ TypeTerm.Char ∷ []) }
{
    let mut list = List::new(alloc);
    list.push(TypeTerm::Char)?;
    Ok(list)
}

/// The schemes of the operands of an operator.
pub fn operand_types(alloc: Global, sign: OpSign) -> Result<List<TypeTerm>, NoMemory>
    ensures { IfOk result (λ r. r ≡ spec.operand_types sign) }
{
    match sign {
        OpSign::Ints(count) => ints(alloc, count),
        OpSign::IntPred(count) => ints(alloc, count),
        OpSign::Bools(count) => bools(alloc, count),
        OpSign::CharPred => one_char(alloc),
        OpSign::CharInt => one_char(alloc),
        OpSign::Same => {
            let mut list = List::new(alloc);
            list.push(any())?;
            list.push(any())?;
            Ok(list)
        }
        OpSign::Choice => {
            let mut list = List::new(alloc);
            list.push(TypeTerm::Bool)?;
            list.push(any())?;
            list.push(any())?;
            Ok(list)
        }
    }
}

/// The scheme of the result of an operator.
pub fn result_type(sign: OpSign) -> TypeTerm
    ensures { result ≡ spec.result_type sign }
{
    match sign {
        OpSign::Ints(_) => TypeTerm::Int,
        OpSign::CharInt => TypeTerm::Int,
        OpSign::IntPred(_) => TypeTerm::Bool,
        OpSign::Bools(_) => TypeTerm::Bool,
        OpSign::CharPred => TypeTerm::Bool,
        OpSign::Same => TypeTerm::Bool,
        OpSign::Choice => any(),
    }
}

/// Variables of a scheme, from 0 on.
pub fn variables(alloc: Global, count: usize) -> Result<List<TypeTerm>, NoMemory>
    requires { count < 2 ^ 32 }
    ensures { IfOk result (λ r. r ≡ spec.vars_from 0 count) }
{
    let mut list = List::new(alloc);
    for k in 0..count {
        list.push(TypeTerm::Var(k as u32))?;
    }
    Ok(list)
}
