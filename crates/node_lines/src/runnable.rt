//! Which definitions run as nodes.

ghost use Rattle.std.specs.Prelude.{◌≡◌, map};
ghost use Rattle.ls_places.specs.Clocks.{any};
ghost use Rattle.node_lines.specs.Runnable as spec;

use ls_ast::Mark;
use ls_sig::{InitSig, Sig};
use ls_terms::TypeTerm;

/// Why a definition does not run.
#[derive(Clone, Copy, Debug, PartialEq, Eq)]
pub enum NodeFault {
    /// A parameter is a function, or a type has a variable.
    NotRunnable,
    /// The result is undefined at a first instant, whatever the inputs are.
    NotInitialised,
}

fn is_function(mark: &Mark) -> bool
    ensures { result ≡ spec.is_function mark.now }
{
    matches!(mark, Mark::Comb | Mark::Seq)
}

fn any_function(marks: &[Mark]) -> bool
    ensures { result ≡ any (map spec.is_function marks.now) }
{
    for mark in marks {
        if is_function(mark) {
            return true;
        }
    }
    false
}

#[cycle(variable)]
fn any_variable(all: &[TypeTerm]) -> bool
    ensures { result ≡ any (map spec.has_variable all.now) }
{
    for t in all {
        if has_variable(t) {
            return true;
        }
    }
    false
}

/// Whether a type has a variable.
#[cycle(variable)]
fn has_variable(t: &TypeTerm) -> bool
    ensures { result ≡ spec.has_variable t.now }
{
    match t {
        TypeTerm::Var(_) => true,
        TypeTerm::Tuple(all) => any_variable(all.as_slice()),
        TypeTerm::Arrow(_, all, to) => any_variable(all.as_slice()) || has_variable(to.get()),
        TypeTerm::Signal(of) => has_variable(of.get()),
        TypeTerm::Int => false,
        TypeTerm::Bool => false,
        TypeTerm::Char => false,
        TypeTerm::Text => false,
        TypeTerm::Unit => false,
        TypeTerm::Enum(_) => false,
    }
}

fn is_runnable(sig: &Sig) -> bool
    ensures { result ≡ spec.is_runnable sig.now }
{
    !any_function(sig.marks.as_slice())
        && !any_variable(sig.params.as_slice())
        && !has_variable(&sig.result)
}

fn is_initialised(sig: &InitSig) -> bool
    ensures { result ≡ spec.is_initialised sig.now }
{
    !sig.own
}

/// Why the definition with these signatures does not run as a node, where it does not. It is not
/// runnable where a parameter is a function or a type has a variable, and else not initialised
/// where its result is undefined by itself at a first instant.
pub fn node_fault(sig: &Sig, init: &InitSig) -> Option<NodeFault>
    ensures { result ≡ spec.node_fault sig.now init.now }
{
    if !is_runnable(sig) {
        Some(NodeFault::NotRunnable)
    } else if is_initialised(init) {
        None
    } else {
        Some(NodeFault::NotInitialised)
    }
}
