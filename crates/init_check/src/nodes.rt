//! The numbers of the nodes of a body's graph, and those that a name stands for.

ghost use Rattle.std.specs.Prelude.{◌≡◌, ◌++◌, OnOk};
ghost use Rattle.init_check.specs.Walks as own;
ghost use Rattle.init_rules.specs.Bits as bits;
ghost use Rattle.init_rules.specs.Nodes.{counts, total};
ghost use Rattle.init_rules.specs.Nodes as spec;
ghost use Rattle.ls_places.specs.Clocks as clocks;
ghost use Rattle.ls_places.specs.Search.{nth as variable};
ghost use Rattle.place_tables.specs.Tables.{param_in};

use ls_base::{List, NoMemory};
use ls_places::{Definition, Frame, Variable};
use ls_sig::{Binder, Note};
use ls_terms::TypeTerm;
use place_tables::{Tables, nth};

/// The node of the bit that is 1 always.
pub const ALWAYS: u32 = 0;

/// The node that reads all that has to be 0.
pub const WRONG: u32 = 1;

// The node of what is not there.
const NOTHING: u32 = 2;

/// The number of nodes.
pub fn total_nodes(d: &Definition) -> u64
    ensures { result ≡ total (counts d.now) }
{
    let params = d.params.len() as u64;
    let vars = d.places.vars.len() as u64;
    let exprs = d.places.exprs.len() as u64;
    3 + params + vars + vars + exprs
}

fn param_node(d: &Definition, k: u32) -> u32
    requires { own.fits d.now }
    ensures { result ≡ spec.param_node (counts d.now) k }
{
    if (k as usize) < d.params.len() {
        3 + k
    } else {
        NOTHING
    }
}

/// The node of a variable.
pub fn var_node(d: &Definition, k: u32) -> u32
    requires { own.fits d.now }
    ensures { result ≡ spec.var_node (counts d.now) k }
{
    if (k as usize) < d.places.vars.len() {
        3 + d.params.len() as u32 + k
    } else {
        NOTHING
    }
}

fn start_node(d: &Definition, k: u32) -> u32
    requires { own.fits d.now }
    ensures { result ≡ spec.start_node (counts d.now) k }
{
    if (k as usize) < d.places.vars.len() {
        3 + d.params.len() as u32 + d.places.vars.len() as u32 + k
    } else {
        NOTHING
    }
}

/// The node of a whole expression.
pub fn whole_node(d: &Definition, k: u32) -> u32
    requires { own.fits d.now }
    ensures { result ≡ spec.whole_node (counts d.now) k }
{
    if (k as usize) < d.places.exprs.len() {
        3 + d.params.len() as u32 + d.places.vars.len() as u32 + d.places.vars.len() as u32 + k
    } else {
        NOTHING
    }
}

fn add_param(d: &Tables, x: u32, out: &mut List<u32>) -> Result<(), NoMemory>
    requires { own.fits d.now }
    ensures { OnOk result (out.new ≡ out.old ++ own.param_nodes d.now (param_in x d.now.params 0)) }
{
    match d.param_of(x) {
        None => Ok(()),
        Some(k) => out.push(param_node(d.definition(), k)),
    }
}

/// What a name that is bound so stands for.
pub fn add_name(d: &Tables, bound: Binder, x: u32, out: &mut List<u32>) -> Result<(), NoMemory>
    requires { own.fits d.now }
    ensures { OnOk result (out.new ≡ out.old ++ own.name_nodes d.now bound x) }
{
    match bound {
        Binder::Var(k) => out.push(var_node(d.definition(), k)),
        Binder::Param(_) => add_param(d, x, out),
        Binder::Nothing => Ok(()),
        Binder::Def(_) => Ok(()),
        Binder::Case(_, _) => Ok(()),
    }
}

/// What `last` of a variable stands for: its initial equation, and 1 where there is none.
pub fn add_start(d: &Tables, k: u32, w: &Variable, out: &mut List<u32>) -> Result<(), NoMemory>
    requires { own.fits d.now }
    ensures { OnOk result (out.new ≡ out.old ++ own.start_nodes d.now k w.now) }
{
    match d.start_of(w) {
        None => out.push(ALWAYS),
        Some(_) => out.push(start_node(d.definition(), k)),
    }
}

fn add_last_of(d: &Tables, k: u32, out: &mut List<u32>) -> Result<(), NoMemory>
    requires { own.fits d.now }
    ensures { OnOk result (out.new ≡ out.old ++ own.last_sources_of d.now k (variable d.now.places.vars k)) }
{
    match nth(d.definition().places.vars.as_slice(), k as usize) {
        None => Ok(()),
        Some(w) => add_start(d, k, w, out),
    }
}

/// What `last x` stands for.
pub fn add_last(d: &Tables, bound: Binder, out: &mut List<u32>) -> Result<(), NoMemory>
    requires { own.fits d.now }
    ensures { OnOk result (out.new ≡ out.old ++ own.last_sources d.now bound) }
{
    match bound {
        Binder::Var(k) => add_last_of(d, k, out),
        Binder::Param(_) => Ok(()),
        Binder::Nothing => Ok(()),
        Binder::Def(_) => Ok(()),
        Binder::Case(_, _) => Ok(()),
    }
}

fn add_last_zeros_of(
    d: &Tables,
    place: &[Frame],
    k: u32,
    out: &mut List<u32>,
) -> Result<(), NoMemory>
    requires { own.fits d.now }
    ensures { OnOk result (out.new ≡ out.old ++ own.last_zeros_of d.now place.now k (variable d.now.places.vars k)) }
{
    match nth(d.definition().places.vars.as_slice(), k as usize) {
        None => Ok(()),
        Some(w) => {
            out.push(var_node(d.definition(), k))?;
            if leaves_reset(place, w.place.as_slice()) {
                add_start(d, k, w, out)
            } else {
                Ok(())
            }
        }
    }
}

/// What has to be 0 for `last x` at a place.
pub fn add_last_zeros(
    d: &Tables,
    place: &[Frame],
    bound: Binder,
    out: &mut List<u32>,
) -> Result<(), NoMemory>
    requires { own.fits d.now }
    ensures { OnOk result (out.new ≡ out.old ++ own.last_zeros d.now place.now bound) }
{
    match bound {
        Binder::Var(k) => add_last_zeros_of(d, place, k, out),
        Binder::Param(_) => Ok(()),
        Binder::Nothing => Ok(()),
        Binder::Def(_) => Ok(()),
        Binder::Case(_, _) => Ok(()),
    }
}

fn holds_reset(r: u32, place: &[Frame]) -> bool
    ensures { result ≡ bits.holds_reset r place.now }
{
    for frame in place {
        match frame {
            Frame::Reset(q) => {
                if r == *q {
                    return true;
                }
            }
            Frame::Arm(_, _) => {}
        }
    }
    false
}

fn is_reset(r: u32, frame: &Frame) -> bool
    ensures { result ≡ own.is_reset r frame.now }
{
    match frame {
        Frame::Reset(q) => r == *q,
        Frame::Arm(_, _) => false,
    }
}

// Whether this `reset` stands at a place among what is around. It mostly does where it is asked.
fn is_reset_at(r: u32, place: &[Frame], at: usize) -> bool
    ensures { own.IsHeld result r place.now }
{
    match nth(place, at) {
        None => false,
        Some(frame) => is_reset(r, frame),
    }
}

fn is_held(r: u32, place: &[Frame], at: usize) -> bool
    ensures { result ≡ bits.holds_reset r place.now }
{
    is_reset_at(r, place, at) || holds_reset(r, place)
}

/// Whether a `reset` around the second place is not around the first.
fn leaves_reset(p: &[Frame], q: &[Frame]) -> bool
    ensures { result ≡ bits.leaves_reset p.now q.now }
{
    for (at, frame) in q.iter().enumerate() {
        match frame {
            Frame::Reset(r) => {
                if !is_held(*r, p, at) {
                    return true;
                }
            }
            Frame::Arm(_, _) => {}
        }
    }
    false
}

/// Whether an expression is a function.
pub fn is_function(note: &Note) -> bool
    ensures { result ≡ clocks.is_function note.now }
{
    match note.ty {
        TypeTerm::Arrow(_, _, _) => true,
        _ => false,
    }
}
