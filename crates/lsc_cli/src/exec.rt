//! Step code is run.
ghost use Rattle.std.specs.Prelude.{◌≡◌, ◌≤◌, length, true};
ghost use Rattle.step_code.specs.Steps.{first_slots};
ghost use Rattle.step_runner.specs.Running.{node_on};
ghost use Rattle.command_words.specs.Forms.{most_lines};
ghost use Rattle.lsc_cli.specs.Call.{ComesFrom, IsInner};
ghost use Rattle.lsc_cli.specs.Run.{Runs};
ghost use Rattle.lsc_cli.specs.Start.{IsCodeStart};
ghost use Rattle.lsc_cli.specs.Status.{is_about_file};

use crate::refusal::refuse_code;
use crate::run::run_machine;
use crate::status::Status;
use ls_base::{Sink, Source};
use std::alloc::Global;
use step_code::Code;
use step_runner::Machine;
use step_text::{CodeFault, read_code};

/// Runs step code of this text.
pub(crate) fn exec_text<S: Source, K: Sink>(
    alloc: Global,
    text: &[u8],
    input: &mut S,
    out: &mut K,
) -> Status
    requires { length text.now ≤ 1048576 }
    ensures judged { is_about_file result ≡ true → ComesFrom (IsCodeStart text.now) most_lines (S.left input.old) (S.left input.new) result (K.written out.old) (K.written out.new) }
    ensures inner { IsInner result (S.count input.old) (S.count input.new) (K.count out.old) (K.count out.new) ((input.new ≡ input.old) × (out.new ≡ out.old)) }
{
    match read_code(alloc, text) {
        Ok(code) => run_code(alloc, code, input, out),
        Err(CodeFault::NoMemory) => Status::NoMemory,
        Err(fault) => refuse_code(fault, out),
    }
}

/// Runs step code.
fn run_code<S: Source, K: Sink>(alloc: Global, code: Code, input: &mut S, out: &mut K) -> Status
    ensures runs { is_about_file result ≡ true → Runs (node_on code (first_slots code)) most_lines (S.left input.old) (S.left input.new) result (K.written out.old) (K.written out.new) }
    ensures inner { IsInner result (S.count input.old) (S.count input.new) (K.count out.old) (K.count out.new) ((input.new ≡ input.old) × (out.new ≡ out.old)) }
{
    match Machine::new(alloc, code) {
        Ok(mut machine) => run_machine(alloc, &mut machine, u32::MAX, input, out),
        Err(_) => Status::NoMemory,
    }
}
