//! The top call.
ghost use Rattle.std.specs.Prelude.{◌≡◌, ◌≤◌, ◌⊎◌, length, true, IfSome, IsNone, option_and_then, option_map};
ghost use Rattle.ls_base.specs.Outside.{Rose};
ghost use Rattle.command_words.specs.Asked.{asked, task_of};
ghost use Rattle.lsc_cli.specs.Call.{ComesFrom, HasCause, IsInner, IsJudged, Judges};
ghost use Rattle.lsc_cli.specs.Status.{is_about_file};
ghost use Rattle.lsc_cli.specs.Words as spec;

use crate::check::check_text;
use crate::exec::exec_text;
use crate::node::run_text;
use crate::status::Status;
use command_words::{Command, Task, read_words};
use ls_base::{LoadFault, NoMemory, Sink, Source, Texts};
use std::alloc::Global;

/// Carries out the command that the words after the program's name ask for.
///
/// Where the file and the input are told, the status and the bytes written are those of the
/// network of the file's node, or of the step code, but for a fault of the outside or want of memory.
pub fn lsc<T: Texts, S: Source, K: Sink>(
    alloc: Global,
    words: &Vec<String>,
    texts: &mut T,
    input: &mut S,
    out: &mut K,
) -> Status
    ensures usage { result ≡ Status.Usage → IsNone (spec.asked_of words.now.items) }
    ensures no_form { IsNone (spec.asked_of words.now.items) → (result ≡ Status.Usage) ⊎ (result ≡ Status.NoMemory) }
    ensures judged { is_about_file result ≡ true → IfSome (spec.asked_of words.now.items) (λ job.
        IfSome (T.told texts.old job.file) (λ file.
        IsJudged job file (S.left input.old) (S.left input.new) result (K.written out.old) (K.written out.new))) }
    ensures unloaded { result ≡ Status.Unloaded → IfSome (spec.asked_of words.now.items) (λ job.
        Rose (T.count texts.old job.file) (T.count texts.new job.file)) }
    ensures causes { HasCause result (S.count input.old) (S.count input.new) (K.count out.old) (K.count out.new) ((input.new ≡ input.old) × (out.new ≡ out.old)) }
{
    match read_words(alloc, words.as_slice()) {
        Ok(found) => match built_of(found) {
            Some((file, task)) => load(alloc, file, &task, texts, input, out),
            None => Status::Usage,
        },
        Err(NoMemory) => Status::NoMemory,
    }
}

/// The file and what is done with it, where that is built.
fn built_of<'a>(found: Option<Command<'a>>) -> Option<(&'a str, Task<'a>)>
    ensures same { option_map (λ job. spec.job job.0.now job.1) result ≡ option_and_then spec.job_of (option_map asked found.entry) }
    ensures built { IfSome result (λ job. spec.is_built (task_of job.1) ≡ true) }
{
    match found? {
        Command::OnFile(file, task) => match task {
            Task::Check | Task::Run(_, _) | Task::Exec => Some((file, task)),
            Task::Code(_) | Task::Model(_) => None,
        },
        Command::Demo(_, _) => None,
    }
}

/// Loads a file, and does with it what is asked for.
fn load<T: Texts, S: Source, K: Sink>(
    alloc: Global,
    file: &str,
    task: &Task<'_>,
    texts: &mut T,
    input: &mut S,
    out: &mut K,
) -> Status
    requires { spec.is_built (task_of task.now) ≡ true }
    ensures judged { is_about_file result ≡ true → IfSome (T.told texts.old file.now) (λ bytes.
        IsJudged (spec.job file.now task.now) bytes (S.left input.old) (S.left input.new) result (K.written out.old) (K.written out.new)) }
    ensures usage { result ≡ Status.Usage → ⊥ }
    ensures unloaded { result ≡ Status.Unloaded → Rose (T.count texts.old file.now) (T.count texts.new file.now) }
    ensures causes { HasCause result (S.count input.old) (S.count input.new) (K.count out.old) (K.count out.new) ((input.new ≡ input.old) × (out.new ≡ out.old)) }
{
    let mut bytes = Vec::new(alloc);
    match texts.load(file, &mut bytes) {
        Ok(()) => carry_out(alloc, task, bytes.as_slice(), input, out),
        Err(LoadFault::Failed) => Status::Unloaded,
        Err(LoadFault::TooLong) => Status::TooLarge,
        Err(LoadFault::NoMemory) => Status::NoMemory,
    }
}

/// Does with a file of this text what is asked for.
fn carry_out<S: Source, K: Sink>(
    alloc: Global,
    task: &Task<'_>,
    text: &[u8],
    input: &mut S,
    out: &mut K,
) -> Status
    requires built { spec.is_built (task_of task.now) ≡ true }
    requires short { length text.now ≤ 1048576 }
    ensures judged { is_about_file result ≡ true → ComesFrom (Judges (task_of task.now) text.now) (spec.most_of (task_of task.now)) (S.left input.old) (S.left input.new) result (K.written out.old) (K.written out.new) }
    ensures inner { IsInner result (S.count input.old) (S.count input.new) (K.count out.old) (K.count out.new) ((input.new ≡ input.old) × (out.new ≡ out.old)) }
{
    match task {
        Task::Check => check_text(alloc, text, out),
        Task::Run(node, most) => run_text(alloc, text, node, *most, input, out),
        Task::Exec => exec_text(alloc, text, input, out),
        Task::Code(_) | Task::Model(_) => unreachable!(),
    }
}
