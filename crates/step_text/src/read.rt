//! The text of step code is read.

ghost use Rattle.std.specs.Prelude.{◌≡◌, ◌≢◌, ◌<◌, ◌≤◌, ◌+◌, ◌++◌, ◌∷◌, [], ℕ, List, Some, None, true, false, All, IfOk, IfErr, IfSome, IfNone, IsTrue, length, take, drop, ◌&&◌, ◌==◌};
ghost use Rattle.line_io.specs.Line.{NoNewline};
ghost use Rattle.step_code.specs.Drafts as drafts;
ghost use Rattle.step_code.specs.Valid.{first_fault, is_formed};
ghost use Rattle.step_code.specs.declared.parts.Fault.{Fault};
ghost use Rattle.step_text.specs.Entries.{entry_text, entry_words};
ghost use Rattle.step_text.specs.Legal.{IsEntry};
ghost use Rattle.step_text.specs.Lines as lines_of;
ghost use Rattle.step_text.specs.Next as next;
ghost use Rattle.step_text.specs.Text as spec;
ghost use Rattle.step_text.specs.Words.{words_of};
ghost use Rattle.step_text.specs.declared.entry.Entry.{Entry};

use crate::CodeFault;
use crate::forms::read_entry;
use crate::place::line_of;
use crate::reading::{Reading, is_over};
use ls_base::{Line, NoMemory};
use std::alloc::Global;
use step_code::{Code, Draft, Fault, Place};

/// Where the first line ends that ends with a newline.
fn line_end(text: &[u8]) -> Option<usize>
    ensures none { IfNone result (NoNewline text.now) }
    ensures some { IfSome result (λ end. (text.now ≡ take end text.now ++ 10 ∷ drop (end + 1) text.now) × NoNewline (take end text.now)) }
    ensures within { IfSome result (λ end. end < length text.now) }
{
    text.iter().position(|byte| *byte == b'\n')
}

/// Takes a line, if it may come next.
fn take_words(alloc: Global, reading: &mut Reading, line: &[u8]) -> Result<bool, NoMemory>
    ensures taken { IfOk result (λ taken. taken ≡ true → (e : Entry) × IsEntry e × (words_of line.now ≡ entry_words e) × next.Takes reading.old e reading.new) }
    ensures refused { IfOk result (λ taken. taken ≡ false → spec.NoWords reading.old line.now × (reading.new ≡ reading.old)) }
{
    match read_entry(alloc, line)? {
        Some(entry) => reading.take(alloc, entry),
        None => Ok(false),
    }
}

/// Takes the next line of a text, and gives the text that follows it; None where it may not come
/// next, and where there is none.
fn take_line<'a>(
    alloc: Global,
    reading: &mut Reading,
    text: &'a [u8],
) -> Result<Option<&'a [u8]>, NoMemory>
    ensures taken { IfOk result (λ found. IfSome found (λ more. spec.IsTaken reading.old text.now reading.new more.now)) }
    ensures none { IfOk result (λ found. IfNone found (spec.NoNext reading.old text.now × (reading.new ≡ reading.old))) }
{
    match line_end(text) {
        Some(end) => {
            if take_words(alloc, reading, &text[..end])? {
                Ok(Some(&text[end + 1..]))
            } else {
                Ok(None)
            }
        }
        None => Ok(None),
    }
}

/// How far a text was read.
#[derive(Clone, Copy)]
struct Read {
    /// The number of lines.
    lines: u32,
    /// Whether it is whole.
    whole: bool,
}

fn is_whole(reading: &Reading, rest: &[u8]) -> bool
    ensures { result ≡ next.is_whole reading.now rest.now }
{
    rest.is_empty() && is_over(reading.stage)
}

fn read_lines(alloc: Global, reading: &mut Reading, bytes: &[u8]) -> Result<Read, NoMemory>
    requires start { reading.old ≡ next.nothing_read }
    requires short { length bytes.now < 4294967295 }
    ensures { IfOk result (λ read. spec.IsReadTo bytes.now reading.new read.lines read.whole) }
{
    let mut rest = bytes;
    let mut lines = 0;
    while let Some(more) = take_line(alloc, reading, rest)? {
        rest = more;
        lines += 1;
    }
    Ok(Read {
        lines,
        whole: is_whole(reading, rest),
    })
}

fn fault_at(draft: &Draft, place: Place, fault: Fault) -> CodeFault
    requires there { lines_of.IsPlace draft.now place }
    requires short { lines_of.size draft.now ≤ 4294967290 }
    ensures { result ≡ spec.fault_at fault (lines_of.line_of draft.now place) }
{
    let line = Line(line_of(draft, place));
    match fault {
        Fault::Slot => CodeFault::BadSlot(line),
        Fault::Order => CodeFault::BadOrder(line),
        Fault::Shape => CodeFault::BadShape(line),
    }
}

/// The code of what was read, where no line of it has a fault.
fn whole_code(read: Read, draft: Draft) -> Result<Code, CodeFault>
    requires faultless { first_fault draft ≡ None }
    requires formed { read.whole ≡ true → spec.IsWhole draft }
    requires short { read.lines < 4294967295 }
    ensures ok { IfOk result (λ code. (drafts.draft_of code ≡ draft) × (read.whole ≡ true)) }
    ensures err { IfErr result (spec.IsJudged read.whole read.lines draft) }
{
    if read.whole {
        Ok(draft.into_code())
    } else {
        Err(CodeFault::NotCode(Line(read.lines + 1)))
    }
}

/// The code of what was read.
fn judge(alloc: Global, read: Read, draft: Draft) -> Result<Code, CodeFault>
    requires formed { read.whole ≡ true → spec.IsWhole draft }
    requires lines { read.lines < 4294967295 }
    requires short { lines_of.size draft ≤ 4294967290 }
    ensures ok { IfOk result (λ code. (drafts.draft_of code ≡ draft) × (read.whole ≡ true)) }
    ensures err { IfErr result (spec.IsJudged read.whole read.lines draft) }
{
    match draft.find_fault(alloc) {
        Ok(found) => match found {
            Some((place, fault)) => Err(fault_at(&draft, place, fault)),
            None => whole_code(read, draft),
        },
        Err(NoMemory) => Err(CodeFault::NoMemory),
    }
}

/// The code that a text is the text of.
///
/// A text is refused at its first bad line: the first that may not come next or is missing, or the
/// first that has a fault, whichever stands first. Numbers are below 2 to the 32.
pub fn read_code(alloc: Global, bytes: &[u8]) -> Result<Code, CodeFault>
    requires short { length bytes.now < 4294967295 }
    ensures accepted { IfOk result (λ code. bytes.now ≡ spec.code_text (drafts.draft_of code)) }
    ensures few { IfOk result (λ code. length code.slots ≤ 1000000) }
    ensures refused { IfErr result (spec.IsRefused bytes.now) }
{
    let mut reading = Reading::new(alloc);
    let read = match read_lines(alloc, &mut reading, bytes) {
        Ok(read) => read,
        Err(NoMemory) => return Err(CodeFault::NoMemory),
    };
    match reading.into_draft() {
        Ok(draft) => judge(alloc, read, draft),
        Err(NoMemory) => Err(CodeFault::NoMemory),
    }
}
