//! The forms of lines.

ghost use Rattle.std.specs.Prelude.{◌≡◌, ◌<◌, ◌^◌, ◌++◌, ◌∷◌, [], ℕ, List, Option, Some, None, codes, decimal, All, IfOk, IfSome, OnOk, OnErr, option_map};
ghost use Rattle.ls_ops.specs.Signature.{symbol_of};
ghost use Rattle.ls_ops.specs.declared.kinds.Op.{Op};
ghost use Rattle.ls_value.specs.Spelling.{IsLeaf, code_of};
ghost use Rattle.ls_value.specs.declared.leaf.Leaf.{Leaf};
ghost use Rattle.step_code.specs.declared.parts.Instr.{Instr};
ghost use Rattle.step_code.specs.declared.parts.InLine.{InLine};
ghost use Rattle.step_code.specs.declared.parts.OutLine.{OutLine};
ghost use Rattle.step_code.specs.declared.parts.Slot.{Slot as SlotOf};
ghost use Rattle.step_code.specs.declared.parts.SlotKind.{SlotKind};
ghost use Rattle.step_text.specs.Entries as spec;
ghost use Rattle.step_text.specs.Legal.{IsAsked, IsConstructor, IsEntry, IsInstr, IsKind, IsNumber, IsOptional, IsTail};
ghost use Rattle.step_text.specs.Words.{words_of};
ghost use Rattle.step_text.specs.declared.entry.Entry.{Entry};
ghost use Rattle.step_text.specs.declared.entry.Keyword.{Keyword};

use crate::entry::{Entry, Keyword};
use crate::word::{is_constructor, read_keyword};
use crate::words::Words;
use ls_base::{List, NoMemory};
use ls_ops::sign_of;
use ls_value::{Leaf, Shape};
use std::alloc::Global;
use step_code::{InLine, Instr, OutLine, Slot, SlotKind};

/// What a line says, if it has a form of a line.
pub(crate) fn read_entry(alloc: Global, line: &[u8]) -> Result<Option<Entry>, NoMemory>
    ensures found { IfOk result (λ found. IfSome found (λ e. (words_of line.now ≡ spec.entry_words e) × IsEntry e)) }
    ensures back { (e : Entry) → IsEntry e → words_of line.now ≡ spec.entry_words e → IfOk result (λ found. found ≡ Some e) }
{
    let mut words = Words::new(line);
    match words.next() {
        Some(word) => read_from(alloc, word, &mut words),
        None => Ok(None),
    }
}

/// What a line says that begins with a word.
fn read_from(alloc: Global, word: &[u8], words: &mut Words) -> Result<Option<Entry>, NoMemory>
    ensures found { IfOk result (λ found. IfSome found (λ e. (word.now ∷ words.old ≡ spec.entry_words e) × IsEntry e)) }
    ensures back { (e : Entry) → IsEntry e → word.now ∷ words.old ≡ spec.entry_words e → IfOk result (λ found. found ≡ Some e) }
{
    match read_keyword(word) {
        Some(keyword) => read_tail(alloc, keyword, words),
        None => Ok(None),
    }
}

/// What a line says that begins with a keyword.
fn read_tail(alloc: Global, keyword: Keyword, words: &mut Words) -> Result<Option<Entry>, NoMemory>
    ensures found { IfOk result (λ found. IfSome found (IsTail keyword words.old)) }
    ensures back { (e : Entry) → IsTail keyword words.old e → IfOk result (λ found. found ≡ Some e) }
{
    match keyword {
        Keyword::Type => read_cases(alloc, words),
        Keyword::In => read_in(alloc, words),
        Keyword::Lsc => Ok(read_header(words)),
        Keyword::Slots => Ok(read_slots(words)),
        Keyword::Slot => Ok(read_slot(words)),
        Keyword::Out => Ok(read_out(words)),
        Keyword::Body => Ok(read_body(words)),
        Keyword::Code => Ok(read_code(words)),
        Keyword::End => Ok(read_end(words)),
        Keyword::Const => Ok(read_const(words)),
        Keyword::Copy => Ok(read_copy(words)),
        Keyword::Op => Ok(read_op(words)),
        Keyword::Test => Ok(read_test(words)),
        Keyword::When => Ok(read_when(words)),
        Keyword::Call => Ok(read_call(words)),
    }
}

fn read_header(words: &mut Words) -> Option<Entry>
    ensures found { IfSome result (IsTail Keyword.Lsc words.old) }
    ensures back { words.old ≡ codes "code" ∷ codes "1" ∷ [] → result ≡ Some Entry.Header }
{
    if words.takes(b"code") && words.takes(b"1") {
        words.over()?;
        Some(Entry::Header)
    } else {
        None
    }
}

fn read_end(words: &Words) -> Option<Entry>
    ensures found { IfSome result (IsTail Keyword.End words.now) }
    ensures back { words.now ≡ [] → result ≡ Some Entry.End }
{
    words.over()?;
    Some(Entry::End)
}

fn bytes_of(alloc: Global, word: &[u8]) -> Result<List<u8>, NoMemory>
    ensures { IfOk result (λ bytes. bytes ≡ word.now) }
{
    let mut done = List::new(alloc);
    for byte in word {
        done.push(*byte)?;
    }
    Ok(done)
}

fn read_cases(alloc: Global, words: &mut Words) -> Result<Option<Entry>, NoMemory>
    ensures found { IfOk result (λ found. IfSome found (IsTail Keyword.Type words.old)) }
    ensures back { (cases : List (List ℕ)) → All IsConstructor cases → words.old ≡ cases → IfOk result (λ found. found ≡ Some (Entry.Cases cases)) }
{
    let mut cases = List::new(alloc);
    while let Some(word) = words.next() {
        if !is_constructor(alloc, word)? {
            return Ok(None);
        }
        cases.push(bytes_of(alloc, word)?)?;
    }
    Ok(Some(Entry::Cases(cases)))
}

fn read_slots(words: &mut Words) -> Option<Entry>
    ensures found { IfSome result (IsTail Keyword.Slots words.old) }
    ensures back { (n : ℕ) → IsNumber n → words.old ≡ decimal n ∷ [] → result ≡ Some (Entry.Slots n) }
{
    let count = words.number()?;
    words.over()?;
    Some(Entry::Slots(count))
}

fn read_kind(words: &mut Words) -> Option<SlotKind>
    ensures found { IfSome result (λ kind. (words.old ≡ spec.kind_words kind) × IsKind kind) }
    ensures back { (kind : SlotKind) → IsKind kind → words.old ≡ spec.kind_words kind → result ≡ Some kind }
{
    let Some(word) = words.next() else {
        return Some(SlotKind::Plain);
    };
    if word == b"arg".as_slice() {
        words.over()?;
        return Some(SlotKind::Arg);
    }
    if word == b"mem".as_slice() {
        let leaf = words.leaf()?;
        words.over()?;
        return Some(SlotKind::Mem(leaf));
    }
    None
}

fn read_slot(words: &mut Words) -> Option<Entry>
    ensures found { IfSome result (IsTail Keyword.Slot words.old) }
    ensures back { (at : ℕ) (slot : SlotOf) → IsTail Keyword.Slot words.old (Entry.Slot at slot) → result ≡ Some (Entry.Slot at slot) }
{
    let at = words.number()?;
    let shape = words.shape()?;
    let kind = read_kind(words)?;
    Some(Entry::Slot(at, Slot { shape, kind }))
}

/// The slot of a signal, which may be left out.
fn read_signal(words: &mut Words) -> Option<Option<u32>>
    ensures found { IfSome result (λ signal. (words.old ≡ spec.signal_words signal ++ words.new) × IsOptional signal) }
    ensures some { (p : ℕ) (more : List (List ℕ)) → IsNumber p → words.old ≡ codes "sig" ∷ decimal p ∷ more → (result ≡ Some (Some p)) × (words.new ≡ more) }
    ensures none { (on : List (ℕ × Leaf)) → words.old ≡ spec.on_words on → (result ≡ Some None) × (words.new ≡ words.old) }
{
    if words.begin_with(b"sig") {
        take_signal(words)
    } else {
        Some(None)
    }
}

fn take_signal(words: &mut Words) -> Option<Option<u32>>
    requires { (more : List (List ℕ)) × (words.old ≡ codes "sig" ∷ more) }
    ensures found { IfSome result (λ signal. (words.old ≡ spec.signal_words signal ++ words.new) × IsOptional signal) }
    ensures some { (p : ℕ) (more : List (List ℕ)) → IsNumber p → words.old ≡ codes "sig" ∷ decimal p ∷ more → (result ≡ Some (Some p)) × (words.new ≡ more) }
{
    words.next()?;
    Some(Some(words.number()?))
}

/// The clock of a line of input.
fn read_on(alloc: Global, words: &mut Words) -> Result<Option<List<(u32, Leaf)>>, NoMemory>
    ensures found { IfOk result (λ found. IfSome found (λ on. (words.old ≡ spec.on_words on) × All IsAsked on)) }
    ensures back { (on : List (ℕ × Leaf)) → All IsAsked on → words.old ≡ spec.on_words on → IfOk result (λ found. found ≡ Some on) }
{
    let mut on = List::new(alloc);
    while let Some(word) = words.next() {
        match read_asked(word, words) {
            Some(asked) => on.push(asked)?,
            None => return Ok(None),
        }
    }
    Ok(Some(on))
}

fn read_asked(word: &[u8], words: &mut Words) -> Option<(u32, Leaf)>
    ensures found { IfSome result (λ asked. (word.now ∷ words.old ≡ codes "on" ∷ decimal asked.0 ∷ code_of asked.1 ∷ words.new) × IsAsked asked) }
    ensures back { (asked : ℕ × Leaf) (more : List (List ℕ)) → IsAsked asked → word.now ∷ words.old ≡ codes "on" ∷ decimal asked.0 ∷ code_of asked.1 ∷ more → (result ≡ Some asked) × (words.new ≡ more) }
{
    if word != b"on".as_slice() {
        return None;
    }
    let at = words.number()?;
    Some((at, words.leaf()?))
}

/// The slot of a field, and that of its signal.
fn read_field(words: &mut Words) -> Option<(u32, Option<u32>)>
    ensures found { IfSome result (λ field. (words.old ≡ decimal field.0 ∷ spec.signal_words field.1 ++ words.new) × IsNumber field.0 × IsOptional field.1) }
    ensures back { (line : InLine) → IsTail Keyword.In words.old (Entry.In line) → (result ≡ Some (line.slot, line.signal)) × (words.new ≡ spec.on_words line.on) }
{
    let slot = words.number()?;
    let signal = read_signal(words)?;
    Some((slot, signal))
}

fn in_line(field: (u32, Option<u32>), on: Option<List<(u32, Leaf)>>) -> Option<Entry>
    ensures { result ≡ option_map (spec.in_line field) on }
{
    match on {
        Some(on) => Some(Entry::In(InLine {
            slot: field.0,
            signal: field.1,
            on,
        })),
        None => None,
    }
}

fn read_in(alloc: Global, words: &mut Words) -> Result<Option<Entry>, NoMemory>
    ensures found { IfOk result (λ found. IfSome found (IsTail Keyword.In words.old)) }
    ensures back { (line : InLine) → IsTail Keyword.In words.old (Entry.In line) → IfOk result (λ found. found ≡ Some (Entry.In line)) }
{
    match read_field(words) {
        Some(field) => {
            let on = read_on(alloc, words)?;
            Ok(in_line(field, on))
        }
        None => Ok(None),
    }
}

/// The guard of a line of output, which may be left out.
fn read_guard(words: &mut Words) -> Option<Option<u32>>
    ensures found { IfSome result (λ guard. (words.old ≡ spec.guard_words guard) × IsOptional guard) }
    ensures back { (guard : Option ℕ) → IsOptional guard → words.old ≡ spec.guard_words guard → result ≡ Some guard }
{
    let Some(word) = words.next() else {
        return Some(None);
    };
    if word != b"if".as_slice() {
        return None;
    }
    let guard = words.number()?;
    words.over()?;
    Some(Some(guard))
}

fn read_out(words: &mut Words) -> Option<Entry>
    ensures found { IfSome result (IsTail Keyword.Out words.old) }
    ensures back { (line : OutLine) → IsTail Keyword.Out words.old (Entry.Out line) → result ≡ Some (Entry.Out line) }
{
    let slot = words.number()?;
    let guard = read_guard(words)?;
    Some(Entry::Out(OutLine { slot, guard }))
}

fn read_body(words: &mut Words) -> Option<Entry>
    ensures found { IfSome result (IsTail Keyword.Body words.old) }
    ensures back { (at slots lines : ℕ) → IsNumber at → IsNumber slots → IsNumber lines → words.old ≡ decimal at ∷ decimal slots ∷ decimal lines ∷ [] → result ≡ Some (Entry.Body at slots lines) }
{
    let at = words.number()?;
    let slots = words.number()?;
    let lines = words.number()?;
    words.over()?;
    Some(Entry::Body(at, slots, lines))
}

fn read_code(words: &mut Words) -> Option<Entry>
    ensures found { IfSome result (IsTail Keyword.Code words.old) }
    ensures back { (n : ℕ) → IsNumber n → words.old ≡ decimal n ∷ [] → result ≡ Some (Entry.Code n) }
{
    let lines = words.number()?;
    words.over()?;
    Some(Entry::Code(lines))
}

fn read_const(words: &mut Words) -> Option<Entry>
    ensures found { IfSome result (IsTail Keyword.Const words.old) }
    ensures back { (d : ℕ) (leaf : Leaf) → IsNumber d → IsLeaf leaf → words.old ≡ decimal d ∷ code_of leaf ∷ [] → result ≡ Some (Entry.Instr (Instr.Const d leaf)) }
{
    let target = words.number()?;
    let leaf = words.leaf()?;
    words.over()?;
    Some(Entry::Instr(Instr::Const(target, leaf)))
}

fn read_copy(words: &mut Words) -> Option<Entry>
    ensures found { IfSome result (IsTail Keyword.Copy words.old) }
    ensures back { (d a : ℕ) → IsNumber d → IsNumber a → words.old ≡ decimal d ∷ decimal a ∷ [] → result ≡ Some (Entry.Instr (Instr.Copy d a)) }
{
    let target = words.number()?;
    let from = words.number()?;
    words.over()?;
    Some(Entry::Instr(Instr::Copy(target, from)))
}

fn read_test(words: &mut Words) -> Option<Entry>
    ensures found { IfSome result (IsTail Keyword.Test words.old) }
    ensures back { (d a : ℕ) (leaf : Leaf) → IsNumber d → IsNumber a → IsLeaf leaf → words.old ≡ decimal d ∷ decimal a ∷ code_of leaf ∷ [] → result ≡ Some (Entry.Instr (Instr.Test d a leaf)) }
{
    let target = words.number()?;
    let from = words.number()?;
    let leaf = words.leaf()?;
    words.over()?;
    Some(Entry::Instr(Instr::Test(target, from, leaf)))
}

fn read_when(words: &mut Words) -> Option<Entry>
    ensures found { IfSome result (IsTail Keyword.When words.old) }
    ensures back { (g lines : ℕ) → IsNumber g → IsNumber lines → words.old ≡ decimal g ∷ decimal lines ∷ [] → result ≡ Some (Entry.Instr (Instr.When g lines)) }
{
    let guard = words.number()?;
    let lines = words.number()?;
    words.over()?;
    Some(Entry::Instr(Instr::When(guard, lines)))
}

fn read_call(words: &mut Words) -> Option<Entry>
    ensures found { IfSome result (IsTail Keyword.Call words.old) }
    ensures back { (body window : ℕ) → IsNumber body → IsNumber window → words.old ≡ decimal body ∷ decimal window ∷ [] → result ≡ Some (Entry.Instr (Instr.Call body window)) }
{
    let body = words.number()?;
    let window = words.number()?;
    words.over()?;
    Some(Entry::Instr(Instr::Call(body, window)))
}

fn read_op(words: &mut Words) -> Option<Entry>
    ensures found { IfSome result (IsTail Keyword.Op words.old) }
    ensures back_1 { (op : Op) (d a : ℕ) → IsInstr (Instr.Op1 op d a) → words.old ≡ spec.instr_words (Instr.Op1 op d a) → result ≡ Some (Entry.Instr (Instr.Op1 op d a)) }
    ensures back_2 { (op : Op) (d a b : ℕ) → IsInstr (Instr.Op2 op d a b) → words.old ≡ spec.instr_words (Instr.Op2 op d a b) → result ≡ Some (Entry.Instr (Instr.Op2 op d a b)) }
    ensures back_3 { (op : Op) (d a b c : ℕ) → IsInstr (Instr.Op3 op d a b c) → words.old ≡ spec.instr_words (Instr.Op3 op d a b c) → result ≡ Some (Entry.Instr (Instr.Op3 op d a b c)) }
{
    let target = words.number()?;
    let op = words.operator()?;
    let a = words.number()?;
    if sign_of(op).arity() == 1 {
        words.over()?;
        return Some(Entry::Instr(Instr::Op1(op, target, a)));
    }
    let b = words.number()?;
    if sign_of(op).arity() == 2 {
        words.over()?;
        return Some(Entry::Instr(Instr::Op2(op, target, a, b)));
    }
    let c = words.number()?;
    if sign_of(op).arity() != 3 {
        return None;
    }
    words.over()?;
    Some(Entry::Instr(Instr::Op3(op, target, a, b, c)))
}

/// Adds a slot.
pub(crate) fn push_slot(slots: &mut List<Slot>, slot: &Slot) -> Result<(), NoMemory>
    ensures ok { OnOk result (slots.new ≡ slots.old ++ slot.now ∷ []) }
    ensures err { OnErr result (slots.new ≡ slots.old) }
{
    match slot.kind {
        SlotKind::Plain => slots.push(Slot {
            shape: slot.shape,
            kind: SlotKind::Plain,
        }),
        SlotKind::Mem(leaf) => push_memory(slots, slot.shape, leaf),
        SlotKind::Arg => slots.push(Slot {
            shape: slot.shape,
            kind: SlotKind::Arg,
        }),
    }
}

fn push_memory(slots: &mut List<Slot>, shape: Shape, leaf: Leaf) -> Result<(), NoMemory>
    ensures ok { OnOk result (slots.new ≡ slots.old ++ record { shape = shape; kind = SlotKind.Mem leaf } ∷ []) }
    ensures err { OnErr result (slots.new ≡ slots.old) }
{
    let kind = SlotKind::Mem(leaf);
    slots.push(Slot { shape, kind })
}

/// Adds an instruction.
pub(crate) fn push_instruction(list: &mut List<Instr>, line: &Instr) -> Result<(), NoMemory>
    ensures ok { OnOk result (list.new ≡ list.old ++ line.now ∷ []) }
    ensures err { OnErr result (list.new ≡ list.old) }
{
    match line {
        Instr::Const(target, leaf) => push_const(list, *target, *leaf),
        Instr::Test(target, from, leaf) => push_test(list, *target, *from, *leaf),
        Instr::Copy(target, from) => list.push(Instr::Copy(*target, *from)),
        Instr::Op1(op, target, a) => list.push(Instr::Op1(*op, *target, *a)),
        Instr::Op2(op, target, a, b) => list.push(Instr::Op2(*op, *target, *a, *b)),
        Instr::Op3(op, target, a, b, c) => list.push(Instr::Op3(*op, *target, *a, *b, *c)),
        Instr::When(guard, lines) => list.push(Instr::When(*guard, *lines)),
        Instr::Call(body, window) => list.push(Instr::Call(*body, *window)),
    }
}

fn push_const(list: &mut List<Instr>, target: u32, leaf: Leaf) -> Result<(), NoMemory>
    ensures ok { OnOk result (list.new ≡ list.old ++ Instr.Const target leaf ∷ []) }
    ensures err { OnErr result (list.new ≡ list.old) }
{
    list.push(Instr::Const(target, leaf))
}

fn push_test(list: &mut List<Instr>, target: u32, from: u32, leaf: Leaf) -> Result<(), NoMemory>
    ensures ok { OnOk result (list.new ≡ list.old ++ Instr.Test target from leaf ∷ []) }
    ensures err { OnErr result (list.new ≡ list.old) }
{
    list.push(Instr::Test(target, from, leaf))
}
