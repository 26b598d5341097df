ghost use Rattle.std.specs.Prelude.{◌≡◌, ℕ, ◌+◌, ◌-◌, ◌<◌, ◌≤◌, ◌⊎◌, List, [], ◌∷◌, ◌++◌, length, take, drop, Contains, MatchOption, IfOk, IfSome, OnErr};
ghost use Rattle.std.specs.Bool.{OnTrue, OnFalse};
ghost use Rattle.std.specs.Option.{option_map};
ghost use Rattle.ls_base.specs.Outside.{Rose};
ghost use Rattle.line_io.specs.Line.{line_of, rest_of, NoNewline, part, ahead, TakesFront, IsShort, OnLine, OnEnd, OnLongLine, OnReadFault, OnNoLine};

use ls_base::{Failed, NoMemory, Source};
use memchr::memchr;
use std::alloc::Global;
use std::marker::Model;

/// The bytes that a buffer has room for: those of the longest line, and its newline.
const CAPACITY: usize = 65_537;

/// What a buffer found when it was asked for the next line.
#[derive(Clone, Copy, Debug, PartialEq, Eq)]
pub enum Next {
    /// A line is there.
    Line,
    /// The source has ended, and every line has been given.
    End,
    /// The next line has more than 65,536 bytes.
    LongLine,
    /// A read failed.
    ReadFault,
}

/// A buffer that gives the lines of a source, one after another. It has room for one line of
/// 65,536 bytes and its newline, and takes no memory after it was made.
#[derive(Debug, Drop)]
pub struct LineBuf {
    bytes: Vec<u8>,
    line_start: usize,
    line_end: usize,
    start: usize,
    scanned: usize,
    end: usize,
}

impl Model for LineBuf {
    ghost use Rattle.std.specs.Prelude.{◌≡◌, ◌≤◌, length};
    ghost use Rattle.line_io.specs.Line.{Buffer, NoNewline, part};

    ghost Value = { Buffer };

    ghost view = { λ b. record { line = part b.bytes.items b.line_start b.line_end; held = part b.bytes.items b.start b.end } };

    ghost invariant = { λ b. (length b.bytes.items ≡ 65537) × (b.line_start ≤ b.line_end) × (b.line_end ≤ 65537) × (b.start ≤ b.scanned) × (b.scanned ≤ b.end) × (b.end ≤ 65537) × NoNewline (part b.bytes.items b.start b.scanned) };
}

/// The place of the first newline.
fn find_newline(bytes: &[u8]) -> Option<usize>
    ensures { MatchOption result (NoNewline bytes.now) (λ at. (at < length bytes.now) × NoNewline (take at bytes.now) × (drop at bytes.now ≡ 10 ∷ drop (at + 1) bytes.now)) }
{
    memchr(b'\n', bytes)
}

/// Moves the bytes from `start` up to `end` to the front.
fn move_to_front(bytes: &mut [u8], start: usize, end: usize)
    requires { (start ≤ end) × (end ≤ length bytes.old) }
    ensures { take (end - start) bytes.new ≡ part bytes.old start end }
{
    if start > 0 {
        bytes.copy_within(start..end, 0);
    }
}

impl LineBuf {
    /// A buffer that holds nothing.
    pub fn new(alloc: Global) -> Result<LineBuf, NoMemory>
        ensures { IfOk result (λ buffer. (buffer.line ≡ []) × (buffer.held ≡ [])) }
    {
        Ok(LineBuf {
            bytes: vec![in alloc; 0; CAPACITY]?,
            line_start: 0,
            line_end: 0,
            start: 0,
            scanned: 0,
            end: 0,
        })
    }

    /// The line that was given last, without its newline. It is empty after any other answer.
    pub fn line(&self) -> &[u8]
        ensures { result.now ≡ self.now.line }
    {
        &self.bytes[self.line_start..self.line_end]
    }

    fn held_len(&self) -> usize
        ensures value { result ≡ length self.now.held }
        ensures within { result ≤ 65537 }
    {
        self.end - self.start
    }

    /// Gives the next line where the bytes held have its newline, and reads nothing.
    pub fn next_held(&mut self) -> bool
        ensures found { OnTrue result ((self.old.held ≡ self.new.line ++ 10 ∷ self.new.held) × NoNewline self.new.line × (length self.new.line ≤ 65536)) }
        ensures none { OnFalse result (NoNewline self.old.held × (self.new.held ≡ self.old.held) × (self.new.line ≡ [])) }
    {
        match find_newline(&self.bytes[self.scanned..self.end]) {
            Some(at) => {
                self.line_start = self.start;
                self.line_end = self.scanned + at;
                self.start = self.line_end + 1;
                self.scanned = self.start;
                true
            }
            None => {
                self.line_start = 0;
                self.line_end = 0;
                self.scanned = self.end;
                false
            }
        }
    }

    /// Reads once, into all the room that the bytes held leave.
    fn fill<S: Source>(&mut self, source: &mut S) -> Result<usize, Failed>
        requires { length self.old.held < 65537 }
        ensures line { self.new.line ≡ [] }
        ensures more { IfOk result (λ n. length self.new.held ≡ length self.old.held + n) }
        ensures front { IfOk result (λ n. take (length self.old.held) self.new.held ≡ self.old.held) }
        ensures taken { IfOk result (λ n. S.left source.old ≡ option_map (λ rest. drop (length self.old.held) self.new.held ++ rest) (S.left source.new)) }
        ensures end { IfOk result (λ n. n ≡ 0 → IfSome (S.left source.old) (λ bytes. bytes ≡ [])) }
        ensures gives { IfOk result (λ n. S.gave source.new ≡ n) }
        ensures gives_none { OnErr result (S.gave source.new ≡ 0) }
        ensures failed { OnErr result ((self.new.held ≡ self.old.held) × (S.left source.new ≡ S.left source.old) × Rose (S.count source.old) (S.count source.new)) }
        ensures counted { S.count source.old ≤ S.count source.new }
    {
        move_to_front(&mut self.bytes, self.start, self.end);
        self.line_start = 0;
        self.line_end = 0;
        self.scanned -= self.start;
        self.end -= self.start;
        self.start = 0;
        let n = source.read(&mut self.bytes[self.end..])?;
        self.end += n;
        Ok(n)
    }

    /// Gives all the bytes held as a line.
    fn take_rest(&mut self)
        requires { length self.old.held ≤ 65536 }
        ensures { (self.new.line ≡ self.old.held) × (self.new.held ≡ []) }
    {
        self.line_start = self.start;
        self.line_end = self.end;
        self.start = self.end;
        self.scanned = self.end;
    }

    /// Finds the next line of the bytes held and those that the source gives after them. Each read
    /// is made while it holds no whole line and has room, so whoever sends a line and waits is
    /// answered. It takes no memory.
    ///
    /// After `LongLine` and `ReadFault` the bytes taken are still held: the next call answers
    /// `LongLine` again, or goes on to read.
    pub fn next_line<S: Source>(&mut self, source: &mut S) -> Next
        ensures line { OnLine result (IfSome (ahead self.old.held (S.left source.old)) (λ bytes. (0 < length bytes) × (self.new.line ≡ line_of bytes))) }
        ensures rest { OnLine result (ahead self.new.held (S.left source.new) ≡ option_map rest_of (ahead self.old.held (S.left source.old))) }
        ensures fits { OnLine result (length self.new.line ≤ 65536) }
        ensures end { OnEnd result ((self.new.held ≡ []) × IfSome (ahead self.old.held (S.left source.old)) (λ bytes. bytes ≡ [])) }
        ensures long { OnLongLine result ((length self.new.held ≡ 65537) × NoNewline self.new.held) }
        ensures fault { OnReadFault result ((length self.new.held ≤ 65536) × NoNewline self.new.held) }
        ensures failed { OnReadFault result (Rose (S.count source.old) (S.count source.new)) }
        ensures kept { OnNoLine result (ahead self.new.held (S.left source.new) ≡ ahead self.old.held (S.left source.old)) }
        ensures stays { OnNoLine result (take (length self.old.held) self.new.held ≡ self.old.held) }
        ensures begins { OnLine result (take (length self.old.held) (self.new.line ++ 10 ∷ self.new.held) ≡ self.old.held) }
        ensures blank { OnNoLine result (self.new.line ≡ []) }
        ensures whole { Contains self.old.held 10 → (result ≡ Next.Line) × (self.old.held ≡ self.new.line ++ 10 ∷ self.new.held) × (source.new ≡ source.old) }
        ensures again { length self.old.held ≡ 65537 → NoNewline self.old.held → (result ≡ Next.LongLine) × (self.new.held ≡ self.old.held) × (source.new ≡ source.old) }
        ensures reads { (source.new ≡ source.old) ⊎ IsShort self.old.held (S.left source.old) (S.left source.new) (S.gave source.new) }
        ensures taken { TakesFront (S.left source.old) (S.left source.new) }
        ensures counted { S.count source.old ≤ S.count source.new }
    {
        loop {
            if self.next_held() {
                return Next::Line;
            }
            if self.held_len() == CAPACITY {
                return Next::LongLine;
            }
            match self.fill(source) {
                Err(Failed) => return Next::ReadFault,
                Ok(0) => {
                    if self.held_len() == 0 {
                        return Next::End;
                    }
                    self.take_rest();
                    return Next::Line;
                }
                Ok(_) => {}
            }
        }
    }
}
