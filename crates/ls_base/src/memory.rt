ghost use Rattle.std.specs.Prelude.{◌≡◌, ◌+◌, ◌<◌, ◌≤◌, [], ◌++◌, Some, length, take, not, is_ok, IfOk, OnErr};
ghost use Rattle.std.specs.Option.{option_map};
ghost use Rattle.ls_base.specs.Outside.{Rose};
ghost use Rattle.ls_base.specs.Memory.{more, among, read_fails, given, after_read, write_fails, after_write};

use crate::{Failed, NoMemory, Sink, Source};
use std::alloc::Global;
use std::marker::Model;

/// The calls of an object in memory: the number of the next, from 0, and the numbers of those
/// that fail.
#[derive(Debug, Drop)]
pub(crate) struct Calls {
    next: u64,
    fails: Vec<u64>,
}

impl Calls {
    pub(crate) fn new(fails: Vec<u64>) -> Calls
        ensures next { result.next ≡ 0 }
        ensures fails { result.fails ≡ fails }
    {
        Calls { next: 0, fails }
    }

    /// Whether the next call fails. It counts it.
    pub(crate) fn fails(&mut self) -> bool
        ensures value { result ≡ among self.old.next self.old.fails.items }
        ensures next { self.new.next ≡ more self.old.next }
        ensures fails { self.new.fails ≡ self.old.fails }
    {
        let fails = self.fails.contains(&self.next);
        self.next = self.next.saturating_add(1);
        fails
    }
}

/// A source over bytes in memory that gives at most a piece at a time, and of which chosen reads
/// fail.
#[derive(Debug, Drop)]
pub struct MemSource {
    bytes: Vec<u8>,
    at: usize,
    piece: usize,
    gave: usize,
    calls: Calls,
    faults: u64,
}

impl Model for MemSource {
    ghost use Rattle.std.specs.Prelude.{◌≤◌, length, drop};
    ghost use Rattle.ls_base.specs.Memory.{SourceState};

    ghost Value = { SourceState };

    ghost view = { λ s. record { left = drop s.at s.bytes.items; piece = s.piece; gave = s.gave; calls = s.calls.next; fails = s.calls.fails.items; faults = s.faults } };

    ghost invariant = { λ s. (s.at ≤ length s.bytes.items) × (1 ≤ s.piece) };
}

impl MemSource {
    /// A source over `bytes`. Read number k, from 0, fails where `fails` holds k; numbers past the
    /// greatest `u64` count as that one.
    pub fn new(bytes: Vec<u8>, piece: usize, fails: Vec<u64>) -> MemSource
        requires { 1 ≤ piece }
        ensures { result ≡ record { left = bytes.items; piece = piece; gave = 0; calls = 0; fails = fails.items; faults = 0 } }
    {
        MemSource {
            bytes,
            at: 0,
            piece,
            gave: 0,
            calls: Calls::new(fails),
            faults: 0,
        }
    }
}

impl Source for MemSource {
    ghost left = { λ s. Some s.left };

    ghost gave = { λ s. s.gave };

    ghost count = { λ s. s.faults };

    fn read(&mut self, into: &mut [u8]) -> Result<usize, Failed>
        ensures within { IfOk result (λ n. n ≤ length into.old) }
        ensures taken { IfOk result (λ n. self.old.left ≡ take n into.new ++ self.new.left) }
        ensures end { IfOk result (λ n. n ≡ 0 → 0 < length into.old → self.old.left ≡ []) }
        ensures failed { OnErr result (Rose self.old.faults self.new.faults) }
        ensures untaken { OnErr result (self.new.left ≡ self.old.left) }
        ensures gives { IfOk result (λ n. self.new.gave ≡ n) }
        ensures gives_none { OnErr result (self.new.gave ≡ 0) }
        ensures counted { self.old.faults ≤ self.new.faults }
        ensures answer { is_ok result ≡ not (read_fails self.old) }
        ensures amount { IfOk result (λ n. n ≡ given self.old (length into.old)) }
        ensures state { self.new ≡ after_read self.old (length into.old) }
    {
        if self.calls.fails() {
            self.gave = 0;
            self.faults = self.faults.saturating_add(1);
            return Err(Failed);
        }
        let n = self.piece.min(into.len()).min(self.bytes.len() - self.at);
        into[..n].copy_from_slice(&self.bytes[self.at..self.at + n]);
        self.at += n;
        self.gave = n;
        Ok(n)
    }

    fn faults(&self) -> u64 {
        self.faults
    }
}

/// A sink in memory of so much room, of which chosen writes fail.
#[derive(Debug, Drop)]
pub struct MemSink {
    bytes: Vec<u8>,
    room: usize,
    calls: Calls,
    faults: u64,
}

impl Model for MemSink {
    ghost use Rattle.std.specs.Prelude.{◌≤◌, vec_len, vec_capacity};
    ghost use Rattle.ls_base.specs.Memory.{SinkState};

    ghost Value = { SinkState };

    ghost view = { λ s. record { written = s.bytes.items; room = s.room; calls = s.calls.next; fails = s.calls.fails.items; faults = s.faults } };

    ghost invariant = { λ s. (vec_len s.bytes ≤ s.room) × (s.room ≤ vec_capacity s.bytes) };
}

impl MemSink {
    /// A sink that takes its room now, so that no write takes memory. Write number k, from 0,
    /// fails where `fails` holds k; numbers past the greatest `u64` count as that one.
    pub fn new(alloc: Global, room: usize, fails: Vec<u64>) -> Result<MemSink, NoMemory>
        ensures { IfOk result (λ s. s ≡ record { written = []; room = room; calls = 0; fails = fails.items; faults = 0 }) }
    {
        Ok(MemSink {
            bytes: Vec::with_capacity(alloc, room)?,
            room,
            calls: Calls::new(fails),
            faults: 0,
        })
    }

    /// The bytes that it has taken so far.
    pub fn written(&self) -> &[u8]
        ensures { result.now ≡ self.now.written }
    {
        self.bytes.as_slice()
    }
}

impl Sink for MemSink {
    ghost written = { λ s. Some s.written };

    ghost count = { λ s. s.faults };

    fn write(&mut self, from: &[u8]) -> Result<usize, Failed>
        ensures within { IfOk result (λ n. n ≤ length from.now) }
        ensures added { IfOk result (λ n. self.new.written ≡ self.old.written ++ take n from.now) }
        ensures stuck { IfOk result (λ n. n ≡ 0 → 0 < length from.now → Rose self.old.faults self.new.faults) }
        ensures failed { OnErr result (Rose self.old.faults self.new.faults) }
        ensures unwritten { OnErr result (self.new.written ≡ self.old.written) }
        ensures counted { self.old.faults ≤ self.new.faults }
        ensures answer { is_ok result ≡ not (write_fails self.old from.now) }
        ensures whole { IfOk result (λ n. n ≡ length from.now) }
        ensures state { self.new ≡ after_write self.old from.now }
    {
        let fails = self.calls.fails();
        if fails || from.len() > self.room - self.bytes.len() {
            self.faults = self.faults.saturating_add(1);
            return Err(Failed);
        }
        match self.bytes.extend_from_slice(from) {
            Ok(()) => Ok(from.len()),
            Err(_) => unreachable!(),
        }
    }

    fn faults(&self) -> u64 {
        self.faults
    }
}
