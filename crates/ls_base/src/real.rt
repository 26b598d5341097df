//! The real outside: files, standard input and standard output. Nothing is told of the bytes that
//! they hold: contracts see the number of faults so far.
ghost use Rattle.std.specs.Prelude.{◌≡◌, ◌<◌, ◌≤◌, None, OnOk, vec_len, IsErrOf};

use crate::{Failed, LoadFault, Sink, Source, TEXT_LIMIT, Texts};
use std::io::{Printer, Read, Write};
use std::marker::Model;
use std::rt::Files;
use std::{fs, io};

/// The files of the system, each under its path. One count of faults is that of every name.
#[derive(Drop)]
pub struct FileTexts<'a, R: Files> {
    rt: &'a R,
    faults: u64,
}

impl<'a, R: Files> Model for FileTexts<'a, R> {
    ghost use Rattle.std.specs.Prelude.{ℕ};

    ghost Value = { ℕ };

    ghost view = { λ t. t.faults };
}

impl<'a, R: Files> FileTexts<'a, R> {
    pub fn new(rt: &'a R) -> FileTexts<'a, R>
        ensures { result ≡ 0 }
    {
        FileTexts { rt, faults: 0 }
    }
}

// Reads to the end, and no further than one byte past the limit.
fn read_text<F: Read>(file: &mut F, into: &mut Vec<u8>) -> Result<(), LoadFault>
    requires { vec_len into.old ≡ 0 }
    ensures { OnOk result (vec_len into.new ≤ 1048576) }
{
    let mut block = [0u8; 8192];
    loop {
        let most = (TEXT_LIMIT + 1 - into.len()).min(block.len());
        match file.read(&mut block[..most]) {
            Ok(0) => return Ok(()),
            Ok(taken) => {
                if into.len() + taken > TEXT_LIMIT {
                    return Err(LoadFault::TooLong);
                }
                if into.extend_from_slice(&block[..taken]).is_err() {
                    return Err(LoadFault::NoMemory);
                }
            }
            Err(_) => return Err(LoadFault::Failed),
        }
    }
}

impl<R: Files> Texts for FileTexts<'_, R> {
    ghost told = { λ _ _. None };

    ghost count = { λ t _. t };

    fn load(&mut self, name: &str, into: &mut Vec<u8>) -> Result<(), LoadFault> {
        into.clear();
        let answer = match fs::open(self.rt, name) {
            Ok(mut file) => read_text(&mut file, into),
            Err(_) => Err(LoadFault::Failed),
        };
        if let Err(fault) = answer {
            into.clear();
            if fault == LoadFault::Failed {
                self.faults = self.faults.saturating_add(1);
            }
        }
        answer
    }

    fn faults(&self, _name: &str) -> u64 {
        self.faults
    }
}

/// Standard input.
#[derive(Drop)]
pub struct InputSource<'a, R: Input> {
    rt: &'a R,
    reader: R::Reader,
    gave: usize,
    faults: u64,
}

impl<'a, R: Input> Model for InputSource<'a, R> {
    ghost use Rattle.ls_base.specs.Outside.{ReadState};

    ghost Value = { ReadState };

    ghost view = { λ s. record { faults = s.faults; gave = s.gave } };
}

impl<'a, R: Input> InputSource<'a, R> {
    pub fn new(rt: &'a R) -> InputSource<'a, R>
        ensures { result.faults ≡ 0 }
    {
        InputSource {
            rt,
            reader: rt.reader(),
            gave: 0,
            faults: 0,
        }
    }
}

impl<R: Input> Source for InputSource<'_, R> {
    ghost left = { λ _. None };

    ghost gave = { λ s. s.gave };

    ghost count = { λ s. s.faults };

    fn read(&mut self, into: &mut [u8]) -> Result<usize, Failed> {
        match self.reader.read(into) {
            Ok(taken) => {
                self.gave = taken;
                Ok(taken)
            }
            Err(_) => {
                self.gave = 0;
                self.faults = self.faults.saturating_add(1);
                Err(Failed)
            }
        }
    }

    fn faults(&self) -> u64 {
        self.faults
    }
}

/// Standard output. A write that takes no byte of some is a fault.
#[derive(Drop)]
pub struct OutputSink<'a, R: Print> {
    out: Printer<'a, R>,
    faults: u64,
}

impl<'a, R: Print> Model for OutputSink<'a, R> {
    ghost use Rattle.std.specs.Prelude.{ℕ};

    ghost Value = { ℕ };

    ghost view = { λ s. s.faults };
}

impl<'a, R: Print> OutputSink<'a, R> {
    pub fn new(rt: &'a R) -> OutputSink<'a, R>
        ensures { result ≡ 0 }
    {
        OutputSink {
            out: io::writer(rt),
            faults: 0,
        }
    }
}

impl<R: Print> Sink for OutputSink<'_, R> {
    ghost written = { λ _. None };

    ghost count = { λ s. s };

    fn write(&mut self, from: &[u8]) -> Result<usize, Failed> {
        if let Ok(taken) = self.out.write(from) {
            if taken > 0 || from.is_empty() {
                return Ok(taken);
            }
        }
        self.faults = self.faults.saturating_add(1);
        Err(Failed)
    }

    fn faults(&self) -> u64 {
        self.faults
    }
}
