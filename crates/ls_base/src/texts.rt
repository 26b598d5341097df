ghost use Rattle.std.specs.Prelude.{◌≡◌, ℕ, ◌<◌, ◌≤◌, List, [], Some, ◌↔◌, drop, length, slice_get, map, vec_len, is_some, IsErrOf, IsTrue, OnOk, OnErr, IfSome, IfNone};
ghost use Rattle.std.specs.Option.{option_map};
ghost use Rattle.ls_base.specs.Outside.{Rose};
ghost use Rattle.ls_base.specs.Memory.{named, text_of, told_text, faults_of, after_load, load_fails};

use crate::memory::Calls;
use crate::{LoadFault, TEXT_LIMIT, Texts};
use std::marker::Model;

/// Texts in memory, of which chosen loads fail. Of two texts of one name the first counts.
#[derive(Debug, Drop)]
pub struct MemTexts {
    files: Vec<(String, Vec<u8>)>,
    calls: Calls,
    failed: u64,
    missed: u64,
}

impl Model for MemTexts {
    ghost use Rattle.ls_base.specs.Memory.{TextsState, named};

    ghost Value = { TextsState };

    ghost view = { λ t. record { files = named t.files.items; calls = t.calls.next; fails = t.calls.fails.items; failed = t.failed; missed = t.missed } };
}

impl MemTexts {
    /// Texts, each under its name. Load number k, from 0, fails where `fails` holds k; numbers
    /// past the greatest `u64` count as that one.
    pub fn new(files: Vec<(String, Vec<u8>)>, fails: Vec<u64>) -> MemTexts
        ensures { result ≡ record { files = named files.items; calls = 0; fails = fails.items; failed = 0; missed = 0 } }
    {
        MemTexts {
            files,
            calls: Calls::new(fails),
            failed: 0,
            missed: 0,
        }
    }
}

// The first text of a name.
fn find<'a>(files: &'a [(String, Vec<u8>)], name: &str) -> Option<&'a [u8]>
    ensures { option_map (λ bytes. bytes.now) result ≡ text_of name.now (named files.now) }
{
    for file in files {
        if file.0.as_str() == name {
            return Some(file.1.as_slice());
        }
    }
    None
}

// Puts bytes that are not too many into an empty vector.
fn fill(into: &mut Vec<u8>, bytes: &[u8]) -> Result<(), LoadFault>
    requires { into.old.items ≡ [] }
    ensures bytes { OnOk result (into.new.items ≡ bytes.now) }
    ensures short { OnOk result (length bytes.now ≤ 1048576) }
    ensures too_long { IsErrOf result LoadFault.TooLong → 1048576 < length bytes.now }
    ensures loaded { IsErrOf result LoadFault.Failed → ⊥ }
    ensures empty { OnErr result (into.new.items ≡ []) }
{
    if bytes.len() > TEXT_LIMIT {
        return Err(LoadFault::TooLong);
    }
    match into.extend_from_slice(bytes) {
        Ok(()) => Ok(()),
        Err(_) => Err(LoadFault::NoMemory),
    }
}

impl Texts for MemTexts {
    ghost told = { told_text };

    ghost count = { faults_of };

    fn load(&mut self, name: &str, into: &mut Vec<u8>) -> Result<(), LoadFault>
        ensures bytes { OnOk result (told_text self.old name.now ≡ Some into.new.items) }
        ensures short { OnOk result (vec_len into.new ≤ 1048576) }
        ensures failed { IsErrOf result LoadFault.Failed → Rose (faults_of self.old name.now) (faults_of self.new name.now) }
        ensures too_long { IsErrOf result LoadFault.TooLong → IfSome (told_text self.old name.now) (λ bytes. 1048576 < length bytes) }
        ensures empty { OnErr result (into.new.items ≡ []) }
        ensures told_still { (other : List ℕ) → told_text self.new other ≡ told_text self.old other }
        ensures counted { (other : List ℕ) → faults_of self.old other ≤ faults_of self.new other }
        ensures fails { IsErrOf result LoadFault.Failed ↔ IsTrue (load_fails self.old name.now) }
        ensures state { self.new ≡ after_load self.old name.now }
    {
        into.clear();
        let fails = self.calls.fails();
        match find(self.files.as_slice(), name) {
            None => {
                self.missed = self.missed.saturating_add(1);
                Err(LoadFault::Failed)
            }
            Some(_) if fails => {
                self.failed = self.failed.saturating_add(1);
                Err(LoadFault::Failed)
            }
            Some(bytes) => fill(into, bytes),
        }
    }

    fn faults(&self, name: &str) -> u64 {
        match find(self.files.as_slice(), name) {
            Some(_) => self.failed,
            None => self.missed,
        }
    }
}
