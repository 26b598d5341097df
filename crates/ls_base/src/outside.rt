ghost use Rattle.std.specs.Prelude.{◌≡◌, ℕ, ◌+◌, ◌<◌, ◌≤◌, List, [], ◌++◌, Option, length, take, vec_len, IsErrOf, OnOk, OnErr, IfOk, IfSome};
ghost use Rattle.std.specs.Option.{option_map};
ghost use Rattle.ls_base.specs.Outside.{Rose};

/// The greatest number of bytes of a text that is loaded.
pub const TEXT_LIMIT: usize = 1_048_576;

/// Why a text was not loaded.
#[derive(Clone, Copy, Debug, PartialEq, Eq)]
pub enum LoadFault {
    /// The text is not there, or it could not be read.
    Failed,
    /// The text has more bytes than `TEXT_LIMIT`.
    TooLong,
    NoMemory,
}

/// A read or a write failed.
#[derive(Clone, Copy, Debug, PartialEq, Eq)]
pub struct Failed;

/// Texts under names, as the files of a folder.
///
/// `told` is what the object tells of the bytes under a name; an object that tells nothing, as
/// one over real files, is bound by the other clauses alone. `count` is the number of faults so
/// far under a name. It never falls, and stays at the greatest `u64` once it is there.
pub trait Texts {
    ghost told: { Self → List ℕ → Option (List ℕ) };

    ghost count: { Self → List ℕ → ℕ };

    /// Replaces `into` by the bytes of the named text. A name that is not there is a fault.
    fn load(&mut self, name: &str, into: &mut Vec<u8>) -> Result<(), LoadFault>
        ensures bytes { OnOk result (IfSome (told self.old name.now) (λ bytes. into.new.items ≡ bytes)) }
        ensures short { OnOk result (vec_len into.new ≤ 1048576) }
        ensures failed { IsErrOf result LoadFault.Failed → Rose (count self.old name.now) (count self.new name.now) }
        ensures too_long { IsErrOf result LoadFault.TooLong → IfSome (told self.old name.now) (λ bytes. 1048576 < length bytes) }
        ensures empty { OnErr result (into.new.items ≡ []) }
        ensures told_still { (other : List ℕ) → told self.new other ≡ told self.old other }
        ensures counted { (other : List ℕ) → count self.old other ≤ count self.new other };

    /// The number of faults so far under a name.
    fn faults(&self, name: &str) -> u64
        ensures { result ≡ count self.now name.now };
}

/// A source of bytes, as standard input.
///
/// `left` is the bytes that it still holds, where it tells them. `gave` is how many bytes its last
/// read gave: none where that read failed. So a caller can promise what it held before each read.
pub trait Source {
    ghost left: { Self → Option (List ℕ) };

    ghost gave: { Self → ℕ };

    ghost count: { Self → ℕ };

    /// Puts bytes at the front of `into`, and answers how many. 0 for a slice that is not empty
    /// is the end.
    fn read(&mut self, into: &mut [u8]) -> Result<usize, Failed>
        ensures within { IfOk result (λ n. n ≤ length into.old) }
        ensures taken { IfOk result (λ n. left self.old ≡ option_map (λ rest. take n into.new ++ rest) (left self.new)) }
        ensures end { IfOk result (λ n. n ≡ 0 → 0 < length into.old → IfSome (left self.old) (λ bytes. bytes ≡ [])) }
        ensures failed { OnErr result (Rose (count self.old) (count self.new)) }
        ensures untaken { OnErr result (left self.new ≡ left self.old) }
        ensures gives { IfOk result (λ n. gave self.new ≡ n) }
        ensures gives_none { OnErr result (gave self.new ≡ 0) }
        ensures counted { count self.old ≤ count self.new };

    /// The number of faults so far.
    fn faults(&self) -> u64
        ensures { result ≡ count self.now };
}

/// A sink of bytes, as standard output.
///
/// `written` is the bytes that it has taken so far, where it tells them.
pub trait Sink {
    ghost written: { Self → Option (List ℕ) };

    ghost count: { Self → ℕ };

    /// Takes bytes of the front of `from`, and answers how many.
    fn write(&mut self, from: &[u8]) -> Result<usize, Failed>
        ensures within { IfOk result (λ n. n ≤ length from.now) }
        ensures added { IfOk result (λ n. written self.new ≡ option_map (λ text. text ++ take n from.now) (written self.old)) }
        ensures stuck { IfOk result (λ n. n ≡ 0 → 0 < length from.now → Rose (count self.old) (count self.new)) }
        ensures failed { OnErr result (Rose (count self.old) (count self.new)) }
        ensures unwritten { OnErr result (written self.new ≡ written self.old) }
        ensures counted { count self.old ≤ count self.new };

    /// The number of faults so far.
    fn faults(&self) -> u64
        ensures { result ≡ count self.now };
}
