//! A text is written unless a write failed before.

ghost use Rattle.text_write.specs.Writes.{Prints};

use ls_base::{Sink, write_all};

/// Writes a text, unless a write failed before: `ok` says that none did. Whether none failed up to
/// now is answered.
pub fn put<K: Sink>(ok: bool, text: &[u8], out: &mut K) -> bool
    ensures { Prints ok result (K.written out.old) (K.written out.new) (K.count out.old) (K.count out.new) text.now }
{
    if !ok {
        return false;
    }
    match write_all(out, text) {
        Ok(()) => true,
        Err(_) => false,
    }
}
