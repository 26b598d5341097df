//! Notes of a tree that is resolved.

ghost use Rattle.std.specs.Prelude.{◌≡◌};

use ls_base::{List, NoMemory, NoteCopy};
use ls_sig::{Binder, Use};
use std::alloc::Global;
use tree_notes::Renote;

/// The notes of a body in the order of the text, and the place of the next one.
#[derive(Debug, Drop)]
pub struct UseNotes {
    pub list: List<Use>,
    pub next: u32,
}

impl<N> Renote<N, Use> for UseNotes {
    ghost use Rattle.scope_rules.specs.Notes as spec;

    ghost step = { λ it n. spec.use_at it };

    ghost next = { λ it n. spec.after it };

    fn note(&mut self, alloc: Global, _old: &N) -> Result<Use, NoMemory> {
        let at = self.next;
        match at.checked_add(1) {
            Some(next) => {
                self.next = next;
                match self.list.get(at as usize) {
                    Some(note) => note.copy(alloc),
                    None => Ok(Use {
                        bound: Binder::Nothing,
                    }),
                }
            }
            None => Err(NoMemory),
        }
    }
}
