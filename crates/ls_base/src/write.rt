ghost use Rattle.std.specs.Prelude.{◌≡◌, ◌≤◌, ◌++◌, OnOk, OnErr};
ghost use Rattle.std.specs.Option.{option_map};
ghost use Rattle.ls_base.specs.Outside.{Rose, WritesFront};

use crate::{Failed, Sink};

/// Writes all of `from`, in as many writes as the sink asks for.
pub fn write_all<K: Sink>(out: &mut K, from: &[u8]) -> Result<(), Failed>
    ensures written { OnOk result (K.written out.new ≡ option_map (λ text. text ++ from.now) (K.written out.old)) }
    ensures front { WritesFront (K.written out.old) from.now (K.written out.new) }
    ensures failed { OnErr result (Rose (K.count out.old) (K.count out.new)) }
    ensures counted { K.count out.old ≤ K.count out.new }
{
    let mut done = 0;
    while done < from.len() {
        match out.write(&from[done..]) {
            Ok(taken) => {
                if taken == 0 {
                    return Err(Failed);
                }
                done += taken;
            }
            Err(_) => return Err(Failed),
        }
    }
    Ok(())
}
