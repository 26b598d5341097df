//! Signals: what is emitted, asked and tested.

use crate::hints::{Hint, Told};
use crate::known::{Known, others};
use std::test::Fail;

const SIGNALS: [Known; 12] = [
    Known {
        what: "the value of a signal",
        node: "sg",
        text: "let node sg s = o where rec present s(v) -> do o = v done else do o = 0 done end",
        hints: &[],
        args: &["7 ."],
        row: "7 0",
    },
    Known {
        what: "a signal that is emitted",
        node: "e",
        text: "
let node e () = s where
  rec n = 0 fby (n + 1)
  and match odd n with
    | true -> do emit s = n done
    | false -> do done
    end
",
        hints: &[],
        args: &["() () ()"],
        row: ". 1 .",
    },
    // The first test whose signal is emitted chooses the arm; a signal that is not emitted does not.
    Known {
        what: "the first signal that is emitted",
        node: "a",
        text: "
let node a s t = o where rec present
  | s(v) -> do o = v done
  | t(w) -> do o = w + 1 done
  else do o = 0 done end
",
        hints: &[],
        args: &["7 . . 5", "8 8 . ."],
        row: "7 9 0 5",
    },
    Known {
        what: "the first of three signals",
        node: "f",
        text: "
let node f a b = o where rec
  match a with | true -> do emit s = 1 done | false -> do done end
  and match b with | true -> do emit t = 2 and emit u = 3 done | false -> do done end
  and present s(v) -> do o = v done | t(v) -> do o = v done | u(v) -> do o = v done
  else do o = 0 done end
",
        hints: &[],
        args: &["true false true false", "true true false false"],
        row: "1 2 1 0",
    },
    Known {
        what: "whether a signal is emitted",
        node: "q",
        text: "let node q s = if ?s then 1 else 0",
        hints: &[],
        args: &["7 . 0"],
        row: "1 0 1",
    },
    Known {
        what: "whether an arm emits",
        node: "f",
        text: "
let node f a = q where rec match a with | true -> do emit s = 1 done | false -> do done end
  and q = ?s
",
        hints: &[],
        args: &["true false"],
        row: "true false",
    },
    Known {
        what: "a signal that a call gives",
        node: "got",
        text: "
let node pulse c = s where rec match c with
  | true -> do emit s = 3 done
  | false -> do done
  end
let node got c = o where rec t = pulse c
  and present t(v) -> do o = v done else do o = 0 done end
",
        hints: &[Hint {
            def: "got",
            name: "t",
            told: Told::Signal,
        }],
        args: &["true false true"],
        row: "3 0 3",
    },
    // A signal that is not emitted is on its clock all the same.
    Known {
        what: "a signal given to a node",
        node: "f",
        text: "
let node f s = o where rec present s(v) -> do o = 10 / v done else do o = 7 done end
let node g c x = merge c (f s) (0 whenot c) where rec emit s = x when c
",
        hints: &[],
        args: &["5 . 0 ."],
        row: "2 7 ! 7",
    },
    Known {
        what: "a signal given to a node",
        node: "g",
        text: "
let node f s = o where rec present s(v) -> do o = 10 / v done else do o = 7 done end
let node g c x = merge c (f s) (0 whenot c) where rec emit s = x when c
",
        hints: &[Hint {
            def: "g",
            name: "s",
            told: Told::Sampled("c", 1),
        }],
        args: &["true false true", "5 0 10"],
        row: "2 0 1",
    },
    Known {
        what: "a present on a slow signal",
        node: "f",
        text: "
let node f c = o where rec emit s = 3 when c
  and present s(v) -> let z = 10 / 0 in do done end
  and o = 1
",
        hints: &[
            Hint {
                def: "f",
                name: "s",
                told: Told::Sampled("c", 1),
            },
            Hint {
                def: "f",
                name: "z",
                told: Told::Free(1),
            },
        ],
        args: &["false true false"],
        row: "1 ! 1",
    },
    Known {
        what: "a present in an arm",
        node: "f",
        text: "
let node f c a = o where rec
  match a with | true -> do emit s = 1 done | false -> do done end
  and match c with
    | true -> do present s(v) -> let z = 10 / 0 in do o = v done else do o = 0 done end done
    | false -> do o = 5 done
    end
",
        hints: &[],
        args: &["true true false false", "true false true false"],
        row: "! 0 5 5",
    },
    Known {
        what: "a signal of an arm",
        node: "f",
        text: "
let node f c a = o where rec match c with
  | true ->
    let match a with | true -> do emit s = 1 done | false -> do done end in
    do present s(v) -> do o = v done else do o = 0 done end done
  | false -> do o = 5 done
  end
",
        hints: &[],
        args: &["true true false", "true false true"],
        row: "1 0 5",
    },
];

#[test]
fn rows_of_signals(rt: HostRuntime) -> Result<(), Fail> {
    let others = others(rt.alloc(), &SIGNALS)?;
    assert_eq!(rt; others.as_str(), "");
    Ok(())
}
