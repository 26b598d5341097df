//! Functions as arguments, and blocks whose clock is told by what is around them.

use crate::hints::{Hint, Told};
use crate::known::{Known, others};
use std::test::Fail;

const FUNCTIONS: [Known; 10] = [
    Known {
        what: "a pointwise function as an argument",
        node: "total",
        text: "
let add a b = a + b
let node iter f x = y where rec y = f x (0 fby y)
let node total x = iter add x
let node two x = (iter add x, iter add (x + 1))
",
        hints: &[Hint {
            def: "iter",
            name: "f",
            told: Told::Pointwise,
        }],
        args: &["3 4"],
        row: "3 7",
    },
    Known {
        what: "each call has its own memory",
        node: "two",
        text: "
let add a b = a + b
let node iter f x = y where rec y = f x (0 fby y)
let node total x = iter add x
let node two x = (iter add x, iter add (x + 1))
",
        hints: &[Hint {
            def: "iter",
            name: "f",
            told: Told::Pointwise,
        }],
        args: &["3 4"],
        row: "(3,4) (7,9)",
    },
    Known {
        what: "two functions as arguments",
        node: "use",
        text: "
let add a b = a + b
let node iter f x = y where rec y = f x (0 fby y)
let node tw f g x = f x (run g x)
let node acc x = iter add x
let node use x = tw add acc x
",
        hints: &[
            Hint {
                def: "iter",
                name: "f",
                told: Told::Pointwise,
            },
            Hint {
                def: "tw",
                name: "f",
                told: Told::Pointwise,
            },
            Hint {
                def: "tw",
                name: "g",
                told: Told::Node(&[0], 0),
            },
            Hint {
                def: "use",
                name: "acc",
                told: Told::Node(&[0], 0),
            },
        ],
        args: &["3 4"],
        row: "6 11",
    },
    // The second parameter of `h` is on a clock that nothing determines: it is on where the arm is on
    // that holds `h`, and not where the parts of its arrow that name the arm are.
    Known {
        what: "a function with a clock of its own in an arm",
        node: "top",
        text: "
let node h x y = x where rec z = 10 / y
let node g f x = run f x 0
let node top c x = o where rec match c with
  | true -> do o = g h x done
  | false -> do o = 0 done
  end
",
        hints: &[
            Hint {
                def: "h",
                name: "y",
                told: Told::Free(1),
            },
            Hint {
                def: "h",
                name: "z",
                told: Told::Free(1),
            },
            Hint {
                def: "g",
                name: "f",
                told: Told::Node(&[0, 1], 0),
            },
            Hint {
                def: "top",
                name: "h",
                told: Told::Node(&[0, 1], 0),
            },
        ],
        args: &["false false true", "5 5 5"],
        row: "0 0 !",
    },
    Known {
        what: "a function in each arm",
        node: "two",
        text: "
let node h x y = x where rec z = 10 / y
let node g f x = run f x 0
let node two c x = o where rec match c with
  | true -> do o = g h x done
  | false -> do o = 1 + g h x done
  end
",
        hints: &[
            Hint {
                def: "h",
                name: "y",
                told: Told::Free(1),
            },
            Hint {
                def: "h",
                name: "z",
                told: Told::Free(1),
            },
            Hint {
                def: "g",
                name: "f",
                told: Told::Node(&[0, 1], 0),
            },
            Hint {
                def: "two",
                name: "h",
                told: Told::Node(&[0, 1], 0),
            },
        ],
        args: &["true false", "5 5"],
        row: "! !",
    },
    // A `present` is on where its signal may be, and not where the arm around it is.
    Known {
        what: "a present on the clock of its signal",
        node: "top",
        text: "
let node k p c = o where rec match c with
  | true ->
    let emit s = run p 0
    and present s(v) -> do w = 10 / v done else do w = 0 done end
    in do o = 1 done
  | false -> do o = 0 done
  end
let node cst x = x
let node top c = k cst c
",
        hints: &[
            Hint {
                def: "k",
                name: "p",
                told: Told::Node(&[1], 2),
            },
            Hint {
                def: "k",
                name: "s",
                told: Told::Free(2),
            },
            Hint {
                def: "top",
                name: "cst",
                told: Told::Node(&[1], 1),
            },
        ],
        args: &["true false"],
        row: "! !",
    },
    Known {
        what: "a present on the clock of its signal",
        node: "top",
        text: "
let node k p c = o where rec match c with
  | true ->
    let emit s = run p 0
    and present s(v) -> do w = 10 / v done else do w = 0 done end
    in do o = 1 done
  | false -> do o = 0 done
  end
let node cst x = x
let node top c = k cst c
",
        hints: &[
            Hint {
                def: "k",
                name: "p",
                told: Told::Node(&[1], 2),
            },
            Hint {
                def: "k",
                name: "s",
                told: Told::Free(2),
            },
            Hint {
                def: "top",
                name: "cst",
                told: Told::Node(&[1], 1),
            },
        ],
        args: &["false true"],
        row: "! !",
    },
    // An automaton on whose names nothing is sampled is on where the signal is that its arms test.
    Known {
        what: "an automaton on the clock of a signal",
        node: "top",
        text: "
let node top c = o where rec emit s = 0 when c
  and automaton | A -> let z = 10 / 0 in do present s -> do done end done end
  and o = 1
",
        hints: &[
            Hint {
                def: "top",
                name: "s",
                told: Told::Sampled("c", 1),
            },
            Hint {
                def: "top",
                name: "z",
                told: Told::Free(1),
            },
        ],
        args: &["false false true false"],
        row: "1 1 ! 1",
    },
    Known {
        what: "an automaton around one that tests a signal",
        node: "f",
        text: "
let node f c = o where rec emit s = 0 when c
  and o = 1
  and automaton
    | A -> let y = 10 / 0 in do automaton | B -> do present s -> do done end done end done
    end
",
        hints: &[
            Hint {
                def: "f",
                name: "s",
                told: Told::Sampled("c", 1),
            },
            Hint {
                def: "f",
                name: "y",
                told: Told::Free(1),
            },
        ],
        args: &["false true false"],
        row: "1 ! 1",
    },
    Known {
        what: "an automaton that tests a signal of its own",
        node: "f",
        text: "
let node f u = o where rec
  automaton | A -> let emit t = 0 in do present t -> let z = 10 / 0 in do done end done end
  and o = 1
",
        hints: &[
            Hint {
                def: "f",
                name: "t",
                told: Told::Free(1),
            },
            Hint {
                def: "f",
                name: "z",
                told: Told::Free(2),
            },
        ],
        args: &["() ()"],
        row: "! !",
    },
];

#[test]
fn rows_of_functions(rt: HostRuntime) -> Result<(), Fail> {
    let others = others(rt.alloc(), &FUNCTIONS)?;
    assert_eq!(rt; others.as_str(), "");
    Ok(())
}
