//! Streams, delays, calls and clocks that an author names.

use crate::hints::{Hint, Told};
use crate::known::{Known, others};
use std::test::Fail;

const STREAMS: [Known; 11] = [
    Known {
        what: "a running sum",
        node: "sum",
        text: "let node sum x = s where rec s = x + (0 fby s)",
        hints: &[],
        args: &["1 2 3"],
        row: "1 3 6",
    },
    Known {
        what: "a merge",
        node: "keep",
        text: "let node keep x c = merge c (x when c) (0 whenot c)",
        hints: &[],
        args: &["5 6", "true false"],
        row: "5 0",
    },
    Known {
        what: "a division",
        node: "d",
        text: "let node d x = 10 / x",
        hints: &[],
        args: &["5 0 1"],
        row: "2 ! 10",
    },
    Known {
        what: "a division on a slow clock",
        node: "m",
        text: "let node m x c = merge c (1 / k) (x whenot c) where rec k = 0 fby (k + 1)",
        hints: &[Hint {
            def: "m",
            name: "k",
            told: Told::Sampled("c", 1),
        }],
        args: &["7 8 9", "false false true"],
        row: "7 8 !",
    },
    Known {
        what: "a first instant",
        node: "i",
        text: "let node i x = 0 -> x + 1",
        hints: &[],
        args: &["5 6 7"],
        row: "0 7 8",
    },
    Known {
        what: "a first instant",
        node: "p",
        text: "let node p x = 0 -> pre x",
        hints: &[],
        args: &["5 6 7"],
        row: "0 5 6",
    },
    Known {
        what: "a call that begins anew",
        node: "z",
        text: "let node sum x = s where rec s = x + (0 fby s)\nlet node z x c = (sum x every c)",
        hints: &[],
        args: &["1 2 3 4", "false false true false"],
        row: "1 3 3 7",
    },
    Known {
        what: "a parameter that is a tuple",
        node: "t",
        text: "let node t (a, b) c = (b, a + c)",
        hints: &[],
        args: &["(1,2) (3,4)", "10 20"],
        row: "(2,11) (4,23)",
    },
    Known {
        what: "a clock of three cases",
        node: "e",
        text: "
type colour = Red | Green | Blue
let node e c x = merge c (Red -> 0 when Red(c)) (Green -> y) (Blue -> x when Blue(c))
  where rec y = 10 fby (y + 1)
",
        hints: &[Hint {
            def: "e",
            name: "y",
            told: Told::Sampled("c", 1),
        }],
        args: &["#1 #0 #1 #2 #1", "1 2 3 4 5"],
        row: "10 0 11 4 12",
    },
    // An expression whose note lists a variable restarts where the variable is true.
    Known {
        what: "an expression that restarts by a variable",
        node: "f",
        text: "let node f c = o where rec o = 0 fby (o + 1) and r = c",
        hints: &[],
        args: &["false false true false"],
        row: "0 1 2 3",
    },
    Known {
        what: "an expression that restarts by a variable",
        node: "f",
        text: "let node f c = o where rec o = 0 fby (o + 1) and r = c",
        hints: &[Hint {
            def: "f",
            name: "o",
            told: Told::Restarts("r"),
        }],
        args: &["false false true false"],
        row: "0 1 0 1",
    },
];

#[test]
fn rows_of_streams(rt: HostRuntime) -> Result<(), Fail> {
    let others = others(rt.alloc(), &STREAMS)?;
    assert_eq!(rt; others.as_str(), "");
    Ok(())
}
