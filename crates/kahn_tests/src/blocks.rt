//! Blocks: `match` and `reset`, one in another.

use crate::known::{Known, others};
use std::test::Fail;

const BLOCKS: [Known; 6] = [
    Known {
        what: "a match in a reset",
        node: "r",
        text: "
let node r c s = o where rec
  reset
    match s with
    | true -> let n = 0 fby (n + 1) in do o = n done
    | false -> do o = - 1 done
    end
  every c
",
        hints: &[],
        args: &["false false true false", "true true false true"],
        row: "0 1 -1 0",
    },
    Known {
        what: "a shared name keeps its value",
        node: "h",
        text: "
let node h x c = o where rec last o = 0
  and match c with | true -> do o = x done | false -> do done end
",
        hints: &[],
        args: &["5 6 7", "true false true"],
        row: "5 5 7",
    },
    Known {
        what: "an initial equation in a reset",
        node: "g",
        text: "let node g x c = o where rec reset last o = 0 and o = last o + x every c",
        hints: &[],
        args: &["1 2 3 4", "false false true false"],
        row: "1 3 3 7",
    },
    Known {
        what: "a block in a block",
        node: "n",
        text: "
let node n a b = o where rec match a with
  | true -> do
    match b with
    | true -> do o = 1 fby (o + 1) done
    | false -> do o = 10 fby (o + 1) done
    end done
  | false -> do o = 0 done
  end
",
        hints: &[],
        args: &["true true true false true", "true true false true true"],
        row: "1 2 10 0 3",
    },
    // Where the scrutinee has no value, no arm is active, and what the arms share has none; a tuple
    // without a part that has a value has none.
    Known {
        what: "a scrutinee without a value",
        node: "m",
        text: "
let node m c = (o, p) where rec match pre c with
  | true -> do o = 1 and p = 0 fby (p + 1) done
  | false -> do o = 2 and p = 5 done
  end
",
        hints: &[],
        args: &["true true false true"],
        row: "nil (1,0) (1,1) (2,5)",
    },
    Known {
        what: "a match on a constructor",
        node: "r",
        text: "
type colour = Red | Green | Blue
let node r c = o where rec match c with
  | Red -> do o = 0 fby (o + 1) done
  | _ -> do o = 100 fby (o + 1) done
  end
",
        hints: &[],
        args: &["#0 #1 #2 #0"],
        row: "0 100 101 1",
    },
];

#[test]
fn rows_of_blocks(rt: HostRuntime) -> Result<(), Fail> {
    let others = others(rt.alloc(), &BLOCKS)?;
    assert_eq!(rt; others.as_str(), "");
    Ok(())
}
