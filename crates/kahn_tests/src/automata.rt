//! Automata: states, guards, and what a state keeps.

use crate::known::{Known, others};
use std::test::Fail;

const AUTOMATA: [Known; 8] = [
    Known {
        what: "an automaton with weak guards",
        node: "updown",
        text: "
let node updown () = o where rec last o = 0 and automaton
  | Up -> do o = last o + 1 until (o = 2) then Down
  | Down -> do o = last o - 1 until (o = 0) then Up
  end
",
        hints: &[],
        args: &["() () () () () ()"],
        row: "1 2 1 0 1 2",
    },
    Known {
        what: "an automaton with strong guards",
        node: "sw",
        text: "
let node sw c = o where rec automaton
  | A -> do o = 0 unless c then B
  | B -> do o = 1 unless c then A
  end
",
        hints: &[],
        args: &["true true false"],
        row: "1 0 0",
    },
    Known {
        what: "states entered anew",
        node: "t",
        text: "
let node t c = o where rec automaton
  | A -> let n = 1 fby (n + 1) in do o = n until c then B
  | B -> let n = 10 fby (n + 1) in do o = n until c then A
  end
",
        hints: &[],
        args: &["false true false true false"],
        row: "1 2 10 11 1",
    },
    Known {
        what: "states entered with their memories",
        node: "t",
        text: "
let node t c = o where rec automaton
  | A -> let n = 1 fby (n + 1) in do o = n until c continue B
  | B -> let n = 10 fby (n + 1) in do o = n until c continue A
  end
",
        hints: &[],
        args: &["false true false true false"],
        row: "1 2 10 11 3",
    },
    Known {
        what: "strong guards go before weak ones",
        node: "w",
        text: "
let node w c d = o where rec automaton
  | A -> do o = 0 unless c then B until d then C
  | B -> do o = 1 until true then A
  | C -> do o = 2 until true then A
  end
",
        hints: &[],
        args: &["false false true false", "true false true false"],
        row: "0 2 1 0",
    },
    // A guard is worked out in its own state alone, and a division by zero there is an alarm.
    Known {
        what: "a division in a guard",
        node: "d",
        text: "
let node d x = o where rec automaton
  | A -> do o = 1 until (10 / x = 5) then B
  | B -> do o = 2 until (x = 1) then A
  end
",
        hints: &[],
        args: &["5 2 0 1 0"],
        row: "1 1 2 2 !",
    },
    Known {
        what: "an automaton with a delay on a slow clock",
        node: "s",
        text: "
let node s c = o where rec match c with
  | true -> do automaton
    | A -> do o = 0 fby (o + 1) until (o = 1) then B
    | B -> do o = 10 fby (o + 1) until (o = 11) continue A
    end done
  | false -> do o = - 1 done
  end
",
        hints: &[],
        args: &["true true false true true true false true"],
        row: "0 1 -1 10 11 2 -1 3",
    },
    Known {
        what: "a chronometer",
        node: "chrono",
        text: "
let node chrono key tick = (shown, running) where rec
  present key(k) -> do ss = (k = 's') and lp = (k = 'l') done
  else do ss = false and lp = false done end
  and last time = 0 and last shown = 0
  and automaton
    | Idle -> do running = false and shown = 0 and time = 0
        unless ss continue Going
    | Going -> do running = true and time = last time + tick and shown = time
        unless ss continue Halt unless lp continue Frozen
    | Frozen -> do running = true and time = last time + tick
        unless lp continue Going
    | Halt -> do running = false and shown = last time
        unless ss continue Going unless lp then Idle
    end
",
        hints: &[],
        args: &[". 's' . 'l' . 'l' 's' . 'l' 'x'", "1 1 1 1 1 1 1 1 1 1"],
        row: "(0,false) (1,true) (2,true) (2,true) (2,true) (5,true) (5,false) \
    (5,false) (0,false) (0,false)",
    },
];

#[test]
fn rows_of_automata(rt: HostRuntime) -> Result<(), Fail> {
    let others = others(rt.alloc(), &AUTOMATA)?;
    assert_eq!(rt; others.as_str(), "");
    Ok(())
}
