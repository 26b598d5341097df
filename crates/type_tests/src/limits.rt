//! Types of 4,096 and of 4,097 nodes.

use crate::answer::{Verdict, judge};
use std::alloc::Global;
use std::test::Fail;

/// 0 where the text has types, and else the line of the fault.
fn fault(alloc: Global, text: &str) -> u32 {
    match judge(alloc, text) {
        Verdict::Typed(_) => 0,
        Verdict::IllTyped(line) => line,
        Verdict::Other => u32::MAX,
    }
}

/// `head`, the item so many times with `between` between, and `tail`.
fn repeated(
    alloc: Global,
    head: &str,
    item: &str,
    between: &str,
    tail: &str,
    count: u32,
) -> Result<String, Fail> {
    let mut text = String::from_str(alloc, head)?;
    for k in 0..count {
        if k > 0 {
            text.push_str(between)?;
        }
        text.push_str(item)?;
    }
    text.push_str(tail)?;
    Ok(text)
}

/// A tuple, a signal and a function.
#[test]
fn limits(rt: HostRuntime) -> Result<(), Fail> {
    let cases = [
        ("let f x = (", "x", ", ", ")", 4095, 0),
        ("let f x = (", "x", ", ", ")", 4096, 1),
        ("let node f x = s where emit s = (", "x", ", ", ")", 4094, 0),
        ("let node f x = s where emit s = (", "x", ", ", ")", 4095, 1),
        ("let f g x = g ", "1", " ", "", 4094, 0),
        ("let f g x = g ", "1", " ", "", 4095, 1),
    ];
    for (head, item, between, tail, count, wanted) in cases {
        let text = repeated(rt.alloc(), head, item, between, tail, count)?;
        let found = fault(rt.alloc(), text.as_str());
        assert_eq!(rt; found, wanted);
    }
    Ok(())
}
