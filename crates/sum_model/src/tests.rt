use crate::{RunningSum, Stream, rows};
use std::test::Fail;

#[test]
fn rows_are_solved_by_turns(rt: HostRuntime) -> Result<(), Fail> {
    let cases: [(Stream, Stream, [i64; 4]); 3] = [
        (Stream::Sum, Stream::Sum, [11, 13, 16, 20]),
        (Stream::Param, Stream::Sum, [11, 3, 5, 7]),
        (Stream::Sum, Stream::Param, [1, 2, 3, 4]),
    ];
    for (delayed, shown, wanted) in cases {
        let body = RunningSum {
            first: 10,
            delayed,
            result: shown,
        };
        let found = rows(rt.alloc(), body, &[1, 2, 3, 4])?;
        assert_eq!(rt; found.len(), 4);
        for (cell, value) in found.iter().zip(wanted) {
            assert_eq!(rt; *cell, Some(value));
        }
    }
    Ok(())
}
