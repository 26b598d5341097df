use crate::{Status, lsc};
use ls_base::{MemSink, MemSource, MemTexts};
use std::alloc::{AllocError, Global};
use std::test::Fail;

const SUM: &[u8] = b"let node sum x = s where rec s = x + (0 fby s)\n";

/// The objects of the outside: how many bytes a read gives at most, how many the sink takes, and
/// which load, read and write fails, if one does.
#[derive(Clone, Copy)]
struct Outside {
    piece: usize,
    room: usize,
    load: Option<u64>,
    read: Option<u64>,
    write: Option<u64>,
}

const FINE: Outside = Outside {
    piece: 2,
    room: 1000,
    load: None,
    read: None,
    write: None,
};

/// The numbers of the calls that fail, if one does.
fn failing(alloc: Global, call: Option<u64>) -> Result<Vec<u64>, AllocError> {
    let mut fails = Vec::new(alloc);
    if let Some(call) = call {
        fails.push(call)?;
    }
    Ok(fails)
}

/// What the top call answers and writes, where the file is `f.ls`.
fn answer_with(
    alloc: Global,
    words: &[&str],
    file: &[u8],
    input: &[u8],
    outside: Outside,
) -> Result<(Status, Vec<u8>), Fail> {
    let mut owned = Vec::new(alloc);
    for word in words {
        owned.push(String::from_str(alloc, word)?)?;
    }
    let mut files = Vec::new(alloc);
    files.push((String::from_str(alloc, "f.ls")?, file.to_vec(alloc)?))?;
    let mut texts = MemTexts::new(files, failing(alloc, outside.load)?);
    let piece = outside.piece.max(1);
    let mut source = MemSource::new(input.to_vec(alloc)?, piece, failing(alloc, outside.read)?);
    let fails = failing(alloc, outside.write)?;
    let mut sink = MemSink::new(alloc, outside.room, fails).map_err(|_| AllocError)?;
    let status = lsc(alloc, &owned, &mut texts, &mut source, &mut sink);
    Ok((status, sink.written().to_vec(alloc)?))
}

fn answer(
    alloc: Global,
    words: &[&str],
    file: &[u8],
    input: &[u8],
) -> Result<(Status, Vec<u8>), Fail> {
    answer_with(alloc, words, file, input, FINE)
}

#[test]
fn runs_are_answered(rt: HostRuntime) -> Result<(), Fail> {
    let run = ["run", "f.ls", "sum"];
    let cases: [(&[u8], &[u8], Status); 6] = [
        (b"1\n2\n3\n", b"1\n3\n6\n", Status::Done),
        (b"", b"", Status::Done),
        (b"1\n2\n3\n4", b"1\n3\n6\n10\n", Status::Done),
        (b" -1\t\r\n007\n", b"-1\n6\n", Status::Done),
        (b"5\n\n6\n", b"5\nbad line 2\n", Status::BadLine),
        (b"\xff\n", b"bad line 1\n", Status::BadLine),
    ];
    for (input, output, status) in cases {
        let (answered, written) = answer(rt.alloc(), &run, SUM, input)?;
        assert_eq!(rt; answered, status);
        assert_eq!(rt; written.as_slice(), output);
    }
    Ok(())
}

#[test]
fn other_calls_are_refused(rt: HostRuntime) -> Result<(), Fail> {
    let cases: [(&[&str], &[u8], Status); 6] = [
        (&[], b"", Status::Usage),
        (&["run", "f.ls"], b"", Status::Usage),
        (&["walk", "f.ls", "sum"], b"", Status::Usage),
        (&["run", "g.ls", "sum"], b"", Status::Unloaded),
        (
            &["run", "f.ls", "total"],
            b"refused: no such node\n",
            Status::Refused,
        ),
        (&["run", "f.ls", "sum"], b"1\n", Status::Done),
    ];
    for (words, output, status) in cases {
        let (answered, written) = answer(rt.alloc(), words, SUM, b"1\n")?;
        assert_eq!(rt; answered, status);
        assert_eq!(rt; written.as_slice(), output);
    }
    Ok(())
}

#[test]
fn files_are_checked(rt: HostRuntime) -> Result<(), Fail> {
    let cases: [(&[u8], &[u8], Status); 6] = [
        (
            SUM,
            b"val sum : int => int\nval sum :: 'a -> 'a\n",
            Status::Done,
        ),
        (
            b"let id x = x\nlet f x = x + 1\n",
            b"val id : 'a -> 'a\nval id :: 'a -> 'a\nval f : int -> int\nval f :: 'a -> 'a\n",
            Status::Done,
        ),
        (b"", b"", Status::Done),
        (
            b"let f x = y\n",
            b"refused: name not bound at line 1\n",
            Status::Refused,
        ),
        (
            b"\nlet f x = x + true\n",
            b"refused: type at line 2\n",
            Status::Refused,
        ),
        (
            b"let f x =\n",
            b"refused: syntax at line 1\n",
            Status::Refused,
        ),
    ];
    for (file, output, status) in cases {
        let (answered, written) = answer(rt.alloc(), &["check", "f.ls"], file, b"")?;
        assert_eq!(rt; answered, status);
        assert_eq!(rt; written.as_slice(), output);
    }
    Ok(())
}

#[test]
fn large_files_and_lines_are_refused(rt: HostRuntime) -> Result<(), Fail> {
    let run = ["run", "f.ls", "sum"];
    let file = vec![in rt.alloc(); b' '; 1_048_577]?;
    let (answered, written) = answer(rt.alloc(), &run, &file, b"1\n")?;
    assert_eq!(rt; answered, Status::TooLarge);
    assert_eq!(rt; written.len(), 0);
    let line = vec![in rt.alloc(); b'0'; 65_537]?;
    let (answered, written) = answer(rt.alloc(), &run, SUM, &line)?;
    assert_eq!(rt; answered, Status::TooLarge);
    assert_eq!(rt; written.len(), 0);
    let (answered, written) = answer(rt.alloc(), &run, SUM, &line[1..])?;
    assert_eq!(rt; answered, Status::Done);
    assert_eq!(rt; written.as_slice(), b"0\n".as_slice());
    Ok(())
}

#[test]
fn faults_leave_what_was_answered(rt: HostRuntime) -> Result<(), Fail> {
    let run = ["run", "f.ls", "sum"];
    let cases: [(Outside, &[u8], Status); 12] = [
        (Outside { piece: 1, ..FINE }, b"1\n3\n6\n", Status::Done),
        (Outside { piece: 9, ..FINE }, b"1\n3\n6\n", Status::Done),
        (
            Outside {
                write: Some(0),
                ..FINE
            },
            b"",
            Status::WriteFault,
        ),
        (
            Outside {
                write: Some(1),
                ..FINE
            },
            b"1\n",
            Status::WriteFault,
        ),
        (
            Outside {
                write: Some(2),
                ..FINE
            },
            b"1\n3\n",
            Status::WriteFault,
        ),
        (
            Outside {
                write: Some(3),
                ..FINE
            },
            b"1\n3\n6\n",
            Status::Done,
        ),
        (Outside { room: 3, ..FINE }, b"1\n", Status::WriteFault),
        (
            Outside {
                read: Some(0),
                ..FINE
            },
            b"",
            Status::ReadFault,
        ),
        (
            Outside {
                read: Some(1),
                ..FINE
            },
            b"1\n",
            Status::ReadFault,
        ),
        (
            Outside {
                read: Some(2),
                ..FINE
            },
            b"1\n3\n",
            Status::ReadFault,
        ),
        (
            Outside {
                read: Some(3),
                ..FINE
            },
            b"1\n3\n6\n",
            Status::ReadFault,
        ),
        (
            Outside {
                load: Some(0),
                ..FINE
            },
            b"",
            Status::Unloaded,
        ),
    ];
    for (outside, output, status) in cases {
        let (answered, written) = answer_with(rt.alloc(), &run, SUM, b"1\n2\n3\n", outside)?;
        assert_eq!(rt; answered, status);
        assert_eq!(rt; written.as_slice(), output);
    }
    Ok(())
}
