ghost use Rattle.std.specs.Prelude.{◌≡◌, ◌<◌};

use crate::{
    Boxed, Failed, FileTexts, List, LoadFault, MemSink, MemSource, MemTexts, Name, Names, NoMemory,
    NoteCopy, Sink, Source, Steps, Texts, write_all,
};
use std::alloc::{AllocError, Global};
use std::fs::Files;
use std::marker::Brand;
use std::sync::ledger::{Blank, Ledger};
use std::test::Fail;
use std::{fs, io};

#[test]
fn a_list_grows_at_its_end(rt: HostRuntime) -> Result<(), Fail> {
    let mut list: List<u32> = List::new(rt.alloc());
    list.push(7)?;
    list.push(9)?;
    assert_eq!(rt; list.len(), 2);
    assert_eq!(rt; list.get(0), Some(&7));
    assert_eq!(rt; list.get(1), Some(&9));
    assert_eq!(rt; list.get(2), None);
    Ok(())
}

#[test]
fn a_copy_is_equal(rt: HostRuntime) -> Result<(), Fail> {
    let mut list: List<(Name, Boxed<Option<u32>>)> = List::new(rt.alloc());
    list.push((Name(3), Boxed::new(rt.alloc(), Some(4))?))?;
    let copy = list.copy(rt.alloc())?;
    assert_eq!(rt; copy.len(), 1);
    if let Some(item) = copy.get(0) {
        assert_eq!(rt; item.0, Name(3));
        assert_eq!(rt; *item.1.get(), Some(4));
    }
    Ok(())
}

#[test]
fn names_keep_their_numbers(rt: HostRuntime) -> Result<(), Fail> {
    let mut names = Names::new(rt.alloc());
    for (spelling, number) in [("x", 0), ("y", 1), ("x", 0), ("f'", 2)] {
        assert_eq!(rt; names.add(spelling)?, Name(number), "{spelling}");
    }
    let copy = names.copy(rt.alloc())?;
    assert_eq!(rt; copy.len(), 3);
    assert_eq!(rt; copy.find("f'"), Some(Name(2)));
    assert_eq!(rt; copy.find("z"), None);
    assert_eq!(rt; copy.spell(Name(1)), Some("y"));
    assert_eq!(rt; copy.spell(Name(3)), None);
    Ok(())
}

fn count_two<L: Ledger>(ledger: Blank)
    requires name { ledger.name ≡ L.name }
    requires parts { ledger.parts ≡ L.parts }
    requires some { 0 < L.parts }
{
    let mut steps: Steps<L> = Steps::new(ledger);
    steps.tick();
    steps.tick();
}

#[test]
fn steps_are_made_and_counted() {
    count_two::<Brand>(Blank::new(1));
}

#[test]
fn a_source_gives_pieces_and_fails_where_asked(rt: HostRuntime) -> Result<(), Fail> {
    let bytes = b"abcde".to_vec(rt.alloc())?;
    let mut source = MemSource::new(bytes, 2, [1].to_vec(rt.alloc())?);
    let wanted = [Ok(2), Err(Failed), Ok(2), Ok(1), Ok(0)];
    let mut into = [0u8; 4];
    for (call, want) in wanted.iter().enumerate() {
        assert_eq!(rt; source.read(&mut into), *want, "call {call}");
        assert_eq!(rt; source.faults(), if call == 0 { 0 } else { 1 });
    }
    assert_eq!(rt; into.as_slice(), b"ed\0\0".as_slice());
    Ok(())
}

#[test]
fn a_sink_fails_where_asked_and_past_its_room(rt: HostRuntime) -> Result<(), Fail> {
    let mut sink = MemSink::new(rt.alloc(), 4, [0].to_vec(rt.alloc())?)?;
    assert_eq!(rt; write_all(&mut sink, b"abc"), Err(Failed));
    assert_eq!(rt; write_all(&mut sink, b"abc"), Ok(()));
    assert_eq!(rt; sink.write(b"de"), Err(Failed));
    assert_eq!(rt; sink.write(b"d"), Ok(1));
    assert_eq!(rt; sink.written(), b"abcd".as_slice());
    assert_eq!(rt; sink.faults(), 2);
    Ok(())
}

fn named(alloc: Global, name: &str, bytes: Vec<u8>) -> Result<(String, Vec<u8>), AllocError> {
    Ok((String::from_str(alloc, name)?, bytes))
}

fn some_texts(alloc: Global) -> Result<MemTexts, NoMemory> {
    let mut files = Vec::new(alloc);
    push(&mut files, named(alloc, "one", b"1".to_vec(alloc)?)?)?;
    push(&mut files, named(alloc, "one", b"2".to_vec(alloc)?)?)?;
    push(
        &mut files,
        named(alloc, "long", vec![in alloc; b'a'; 1_048_577]?)?,
    )?;
    Ok(MemTexts::new(files, [2].to_vec(alloc)?))
}

fn push(files: &mut Vec<(String, Vec<u8>)>, file: (String, Vec<u8>)) -> Result<(), NoMemory> {
    match files.push(file) {
        Ok(()) => Ok(()),
        Err(_) => Err(NoMemory),
    }
}

#[test]
fn texts_in_memory(rt: HostRuntime) -> Result<(), Fail> {
    let mut texts = some_texts(rt.alloc())?;
    let mut into = b"old".to_vec(rt.alloc())?;
    for (name, want, bytes) in [
        ("none", Err(LoadFault::Failed), ""),
        ("one", Ok(()), "1"),
        ("one", Err(LoadFault::Failed), ""),
        ("long", Err(LoadFault::TooLong), ""),
    ] {
        assert_eq!(rt; texts.load(name, &mut into), want, "{name}");
        assert_eq!(rt; into.as_slice(), bytes.as_bytes(), "{name}");
    }
    assert_eq!(rt; texts.faults("one"), 1);
    assert_eq!(rt; texts.faults("none"), 1);
    Ok(())
}

fn write_long<R: Files>(rt: &R, alloc: Global) -> io::Result<()> {
    let long = vec![in alloc; b'a'; 1_048_577]?;
    fs::write(rt, "ls_base_full.txt", &long[1..])?;
    fs::write(rt, "ls_base_long.txt", long.as_slice())
}

#[test]
fn texts_of_files(rt: HostRuntime) -> Result<(), Fail> {
    write_long(&rt, rt.alloc())?;
    let mut texts = FileTexts::new(&rt);
    let mut into = Vec::new(rt.alloc());
    for (path, want, len, faults) in [
        ("ls_base_full.txt", Ok(()), 1_048_576, 0),
        ("ls_base_long.txt", Err(LoadFault::TooLong), 0, 0),
        ("ls_base_none.txt", Err(LoadFault::Failed), 0, 1),
    ] {
        assert_eq!(rt; texts.load(path, &mut into), want, "{path}");
        assert_eq!(rt; into.len(), len, "{path}");
        assert_eq!(rt; texts.faults(path), faults, "{path}");
    }
    fs::remove_file(&rt, "ls_base_full.txt")?;
    fs::remove_file(&rt, "ls_base_long.txt")?;
    Ok(())
}

#[test]
fn the_text_of_a_file(rt: HostRuntime) -> Result<(), Fail> {
    fs::write(&rt, "ls_base_short.txt", "let x = 1\n")?;
    let mut into = Vec::new(rt.alloc());
    let answer = FileTexts::new(&rt).load("ls_base_short.txt", &mut into);
    assert_eq!(rt; answer, Ok(()));
    assert_eq!(rt; into.as_slice(), b"let x = 1\n".as_slice());
    fs::remove_file(&rt, "ls_base_short.txt")?;
    Ok(())
}
