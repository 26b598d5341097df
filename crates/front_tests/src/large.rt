//! Large files, from their text to their names resolved, and the same at a tenth: a cost above
//! n log n would take minutes. `bench/scope` times them.

use crate::scope::judged as verdict;
use ls_base::NoMemory;
use std::alloc::Global;

/// `front`, the number k, `between` and the number before k.
fn add(
    alloc: Global,
    text: &mut String,
    front: &str,
    k: u32,
    between: &str,
) -> Result<(), NoMemory> {
    let piece = format!(in alloc; "{front}{k}{between}{}", k.saturating_sub(1))?;
    text.push_str(piece.as_str())?;
    Ok(())
}

/// `let f0 = 1 let f1 = f0 let f2 = f1 ..`
fn definitions(alloc: Global, count: u32) -> Result<String, NoMemory> {
    let mut text = String::from_str(alloc, "let f0 = 1")?;
    for k in 1..count {
        add(alloc, &mut text, "\nlet f", k, " = f")?;
    }
    Ok(text)
}

/// `let node f x = y0 where rec y0 = x and y1 = y0 and y2 = y1 ..`
fn equations(alloc: Global, count: u32) -> Result<String, NoMemory> {
    let mut text = String::from_str(alloc, "let node f x = y0 where rec y0 = x")?;
    for k in 1..count {
        add(alloc, &mut text, "\nand y", k, " = y")?;
    }
    Ok(text)
}

/// A block of forty tests of the signal s, one in another.
fn block(text: &mut String) -> Result<(), NoMemory> {
    for _ in 0..40 {
        text.push_str(" present s -> do")?;
    }
    for _ in 0..40 {
        text.push_str(" done end")?;
    }
    Ok(())
}

/// `let node f s = 1 where rec z = 2 and present s -> do present s -> do .. done end done end ..`
fn blocks(alloc: Global, count: u32) -> Result<String, NoMemory> {
    let mut text = String::from_str(alloc, "let node f s = 1 where rec z = 2")?;
    for _ in 0..count {
        text.push_str("\nand")?;
        block(&mut text)?;
    }
    Ok(text)
}

/// The verdict on a file that is told as `COUNT definitions`, `COUNT equations` or `COUNT blocks`.
pub fn judged(alloc: Global, told: &str) -> Result<String, NoMemory> {
    let Some((count, kind)) = told.split_once(' ') else {
        return Ok(String::from_str(alloc, "no count")?);
    };
    let Ok(count) = count.parse::<u32>() else {
        return Ok(String::from_str(alloc, "no count")?);
    };
    let text = match kind {
        "definitions" => definitions(alloc, count)?,
        "equations" => equations(alloc, count)?,
        _ => blocks(alloc, count)?,
    };
    verdict(alloc, text.as_bytes())
}
