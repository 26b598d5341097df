//! The forms of a command.
ghost use Rattle.std.specs.Prelude.{◌≡◌, map, string_bytes, option_map, IfOk};
ghost use Rattle.std.specs.Char.{is_ascii_digit};
ghost use Rattle.std.specs.List.{list_all};
ghost use Rattle.command_words.specs.Asked.{asked, text_in, texts_in};
ghost use Rattle.command_words.specs.Forms as spec;

use crate::options::read_options;
use ls_base::NoMemory;
use std::alloc::Global;

/// What is done with a file. Nodes are given by their names.
#[derive(Clone, Copy, Debug)]
pub enum Task<'a> {
    /// `check FILE`
    Check,
    /// `run FILE NODE`, and how many lines are answered at most: `--max N`.
    Run(&'a str, u32),
    /// `code FILE NODE`
    Code(&'a str),
    /// `model FILE NODE`
    Model(&'a str),
    /// `exec FILE`
    Exec,
}

/// What the words of a command line ask for.
#[derive(Clone, Copy, Debug)]
pub enum Command<'a> {
    /// Something is done with a file.
    OnFile(&'a str, Task<'a>),
    /// `demo SEED INSTANTS`
    Demo(u32, u32),
}

fn is_digits(text: &str) -> bool
    ensures { result ≡ list_all is_ascii_digit text.now }
{
    text.as_bytes().iter().all(|byte| byte.is_ascii_digit())
}

fn within(least: u32, most: u32, number: u32) -> Option<u32>
    ensures { result ≡ spec.within least most number }
{
    if least <= number && number <= most {
        Some(number)
    } else {
        None
    }
}

/// A number of digits alone, within both bounds.
fn number_of(least: u32, most: u32, text: &str) -> Option<u32>
    ensures { result ≡ spec.number_of least most text.now }
{
    if !is_digits(text) {
        return None;
    }
    match text.parse::<u32>() {
        Ok(number) => within(least, most, number),
        Err(_) => None,
    }
}

fn only_file<'a>(words: &[&'a str], max: Option<&'a str>) -> Option<&'a str>
    ensures { text_in result ≡ spec.only_file (texts_in words.now) (text_in max.entry) }
{
    match (words, max) {
        ([file], None) => Some(file),
        _ => None,
    }
}

fn file_and_node<'a>(words: &[&'a str], max: Option<&'a str>) -> Option<(&'a str, &'a str)>
    ensures { option_map (λ named. (named.0.now, named.1.now)) result ≡ spec.file_and_node (texts_in words.now) (text_in max.entry) }
{
    match (words, max) {
        ([file, node], None) => Some((file, node)),
        _ => None,
    }
}

fn most_of(max: Option<&str>) -> Option<u32>
    ensures { result ≡ spec.most_of (text_in max.entry) }
{
    match max {
        None => Some(u32::MAX),
        Some(text) => number_of(1, u32::MAX, text),
    }
}

fn run_form<'a>(words: &[&'a str], max: Option<&'a str>) -> Option<Command<'a>>
    ensures { option_map asked result ≡ spec.run_form (texts_in words.now) (text_in max.entry) }
{
    match words {
        [file, node] => {
            let most = most_of(max)?;
            Some(Command::OnFile(file, Task::Run(node, most)))
        }
        _ => None,
    }
}

fn demo_form<'a>(words: &[&'a str], max: Option<&'a str>) -> Option<Command<'a>>
    ensures { option_map asked result ≡ spec.demo_form (texts_in words.now) (text_in max.entry) }
{
    let (seed, instants) = file_and_node(words, max)?;
    let seed = number_of(0, u32::MAX, seed)?;
    let instants = number_of(1, 200_000, instants)?;
    Some(Command::Demo(seed, instants))
}

/// The command of a first word, and of what stands behind it.
fn form_of<'a>(word: &str, words: &[&'a str], max: Option<&'a str>) -> Option<Command<'a>>
    ensures { option_map asked result ≡ spec.form_of word.now (record { words = texts_in words.now; max = text_in max.entry }) }
{
    match word {
        "check" => Some(Command::OnFile(only_file(words, max)?, Task::Check)),
        "run" => run_form(words, max),
        "code" => {
            let (file, node) = file_and_node(words, max)?;
            Some(Command::OnFile(file, Task::Code(node)))
        }
        "model" => {
            let (file, node) = file_and_node(words, max)?;
            Some(Command::OnFile(file, Task::Model(node)))
        }
        "demo" => demo_form(words, max),
        "exec" => Some(Command::OnFile(only_file(words, max)?, Task::Exec)),
        _ => None,
    }
}

/// The command that the words ask for, where they are of a form. `--max` stands anywhere after
/// the first word, at most once, and after `--` every word is positional; there are no
/// abbreviations, and no words for help.
pub fn read_words<'a>(alloc: Global, words: &'a [String]) -> Result<Option<Command<'a>>, NoMemory>
    ensures { IfOk result (λ found. option_map asked found ≡ spec.command_of (map string_bytes words.now)) }
{
    let Some(word) = words.first() else {
        return Ok(None);
    };
    match read_options(alloc, words)? {
        Some(found) => {
            let max = found.get_str("max");
            match found.get_strs("word") {
                Some(rest) => Ok(form_of(word.as_str(), rest, max)),
                None => Ok(form_of(word.as_str(), &[], max)),
            }
        }
        None => Ok(None),
    }
}
