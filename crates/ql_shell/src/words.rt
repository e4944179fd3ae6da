//! What the words of the command line ask for.
ghost use Rattle.std.specs.Prelude.{◌≡◌, ◌≤◌, ◌∷◌, ◌++◌, IfOk, OnOk, length, map, option_map};
ghost use Rattle.std.specs.List.{flat_map, prefix_len};
ghost use Rattle.std.specs.String.{string_bytes};
ghost use Rattle.ql_shell.specs.Words as spec;

use crate::options::{Flag, Options, flag_named};
use ql_edge::{Bytes, NoMemory};
use std::alloc::Global;

/// What the words of the command line ask for.
#[derive(Debug, Drop)]
pub enum Command {
    /// The word with this number, counted from 1, is not understood.
    Usage(u64),
    /// The words of a statement, joined, are the script.
    Text(Bytes),
    /// Standard input is the script.
    Input,
}

/// What the words ask for: a command, by options.
#[derive(Debug, Drop)]
pub struct Request {
    pub options: Options,
    pub command: Command,
}

/// What a word is, as long as options are read.
#[derive(Clone, Copy, Debug)]
pub enum Word {
    /// It ends the options.
    End,
    /// It is the first word of a statement.
    Statement,
    /// It sets or unsets a flag.
    Flag(Flag, bool),
    /// It is no option, or has no value of its option.
    Unknown,
}

const END_OF_OPTIONS: &[u8] = b"--";

fn ends_options(word: &[u8]) -> bool
    ensures { result ≡ spec.ends_options word.now }
{
    word == END_OF_OPTIONS
}

fn is_option(word: &[u8]) -> bool
    ensures { result ≡ spec.is_option word.now }
{
    word.len() > 1 && word[0] == b'-'
}

/// An option without its dashes.
fn undashed(word: &[u8]) -> &[u8]
    requires { 2 ≤ length word.now }
    ensures { result.now ≡ spec.undashed word.now }
{
    if word[1] == b'-' {
        &word[2..]
    } else {
        &word[1..]
    }
}

/// How many bytes the name of an option has.
fn name_len(text: &[u8]) -> usize
    ensures value { result ≡ prefix_len spec.is_in_name text.now }
    ensures within { result ≤ length text.now }
{
    let mut end = 0;
    'bytes: while end < text.len() {
        if text[end] == b'=' {
            return end;
        }
        end += 1;
    }
    end
}

/// What stands behind the first byte.
fn behind_first(text: &[u8]) -> Option<&[u8]>
    ensures { option_map (λ x. x.now) result ≡ spec.behind_first text.now }
{
    match text.split_first() {
        Some((_, rest)) => Some(rest),
        None => None,
    }
}

#[tactic(auto, unfolding(crate::specs::Words::is_yes_letter))]
fn is_yes_letter(value: &[u8]) -> bool
    ensures { result ≡ spec.is_yes_letter value.now }
{
    value == b"1".as_slice() || value == b"t".as_slice() || value == b"T".as_slice()
}

#[tactic(auto, unfolding(crate::specs::Words::is_yes_word))]
fn is_yes_word(value: &[u8]) -> bool
    ensures { result ≡ spec.is_yes_word value.now }
{
    value == b"TRUE".as_slice() || value == b"true".as_slice() || value == b"True".as_slice()
}

#[tactic(auto, unfolding(crate::specs::Words::is_no_letter))]
fn is_no_letter(value: &[u8]) -> bool
    ensures { result ≡ spec.is_no_letter value.now }
{
    value == b"0".as_slice() || value == b"f".as_slice() || value == b"F".as_slice()
}

#[tactic(auto, unfolding(crate::specs::Words::is_no_word))]
fn is_no_word(value: &[u8]) -> bool
    ensures { result ≡ spec.is_no_word value.now }
{
    value == b"FALSE".as_slice() || value == b"false".as_slice() || value == b"False".as_slice()
}

/// Whether a flag is set by its value.
fn is_set(value: Option<&[u8]>) -> Option<bool>
    ensures { result ≡ spec.is_set (option_map (λ x. x.now) value.entry) }
{
    match value {
        None => Some(true),
        Some(value) => {
            if is_yes_letter(value) || is_yes_word(value) {
                Some(true)
            } else if is_no_letter(value) || is_no_word(value) {
                Some(false)
            } else {
                None
            }
        }
    }
}

fn flag_word(flag: Option<Flag>, on: Option<bool>) -> Word
    ensures { result ≡ spec.flag_word flag on }
{
    match flag {
        Some(flag) => match on {
            Some(on) => Word::Flag(flag, on),
            None => Word::Unknown,
        },
        None => Word::Unknown,
    }
}

/// What an option is, by its text without dashes.
#[tactic(auto, unfolding(crate::specs::Words::option_word))]
fn option_word(text: &[u8]) -> Word
    ensures { result ≡ spec.option_word text.now }
{
    let len = name_len(text);
    let value = behind_first(&text[len..]);
    flag_word(flag_named(&text[..len]), is_set(value))
}

#[tactic(auto, unfolding(crate::specs::Words::word_of))]
fn word_of(word: &[u8]) -> Word
    ensures { result ≡ spec.word_of word.now }
{
    if ends_options(word) {
        Word::End
    } else if is_option(word) {
        option_word(undashed(word))
    } else {
        Word::Statement
    }
}

/// Adds words, each behind a space.
fn add_words(words: &[String], text: &mut Bytes) -> Result<(), NoMemory>
    ensures { OnOk result (text.new ≡ text.old ++ flat_map (λ word. 32 ∷ word)
        (map string_bytes words.now)) }
{
    for word in words {
        text.push(b' ')?;
        text.extend(word.as_bytes())?;
    }
    Ok(())
}

/// The script that words of a statement are, where there are any.
fn from_words(alloc: Global, words: &[String]) -> Result<Command, NoMemory>
    ensures { IfOk result (λ command. command ≡ spec.from_words (map string_bytes words.now)) }
{
    let Some((first, more)) = words.split_first() else {
        return Ok(Command::Input);
    };
    let mut text = Bytes::new(alloc);
    text.extend(first.as_bytes())?;
    add_words(more, &mut text)?;
    Ok(Command::Text(text))
}

/// What options and the words of a statement behind them ask for.
fn read_statement(alloc: Global, options: Options, words: &[String]) -> Result<Request, NoMemory>
    ensures { IfOk result (λ r. r ≡ spec.request options (spec.from_words
        (map string_bytes words.now))) }
{
    let command = from_words(alloc, words)?;
    Ok(Request { options, command })
}

/// What the words behind the program's name ask for.
///
/// The text of joined words may be longer than a script may be.
pub fn read_words(alloc: Global, words: &[String]) -> Result<Request, NoMemory>
    ensures { IfOk result (λ r. r ≡ spec.request_of (map string_bytes words.now)) }
{
    let mut options = Options::none();
    let mut number = 0;
    let mut left = words;
    'words: while let Some((word, more)) = left.split_first() {
        number += 1;
        match word_of(word.as_bytes()) {
            Word::Flag(flag, on) => options = options.with(flag, on),
            Word::Unknown => return Ok(Request {
                options,
                command: Command::Usage(number),
            }),
            Word::End => return read_statement(alloc, options, more),
            Word::Statement => return read_statement(alloc, options, left),
        }
        left = more;
    }
    Ok(Request {
        options,
        command: Command::Input,
    })
}
