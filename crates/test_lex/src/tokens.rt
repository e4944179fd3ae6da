//! The tokens of a text, and what their literals mean.
ghost use Rattle.ql_lex.specs.Tokens.{IsIn};

use ql_lex::{Token, TokenKind, number_of, text_of, tokens};
use std::alloc::Global;
use std::fmt::Write;
use std::test::Fail;

/// What a literal of the source means: a number, or the bytes of a string.
fn meaning(alloc: Global, source: &[u8], token: &Token) -> Result<String, Fail>
    requires { IsIn source.now token.now }
{
    match token.kind {
        TokenKind::Number => {
            let value = number_of(source, token);
            Ok(format!(in alloc; " = {value}")?)
        }
        TokenKind::Text => {
            let bytes = text_of(alloc, source, token)?;
            Ok(format!(in alloc; " = {:?}", bytes.as_slice())?)
        }
        _ => Ok(String::new(alloc)),
    }
}

/// The tokens of a source as text, or its fault.
fn shown(alloc: Global, source: &[u8]) -> Result<String, Fail> {
    let mut out = String::new(alloc);
    match tokens(alloc, source) {
        Ok(found) => {
            for token in found.as_slice() {
                let meaning = meaning(alloc, source, token)?;
                write!(
                    out,
                    "{:?} {}-{}{meaning}; ",
                    token.kind, token.from, token.to
                )?;
            }
        }
        Err(fault) => write!(out, "{fault:?}")?,
    }
    Ok(out)
}

#[test]
fn marks_and_words(rt: HostRuntime) -> Result<(), Fail> {
    let cases: [(&[u8], &str); 26] = [
        (b"", ""),
        (b" \t\r\n", ""),
        (b"&^", "Mark(AndNot) 0-2; "),
        (b"& ^", "Mark(Ampersand) 0-1; Mark(Caret) 2-3; "),
        (b"&&^", "Mark(AndAnd) 0-2; Mark(Caret) 2-3; "),
        (b"<<=", "Mark(ShiftLeft) 0-2; Mark(Equal) 2-3; "),
        (b"<>=", "Mark(LessGreater) 0-2; Mark(Equal) 2-3; "),
        (b"<=>", "Mark(LessEqual) 0-2; Mark(Greater) 2-3; "),
        (b">>>=", "Mark(ShiftRight) 0-2; Mark(GreaterEqual) 2-4; "),
        (b"===", "Mark(EqualEqual) 0-2; Mark(Equal) 2-3; "),
        (b"!=!", "Mark(BangEqual) 0-2; Mark(Bang) 2-3; "),
        (b"|||", "Mark(OrOr) 0-2; Mark(Bar) 2-3; "),
        (
            b"+-*/%",
            "Mark(Plus) 0-1; Mark(Minus) 1-2; Mark(Star) 2-3; Mark(Slash) 3-4; Mark(Percent) 4-5; ",
        ),
        (
            b"(),;.",
            "Mark(Open) 0-1; Mark(Close) 1-2; Mark(Comma) 2-3; Mark(Semicolon) 3-4; Mark(Dot) 4-5; ",
        ),
        (b"- -", "Mark(Minus) 0-1; Mark(Minus) 2-3; "),
        (b"sElEcT", "Word(Select) 0-6; "),
        (b"COMPLEX128", "Word(Complex128) 0-10; "),
        (b"Transaction", "Word(Transaction) 0-11; "),
        (b"selects", "Name 0-7; "),
        (b"_select", "Name 0-7; "),
        (b"select1", "Name 0-7; "),
        (b"t.Id", "Name 0-1; Mark(Dot) 1-2; Name 2-4; "),
        (b"int8int16", "Name 0-9; "),
        (b"a\x00", "BadByte(1)"),
        (b"a \xc3\xa9", "BadByte(2)"),
        (b"'a'", "BadByte(0)"),
    ];
    for (source, want) in cases {
        assert_eq!(rt; shown(rt.alloc(), source)?.as_str(), want);
    }
    Ok(())
}

#[test]
fn comments(rt: HostRuntime) -> Result<(), Fail> {
    let cases: [(&[u8], &str); 14] = [
        (b"--", ""),
        (b"a--", "Name 0-1; "),
        (b"-- a\nb", "Name 5-6; "),
        (b"// a\r\nb", "Name 6-7; "),
        (b"--\x00\xff\"\n;", "Mark(Semicolon) 6-7; "),
        (b"/**/a", "Name 4-5; "),
        (b"/***/a", "Name 5-6; "),
        (b"/*\n\"*/a", "Name 6-7; "),
        (b"/* /* */ */", "Mark(Star) 9-10; Mark(Slash) 10-11; "),
        (b"/*/", "Unclosed(0)"),
        (b" /* *", "Unclosed(1)"),
        (b"/*", "Unclosed(0)"),
        (
            b"a/ *b",
            "Name 0-1; Mark(Slash) 1-2; Mark(Star) 3-4; Name 4-5; ",
        ),
        (b"*/", "Mark(Star) 0-1; Mark(Slash) 1-2; "),
    ];
    for (source, want) in cases {
        assert_eq!(rt; shown(rt.alloc(), source)?.as_str(), want);
    }
    Ok(())
}

#[test]
fn numbers(rt: HostRuntime) -> Result<(), Fail> {
    let cases: [(&[u8], &str); 26] = [
        (b"0", "Number 0-1 = 0; "),
        (b"00", "Number 0-2 = 0; "),
        (b"0017", "Number 0-4 = 15; "),
        (b"0x1F", "Number 0-4 = 31; "),
        (b"0Xff", "Number 0-4 = 255; "),
        (b"0x00000000000000000001", "Number 0-22 = 1; "),
        (
            b"9223372036854775808",
            "Number 0-19 = 9223372036854775808; ",
        ),
        (b"0x8000000000000000", "Number 0-18 = 9223372036854775808; "),
        (
            b"01000000000000000000000",
            "Number 0-23 = 9223372036854775808; ",
        ),
        (
            b"18446744073709551615",
            "Number 0-20 = 18446744073709551615; ",
        ),
        (
            b"0xFFFFFFFFFFFFFFFF",
            "Number 0-18 = 18446744073709551615; ",
        ),
        (
            b"01777777777777777777777",
            "Number 0-23 = 18446744073709551615; ",
        ),
        (b"18446744073709551616", "BadLiteral(0)"),
        (b"0x10000000000000000", "BadLiteral(0)"),
        (b"02000000000000000000000", "BadLiteral(0)"),
        (b"99999999999999999999999999", "BadLiteral(0)"),
        (b"0x", "BadLiteral(0)"),
        (b" 08", "BadLiteral(1)"),
        (b"1a", "BadLiteral(0)"),
        (b"0_", "BadLiteral(0)"),
        (b"0b1", "BadLiteral(0)"),
        (b"0xG", "BadLiteral(0)"),
        (b"1_000", "BadLiteral(0)"),
        (b"1.5", "Number 0-1 = 1; Mark(Dot) 1-2; Number 2-3 = 5; "),
        (b"-7", "Mark(Minus) 0-1; Number 1-2 = 7; "),
        (b"7\xff", "BadByte(1)"),
    ];
    for (source, want) in cases {
        assert_eq!(rt; shown(rt.alloc(), source)?.as_str(), want);
    }
    Ok(())
}

#[test]
fn strings(rt: HostRuntime) -> Result<(), Fail> {
    let cases: [(&[u8], &str); 22] = [
        (b"``", "Text 0-2 = []; "),
        (
            b"`a\r\n\\n\"\x00\xff`",
            "Text 0-10 = [97, 10, 92, 110, 34, 0, 255]; ",
        ),
        (b"`a", "Unclosed(0)"),
        (b"\"\"", "Text 0-2 = []; "),
        (
            b"\"a`\x00\xff'\r\"",
            "Text 0-8 = [97, 96, 0, 255, 39, 13]; ",
        ),
        (
            b"\"\\a\\b\\f\\n\\r\\t\\v\\\\\\\"\"",
            "Text 0-20 = [7, 8, 12, 10, 13, 9, 11, 92, 34]; ",
        ),
        (b"\"\\x41\\xfF\"", "Text 0-10 = [65, 255]; "),
        (b"\"\\0001\\377\"", "Text 0-11 = [0, 49, 255]; "),
        (
            b"\"\\u0041\\u00e9\\u20AC\"",
            "Text 0-20 = [65, 195, 169, 226, 130, 172]; ",
        ),
        (
            b"\"\\U0001F600\\U0010FFFF\"",
            "Text 0-22 = [240, 159, 152, 128, 244, 143, 191, 191]; ",
        ),
        (
            b"\"\\uD7FF\\uE000\"",
            "Text 0-14 = [237, 159, 191, 238, 128, 128]; ",
        ),
        (b"\"a\" \"b\"", "Text 0-3 = [97]; Text 4-7 = [98]; "),
        (b"\"a\nb\"", "BadLiteral(0)"),
        (b"\"\\'\"", "BadLiteral(0)"),
        (b"\"\\8\"", "BadLiteral(0)"),
        (b"\"\\400\"", "BadLiteral(0)"),
        (b"\"\\48\"", "BadLiteral(0)"),
        (b"\"\\x4\"", "BadLiteral(0)"),
        (b"\"\\u12\"", "BadLiteral(0)"),
        (b"\"\\uD800\"", "BadLiteral(0)"),
        (b"\"\\uDFFF\"", "BadLiteral(0)"),
        (b"\"\\U00110000\"", "BadLiteral(0)"),
    ];
    for (source, want) in cases {
        assert_eq!(rt; shown(rt.alloc(), source)?.as_str(), want);
    }
    Ok(())
}

#[test]
fn strings_without_an_end(rt: HostRuntime) -> Result<(), Fail> {
    let cases: [(&[u8], &str); 12] = [
        (b"a \"", "Unclosed(2)"),
        (b"\"a", "Unclosed(0)"),
        (b"\"\\", "Unclosed(0)"),
        (b"\"\\x4", "Unclosed(0)"),
        (b"\"\\37", "Unclosed(0)"),
        (b"\"\\U0011000", "Unclosed(0)"),
        (b"\"\\48", "BadLiteral(0)"),
        (b"\"\\400", "BadLiteral(0)"),
        (b"\"\\q", "BadLiteral(0)"),
        (b"\"\\uD800", "BadLiteral(0)"),
        (b"\"a\n", "BadLiteral(0)"),
        (b"\"\\xg0 without an end", "BadLiteral(0)"),
    ];
    for (source, want) in cases {
        assert_eq!(rt; shown(rt.alloc(), source)?.as_str(), want);
    }
    Ok(())
}

#[test]
fn long_names(rt: HostRuntime) -> Result<(), Fail> {
    let longest = [b'a'; 128];
    assert_eq!(rt; shown(rt.alloc(), &longest)?.as_str(), "Name 0-128; ");
    let too_long = [b'a'; 129];
    assert_eq!(rt; shown(rt.alloc(), &too_long)?.as_str(), "BadLiteral(0)");
    Ok(())
}
