//! The lexical rules at texts of each kind, and that `tokens` answers where memory is there.
use crate::{Token, TokenEnd, TokenKind, sign_text, tokens};
use asm_tree::key_text;
use std::alloc::Global;
use std::process::Abort;
use std::test::Fail;

// The line and the spelling of each token, parted by spaces.
fn listing(alloc: Global, list: &[Token]) -> Result<String, Fail> {
    let mut text = String::new(alloc);
    for token in list {
        let line = token.line;
        let spelled = match &token.kind {
            TokenKind::Word(name) => spelling(alloc, "name ", name.bytes())?,
            TokenKind::Key(key) => spelling(alloc, "key ", key_text(*key))?,
            TokenKind::Number(value) => format!(in alloc; "number {value}")?,
            TokenKind::Sign(sign) => spelling(alloc, "", sign_text(*sign))?,
        };
        text.push_str(&format!(in alloc; "{line} {spelled}|")?)?;
    }
    Ok(text)
}

fn spelling(alloc: Global, kind: &str, bytes: &[u8]) -> Result<String, Fail> {
    let mut text = String::new(alloc);
    text.push_str(kind)?;
    for byte in bytes {
        text.push(char::from(*byte))?;
    }
    Ok(text)
}

fn check(rt: &impl Abort, alloc: Global, text: &str, want: &str) -> Result<(), Fail> {
    let bytes = text.as_bytes();
    // What `tokens` requires of the length.
    assert!(rt; bytes.len() < 1000);
    match tokens(alloc, bytes, 1) {
        Ok(list) => {
            let found = listing(alloc, list.as_slice())?;
            assert_eq!(rt; found.as_str(), want, "{text}");
        }
        Err(end) => assert!(rt; false, "{text}: {end}"),
    }
    Ok(())
}

#[test]
fn gaps_and_comments_part_tokens(rt: HostRuntime) -> Result<(), Fail> {
    let alloc = rt.alloc();
    for (text, want) in [
        ("", ""),
        (" \t\r\n ", ""),
        ("// a comment", ""),
        ("a//b\nc", "1 name a|2 name c|"),
        ("a\r\nb\tc", "1 name a|2 name b|2 name c|"),
        ("\n\na", "3 name a|"),
        ("a // $ _ 007 // \n // \n b", "1 name a|3 name b|"),
        ("//été\rstill\n1", "2 number 1|"),
        ("a:=b", "1 name a|1 :=|1 name b|"),
    ] {
        check(&rt, alloc, text, want)?;
    }
    Ok(())
}

#[test]
fn the_longest_sign_is_taken(rt: HostRuntime) -> Result<(), Fail> {
    let alloc = rt.alloc();
    for (text, want) in [
        (":=", "1 :=|"),
        (": =", "1 :|1 =|"),
        ("::=", "1 :|1 :=|"),
        ("<=>=!==", "1 <=|1 >=|1 !=|1 =|"),
        ("<>", "1 <|1 >|"),
        ("=<", "1 =|1 <|"),
        ("(){}[],;+-", "1 (|1 )|1 {|1 }|1 [|1 ]|1 ,|1 ;|1 +|1 -|"),
    ] {
        check(&rt, alloc, text, want)?;
    }
    Ok(())
}

#[test]
fn each_keyword_is_one(rt: HostRuntime) -> Result<(), Fail> {
    let alloc = rt.alloc();
    for word in [
        "machine",
        "domain",
        "to",
        "controlled",
        "input",
        "output",
        "static",
        "legal",
        "rule",
        "skip",
        "if",
        "then",
        "else",
        "end",
        "par",
        "forall",
        "in",
        "with",
        "do",
        "choose",
        "let",
        "not",
        "min",
        "max",
        "cond",
        "and",
        "or",
    ] {
        let want = format!(in alloc; "1 key {word}|")?;
        check(&rt, alloc, word, &want)?;
    }
    Ok(())
}

#[test]
fn words_are_names_and_numbers(rt: HostRuntime) -> Result<(), Fail> {
    let alloc = rt.alloc();
    for (text, want) in [
        ("If machines in_", "1 name If|1 name machines|1 name in_|"),
        (
            "0 7 2147483647",
            "1 number 0|1 number 7|1 number 2147483647|",
        ),
        ("-0", "1 -|1 number 0|"),
        ("a1_ A", "1 name a1_|1 name A|"),
    ] {
        check(&rt, alloc, text, want)?;
    }
    Ok(())
}

#[test]
fn the_first_bad_place_is_answered(rt: HostRuntime) -> Result<(), Fail> {
    let alloc = rt.alloc();
    for (text, line, token) in [
        ("$", 10, 1),
        ("a\n b !", 11, 3),
        ("/", 10, 1),
        ("a / b", 10, 2),
        ("\n\n//\n\"", 13, 1),
        ("a . _x", 10, 2),
        ("x\0", 10, 2),
    ] {
        let end = tokens(alloc, text.as_bytes(), 10).err();
        assert_eq!(rt; end, Some(TokenEnd::BadByte { line, token }), "{text}");
    }
    for (text, line, token) in [
        ("_x", 10, 1),
        ("a b\n007", 11, 3),
        ("2147483648", 10, 1),
        ("99999999999999999999", 10, 1),
        ("1x", 10, 1),
        ("x 00", 10, 2),
        ("a := _ $", 10, 3),
        ("a23456789_123456789_123456789_123", 10, 1),
    ] {
        let end = tokens(alloc, text.as_bytes(), 10).err();
        assert_eq!(rt; end, Some(TokenEnd::BadWord { line, token }), "{text}");
    }
    Ok(())
}
