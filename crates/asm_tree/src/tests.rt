//! What no clause says: that the calls succeed where memory is there, at trees near each limit.
use crate::{
    Const, Consts, Decl, Decls, Kind, MAX_DEPTH, Name, Names, Program, Rule, Rules, Term, Terms,
    is_name,
};
use sqlite_items::{Boxed, Items};
use std::alloc::Global;
use std::process::Abort;
use std::test::Fail;

fn name(alloc: Global, text: &str) -> Result<Name, Fail> {
    match Name::of(alloc, text.as_bytes())? {
        Some(name) => Ok(name),
        None => Err(Fail::new("no name")),
    }
}

fn number(alloc: Global, value: u32) -> Result<Boxed<Term>, Fail> {
    Ok(Boxed::new(alloc, Term::Number(value))?)
}

// A term that is so deep: a number below signs.
fn deep(alloc: Global, depth: usize) -> Result<Boxed<Term>, Fail> {
    let mut term = number(alloc, 0)?;
    for _ in 1..depth {
        term = Boxed::new(alloc, Term::Not(term))?;
    }
    Ok(term)
}

// The update of the function `level`, which has no arguments.
fn update(alloc: Global, value: Boxed<Term>) -> Result<Boxed<Rule>, Fail> {
    let rule = Rule::Update {
        name: name(alloc, "level")?,
        args: Terms::new(alloc),
        value,
    };
    Ok(Boxed::new(alloc, rule)?)
}

fn is_program(
    alloc: Global,
    decl: Decl,
    legal: Boxed<Term>,
    rule: Boxed<Rule>,
) -> Result<bool, Fail> {
    let mut decls = Decls::new(alloc);
    decls.push(decl)?;
    Ok(Program::new(name(alloc, "tank")?, decls, Some(legal), rule).is_some())
}

fn is_declaration(alloc: Global, decl: Decl) -> Result<bool, Fail> {
    let skip = Boxed::new(alloc, Rule::Skip)?;
    is_program(alloc, decl, number(alloc, 0)?, skip)
}

fn range(alloc: Global, lo: i64, hi: i64) -> Result<Decl, Fail> {
    Ok(Decl::Range {
        name: name(alloc, "Level")?,
        lo,
        hi,
    })
}

// A function without arguments, and so many times this constant in its table.
fn function(alloc: Global, kind: Kind, count: u32, value: i64) -> Result<Decl, Fail> {
    let mut table = Consts::new(alloc);
    for _ in 0..count {
        table.push(Const::Number(value))?;
    }
    Ok(Decl::Fun {
        kind,
        name: name(alloc, "level")?,
        args: Names::new(alloc),
        codomain: name(alloc, "Level")?,
        table,
    })
}

#[test]
fn names_are_told_from_other_texts(rt: HostRuntime) -> Result<(), Fail> {
    let alloc = rt.alloc();
    for text in [
        "x",
        "Level_1",
        "machines",
        "If",
        "a23456789_123456789_123456789_12",
    ] {
        assert!(rt; is_name(text.as_bytes()), "{text}");
        let found = Name::of(alloc, text.as_bytes())?;
        assert!(rt; found.is_some(), "{text}");
        if let Some(found) = found {
            assert_eq!(rt; found.bytes(), text.as_bytes());
            assert_eq!(rt; found.copy(alloc)?.bytes(), text.as_bytes());
        }
    }
    for text in [
        "",
        "_x",
        "1x",
        "7",
        "a-b",
        "a b",
        "été",
        "machine",
        "or",
        "a23456789_123456789_123456789_123",
    ] {
        assert!(rt; !is_name(text.as_bytes()), "{text}");
        assert!(rt; Name::of(alloc, text.as_bytes())?.is_none(), "{text}");
    }
    Ok(())
}

#[test]
fn a_program_has_its_parts(rt: HostRuntime) -> Result<(), Fail> {
    let alloc = rt.alloc();
    let mut decls = Decls::new(alloc);
    decls.push(range(alloc, -2147483647, 2147483647)?)?;
    decls.push(function(alloc, Kind::Controlled, 0, 0)?)?;
    decls.push(function(alloc, Kind::Static, 2, -5)?)?;
    let legal = deep(alloc, MAX_DEPTH)?;
    let rule = update(alloc, number(alloc, 2147483647)?)?;
    let program = Program::new(name(alloc, "tank")?, decls, Some(legal), rule);
    assert!(rt; program.is_some());
    if let Some(program) = program {
        check_parts(&rt, &program);
        check_parts(&rt, &program.copy(alloc)?);
    }
    Ok(())
}

fn check_parts(rt: &impl Abort, program: &Program) {
    assert_eq!(rt; program.name().bytes(), b"tank".as_slice());
    assert_eq!(rt; program.decls().len(), 3);
    let table = match program.decls().get(2) {
        Some(
            Decl::Fun {
                kind: Kind::Static,
                table,
                ..
            },
        ) => table.as_slice(),
        _ => &[],
    };
    assert!(rt; matches!(table, [Const::Number(-5), Const::Number(-5)]));
    assert!(rt; matches!(program.legal(), Some(Term::Not(_))));
    assert!(rt;
        program
            .legal()
            .is_some_and(|legal| legal.is_within(48) && !legal.is_within(47))
    );
    let Rule::Update { name, args, value } = program.rule() else {
        assert!(rt; false, "the rule is an update");
        return;
    };
    assert_eq!(rt; name.bytes(), b"level".as_slice());
    assert_eq!(rt; args.len(), 0);
    assert!(rt; matches!(value.get(), Term::Number(2147483647)));
}

#[test]
fn declarations_without_a_text_are_refused(rt: HostRuntime) -> Result<(), Fail> {
    let alloc = rt.alloc();
    for (lo, hi, fits) in [
        (-2147483647, 2147483647, true),
        (-2147483648, 0, false),
        (0, 2147483648, false),
        (i64::MIN, i64::MAX, false),
    ] {
        let found = is_declaration(alloc, range(alloc, lo, hi)?)?;
        assert_eq!(rt; found, fits, "{lo} to {hi}");
    }
    for (kind, count, value, fits) in [
        (Kind::Static, 1, -2147483647, true),
        (Kind::Static, 0, 0, false),
        (Kind::Static, 2, 2147483648, false),
        (Kind::Output, 1, 0, false),
        (Kind::Output, 0, 0, true),
    ] {
        let found = is_declaration(alloc, function(alloc, kind, count, value)?)?;
        assert_eq!(rt; found, fits, "{kind:?}, {count} times {value}");
    }
    let names = Decl::Names {
        name: name(alloc, "Level")?,
        items: Items::new(alloc),
    };
    assert!(rt; !is_declaration(alloc, names)?);
    Ok(())
}

#[test]
fn deep_trees_and_great_numbers_are_refused(rt: HostRuntime) -> Result<(), Fail> {
    let alloc = rt.alloc();
    for (legal, value, fits) in [(48, 47, true), (49, 1, false), (1, 48, false)] {
        let rule = update(alloc, deep(alloc, value)?)?;
        let found = is_program(alloc, range(alloc, 0, 1)?, deep(alloc, legal)?, rule)?;
        assert_eq!(rt; found, fits, "legal {legal}, value {value}");
    }
    for (value, fits) in [(2147483647, true), (2147483648, false)] {
        let rule = update(alloc, number(alloc, value)?)?;
        let found = is_program(alloc, range(alloc, 0, 1)?, deep(alloc, 1)?, rule)?;
        assert_eq!(rt; found, fits, "{value}");
    }
    let none = Boxed::new(alloc, Rule::Par(Rules::new(alloc)))?;
    assert!(rt; !is_program(alloc, range(alloc, 0, 1)?, deep(alloc, 1)?, none)?);
    Ok(())
}
