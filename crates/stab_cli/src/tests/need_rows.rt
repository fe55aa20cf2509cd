//! Sources that need as much as the machine has, and sources that need more.

use super::answered;
use super::check_jobs::{are_answered, is_answered};
use crate::status::Status;
use std::alloc::Global;
use std::process::Abort;
use std::test::Fail;

/// What stands before the rows.
const DECLARED: &str = "%source\nmachine m domain D = 0 to 9 controlled x : D ";

/// Sources at a limit, and just past it. A line holds what `compile` answers to the one, a line of its report or a refusal, and to the other; a
/// number; what stands first, where `#` is that number; two texts that are repeated so many times, with what stands between them; and the end. The source that needs
/// more has the next number.
///
/// The bound on the ticks before a round can't be passed by code without loops: it is at most twice the words of ROM and two, which are too many first.
/// Nor can RAM be full in an image: that many places weigh more words than ROM has. A source that needs all of RAM is refused for the words, with one binder more for the bytes.
const LIMITS: &str = "\
registers 16|refused 304 17|15|rule let k = |( 1 + |1| )| in skip end
registers 16|refused 304 17|14|rule x := |min ( 1 , |1| )|
registers 16|refused 304 17|14|rule if ( 1 = |( 1 - |1| )| ) then skip end
registers 16|refused 304 17|15|controlled g ( D , D ) : D rule let k = |g ( 1 , |1| )| in skip end
registers 16|refused 304 17|14|controlled g ( D , D ) : D rule g ( 1 , |g ( 1 , |1| )| ) := 1
in 255 q(255) 10 0|refused 305 257|255|domain Q = 0 to # input q ( Q ) : D rule skip|||
in 255 q(254) 10 0|refused 305 257|254|domain Q = 0 to # input p : D input q ( Q ) : D rule skip|||
out 255 q(255)|refused 305 257|255|domain Q = 0 to # output q ( Q ) : D rule skip|||
rom 65536|refused 302 65537|0|domain Big = 0 to 1127 domain Three = 0 to 2 |static c : D = [ 0 ] |||rule par forall i in Big do x := 7 end ; forall o in Three do skip end end
refused 302 524320|refused 301 262148|0|domain A = 0 to 16383 controlled a ( A ) : D domain B = 0 to 4095 controlled b ( B ) : D domain C = 0 to 1023 controlled c ( C ) : D domain E = 0 to 255 controlled e ( E ) : D domain F = 0 to 63 controlled f ( F ) : D domain G = 0 to 15 controlled g ( G ) : D domain H = 0 to 1 controlled h ( H ) : D controlled i : D rule |forall k in D do |skip| end|";

/// Sources that need too much of more than one thing, with the refusal that comes first; and one that needs more than is counted.
const ORDER: &str = "\
207 2 29: domain Q = 0 to 256 input q ( Q ) : D rule x := 10
304 17: domain Q = 0 to 256 input q ( Q ) : D rule let k = ( 1 + ( 1 + ( 1 + ( 1 + ( 1 + ( 1 + ( 1 + ( 1 + ( 1 + ( 1 + ( 1 + ( 1 + ( 1 + ( 1 + ( 1 + ( 1 + 1 ) ) ) ) ) ) ) ) ) ) ) ) ) ) ) ) in skip end
305 257: domain Q = 0 to 256 domain R = 0 to 299 input q ( Q ) : D output r ( R ) : D rule skip
305 300: domain Q = 0 to 255 domain R = 0 to 299 input q ( Q ) : D output r ( R ) : D rule skip
305 257: domain Q = 0 to 256 domain A = 0 to 32767 input q ( Q ) : D controlled f ( A ) : D rule skip
301 393244: domain A = 0 to 32767 controlled f ( A ) : D rule skip
302 65602: domain A = 0 to 2047 domain B = 0 to 511 domain C = 0 to 127 domain E = 0 to 31 domain F = 0 to 7 controlled a ( A ) : D controlled b ( B ) : D controlled c ( C ) : D controlled e ( E ) : D controlled f ( F ) : D controlled g : D rule if ( 1 = 1 ) then skip end
302 4611686018427387904: domain H = 0 to 65535 rule forall i in H do forall j in H do forall k in H do forall l in H do skip end end end end";

/// Whether a text has this line.
fn has_line(text: &[u8], line: &str) -> bool {
    for found in str::from_utf8(text).unwrap_or("").lines() {
        if found == line {
            return true;
        }
    }
    false
}

/// `check` accepts the job; `compile` gives it this refusal, or a report with this line.
fn needs(rt: &impl Abort, alloc: Global, job: &str, answer: &str) -> Result<(), Fail> {
    is_answered(rt, alloc, &["check"], job, "ok")?;
    if let Some(refusal) = answer.strip_prefix("refused ") {
        return is_answered(rt, alloc, &["compile"], job, refusal);
    }
    let (status, held) = answered(alloc, "compile", job)?;
    assert_eq!(rt; status, Status::Done, "{job}");
    assert!(rt; has_line(&held, answer), "{answer}: {job}");
    Ok(())
}

/// A source of a line's fields behind the number, with this number.
fn source_of(alloc: Global, fields: &str, number: usize) -> Result<String, Fail> {
    let mut parts = fields.split('|');
    let first = parts.next().unwrap_or("");
    let left = parts.next().unwrap_or("").repeat(alloc, number)?;
    let between = parts.next().unwrap_or("");
    let right = parts.next().unwrap_or("").repeat(alloc, number)?;
    let end = parts.next().unwrap_or("");
    let number = format!(in alloc; "{number}")?;
    let first = first.replace(alloc, '#', number.as_str())?;
    Ok(format!(in alloc; "{DECLARED}{first}{left}{between}{right}{end}")?)
}

#[test]
fn sources_at_limits_and_past_them(rt: HostRuntime) -> Result<(), Fail> {
    let alloc = rt.alloc();
    for line in LIMITS.lines() {
        let (within, rest) = line.split_once('|').ok_or("a line has a bar")?;
        let (past, rest) = rest.split_once('|').ok_or("a line has two bars")?;
        let (number, fields) = rest.split_once('|').ok_or("a line has three bars")?;
        let number = number.parse().unwrap_or(0_usize);
        needs(&rt, alloc, &source_of(alloc, fields, number)?, within)?;
        needs(
            &rt,
            alloc,
            &source_of(alloc, fields, number.saturating_add(1))?,
            past,
        )?;
    }
    Ok(())
}

#[test]
fn sources_that_need_too_much_of_two_things(rt: HostRuntime) -> Result<(), Fail> {
    are_answered(&rt, rt.alloc(), &["compile"], DECLARED, ORDER)
}
