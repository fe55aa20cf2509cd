//! Jobs that are refused for their sections or for lines of `%set` and `%run`, in each mode, behind their answers. `~` stands
//! for a line feed, and bars part jobs.

use super::check_jobs::are_answered;
use std::test::Fail;

/// For `exec`: headers, and lines before the first one.
const EXEC_SECTIONS: &str = "\
401 1: 13~ | %rom\r | %~ | %Rom~ | % rom~ | %rom ~ | %rom\t~13~ | %source~13~ | \t%rom~13~ |  #~%rom~ | %roms~%rom~
401 2: ~ | # a job~ |  \t | %set~ | %rom~%rom~%run~ticks x~ticks 0~ | # a~%rom  | %rom~%rom~ | %rom~%set~ | %rom~%source~ | %rom~%~ | %rom~% run~ | %set~%set~%rom~ | %set~%source~%rom~ | %run~%rom~13~
401 3: %run~ticks 1~ | %set~%run~ | %run~# ticks 1 | # a\r~\r~13~ | %rom~13~%runs~ticks 1~ | %rom~%run~%run~ | %rom~%run~%set~
401 4: # a~~\t ~%sauce~ | %set~ ~%run | %set~%rom~%run~%rom~ | %rom~zz~~%rom~zz~
ok: %rom~ | %rom | \r~%rom\r~\r~%run\r~\r~ | # a~ ~%set~# b~ ~%rom~# c~ ~%run~# d~ ~";

/// For `exec`: lines that have no form, or say again what is said once.
const EXEC_FORMS: &str = "\
402 2: %set~shape unrolled~%rom~ | %set~layout words~%rom~ | %set~nodes 3~%rom~ | %set~states 9~%rom~ | %set~seed 1~%rom~ | %set~ticks 1~%rom~ | %set~revision~%rom~ | %set~revision 1 1~%rom~ | %set~revision x~%rom~ | %set~revision 01~%rom~ | %set~revision +1~%rom~ | %set~Revision 1~%rom~ | %set~1 revision~%rom~ | %set~revision1~%rom~ | %set~revision 1 # the first~%rom~ | %set~ # a~%rom~ | %set~revision 1000000000000000000~%rom~
402 3: %set~revision 1~revision 1~%rom~ | %set~revision 1~ revision 3~%rom~ | %rom~%run~tick 1~ | %rom~%run~ticks~ | %rom~%run~ticks 1 2~ | %rom~%run~ticks x~ | %rom~%run~ticks 01~ | %rom~%run~ticks -1~ | %rom~%run~ticks 1000000000000000000~ | %rom~%run~pc~ | %rom~%run~pc 1 2~ | %rom~%run~pc 100000000~ | %rom~%run~pc 0x1~ | %rom~%run~pc g~
402 3: %rom~%run~reg 1~ | %rom~%run~reg x1 1~ | %rom~%run~reg 1 g~ | %rom~%run~reg 1 1 1~ | %rom~%run~reg 01 1~ | %rom~%run~reg~ | %rom~%run~ram 10000000~ | %rom~%run~ram 10000000 1 1~ | %rom~%run~ram 10000000 g~ | %rom~%run~ram x 1~ | %rom~%run~ram~ | %rom~%run~in~ | %rom~%run~in x~ | %rom~%run~in 1 1~ | %rom~%run~in 123456789~ | %rom~%run~fill~ | %rom~%run~fill x~ | %rom~%run~fill 1 1~ | %rom~%run~seed~ | %rom~%run~seed x~ | %rom~%run~seed 1 1~
402 3: %rom~%run~rounds 1~ | %rom~%run~value x 1~ | %rom~%run~value~ | %rom~%run~shape unrolled~ | %rom~%run~revision 1~ | %rom~%run~nodes 3~ | %rom~%run~13~ | %rom~%run~+~ | %rom~%run~AT 1 pc 1~
402 4: %rom~%run~ticks 1~ticks 1~ | %rom~%run~pc 0~pc 0~ | %rom~%run~fill 0~fill 0~ | %rom~%run~fill 0~seed 0~ | %rom~%run~seed 0~fill 0~ | %rom~%run~seed 1~seed 1~ | %rom~%run~~\tvalue x 1~";

/// For `exec`: numbers out of range, which of two faults decides, and what is judged behind them.
const EXEC_RANGES: &str = "\
402 2: %set~x~ | %set~revision x~%sauce~
402 3: %rom~%run~ticks x~%rom~ticks 0~
403 2: %set~revision 0~ | %set~revision 0~%rom~ | %set~revision 3~%rom~ | %set~revision 999999999999999999~%rom~ | %set~revision 9~%sauce~
403 3: %rom~%run~ticks 0~ | %rom~%run~ticks 10000001~ | %rom~%run~ticks 999999999999999999~ | %rom~%run~reg 0 1~ | %rom~%run~reg 32 1~ | %rom~%run~reg 4294967297 1~ | %rom~%run~ram 10000002 1~ | %rom~%run~ram 0ffffffc 1~ | %rom~%run~ram 10040000 1~ | %rom~%run~ram 20000000 1~ | %rom~%run~ram 0 0~
403 5: \r~%rom\r~13\r~%run\r~ticks 0\r~ | %set~revision 2~%rom~%run~ram 10100000 1~
402 3: %rom~%run~reg 32 x~ | %rom~%run~ram 3 g~ | %rom~%run~ticks x~ticks 0~
403 3: %rom~%run~ticks 0~ticks 0~ | %rom~%run~ticks 0~ticks x~%run~ | %rom~%run~ram 1 1~ticks x~
402 4: %rom~%run~ticks 1~ticks 0~ | %rom~zz~%run~ticks x~
403 4: %set~revision 1~%run~ticks 0~
501 2: %rom~zz~%run~ticks 1~
403 4: %rom~zz~%run~ticks 0~
501 2: %rom~zz~%run~at 1 pc 1~ | %rom~zz~%run~at~
411 4: %rom~%run~ticks 1~\tat~
412 3: %rom~%run~at 1 reg 0 1~
413 4: %rom~%run~at 2 pc 1~at 1 pc 1~
901: %set~revision 2~%rom~zz~ | %set~revision 2~%rom~%run~ram 100ffffc 1~
ok: %rom~%run~ticks 10000000~pc ffffffff~ | %set~\trevision  1 ~%rom~%run~ reg 1 FFFFFFFF~reg 31 0~ram 10000000 1~ram 1003fffc 1~ram 10000000 0~in 0~in 0~ | %rom~%run~seed ffffffff~ | %rom~%run~fill 00000000~#at 1~";

/// For `model`, behind a source of one line.
const MODEL: &str = "\
402 4: ticks 1~ | pc 0~ | reg 1 1~ | ram 10000000 1~ | fill 0~ | seed 0~ | at 1 pc 1~ | shape unrolled~ | revision 1~ | rounds~ | rounds 1 1~ | rounds x~ | rounds 01~ | rounds 1000000000000000000~ | in~ | in x~ | in 123456789~ | in 1 1~ | x~
402 5: rounds 1~rounds 1~ | rounds 1~rounds 0~ | # a~rounds -1~ | value~at~
403 4: rounds 0~ | rounds 1000001~ | rounds 0~%run~
401 4: %run~ | %set~ | %source~ | %rom~
411 4: value x 1~
411 5: in 1~value~ | rounds 2~ value x 1 2~
ok: rounds 1000~ | ~ in ffffffff~rounds 2~in 0~# c~ \t~";

/// For `run`, behind a source of one line.
const RUN: &str = "\
402 4: ticks 1~ | value x 1~ | rounds 1 1~
402 6: at 1 pc 1~rounds 1~rounds~
402 5: rounds 1~rounds 1~ | fill 0~seed 0~
403 4: rounds 0~ | rounds 1000001~ | ram 10000002 1~ | reg 0 1~
411 4: at~ | at 1~ | at x pc 1~ | at 01 pc 1~ | at 1 pc~ | at 1 pc g~ | at 1 pc 1 1~ | at 1 reg 1~ | at 1 sp 1~ | at 1 ram 10000000~ | at 1 set g 1~ | at 1 tick~ | at 1 reg x 1~ | at 1 reg 01 1~ | at 1 reg 1 g~ | at 1 ram g 1~ | at 1 ram 10000000 g~ | at 1 ram 10000000 1 1~ | at 1 set 10000000~ | at 1 set 10000000 g~
411 4: at 10000001 pc g~ | at 10000001 reg 99 g~ | at 1 reg 99 x~ | at 10000001 ram 3 g~ | at 10000001 set 3~
412 4: at 10000001 pc 1~ | at 1 reg 0 1~ | at 1 reg 32 1~ | at 1 ram 10000002 1~ | at 1 set 20000000 1~ | at 1 ram 10040000 1~ | at 1 reg 0 1~at~ | at 10000001 reg 1 1~ | at 10000001 ram 10000000 1~ | at 10000001 set 10000000 1~ | at 1 set 10000001 1~ | at 1 ram 0 1~ | at 1 reg 999999999999999999 1~
413 5: at 2 pc 1~at 1 reg 1 1~ | at 2 reg 1 1~at 1 ram 10000000 1~ | at 2 set 10000000 1~at 1 set 10000000 1~ | at 2 pc 1~at 1 pc 1~ | at 2 pc 1~at 1 pc 1~at~
411 5: at 2 pc 1~at 1 pc~
412 5: at 2 pc 1~at 1 reg 0 1~
306 64000137: rounds 1000000~at 7 pc 1~
306 10000066: rounds 154~at 9990080 pc 1~
ok: ~ | rounds 2~at 0 pc 1~at 0 ram 10000000 ffffffff~at 9 reg 31 1~# c~\tat 9 set 10000000 7~";

/// For `run`: what is judged before what.
const RUN_ORDER: &str = "\
207 2 16: %source~machine m domain D = 0 to 9 controlled x : D rule x := 10~%run~at~
901: %set~shape looped~%source~machine m rule skip~%run~at~
403 7: %source~machine counter~domain D = 0 to 9~controlled x : D~rule x := cond((x = 9), 0, min((x + 1), 9))~%run~rounds 0~at 1 reg 0 1~
412 8: %source~machine counter~domain D = 0 to 9~controlled x : D~rule x := cond((x = 9), 0, min((x + 1), 9))~%run~rounds 1000000~at 1 reg 0 1~
413 9: %source~machine counter~domain D = 0 to 9~controlled x : D~rule x := cond((x = 9), 0, min((x + 1), 9))~%run~rounds 1000000~at 9 pc 1~at 8 pc 1~
306 234000470: %source~machine counter~domain D = 0 to 9~controlled x : D~rule x := cond((x = 9), 0, min((x + 1), 9))~%run~rounds 1000000~
306 234000479: %source~machine counter~domain D = 0 to 9~controlled x : D~rule x := cond((x = 9), 0, min((x + 1), 9))~%run~rounds 1000000~at 9 pc 1~";

/// For `compile`, behind the header `%set`.
const COMPILE: &str = "\
401 2: %set~ | %run~ | %rom~ | %sources~
401 3: ~ | # a | shape unrolled | shape unrolled~%run~
401 4: %source~machine m rule skip~%run~ | ~%source~%source~
402 2: shape~ | shape round~ | shape unrolled looped~ | layout~ | layout round~ | layout words words~ | Shape unrolled~ | unrolled~ | nodes 3~ | states 3~ | seed 1~ | rounds 1~ | ticks 1~ | fill 0~ | pc 0~ | revision~ | revision x~ | x~%sauce~
402 3: shape unrolled~shape looped~ | layout words~layout words~ | revision 1~revision 2~ | revision 1~revision 3~
403 2: revision 0~ | revision 3~x~ | revision 4294967297~%source~machine m rule skip~
901: shape looped~%source~machine m rule skip~ | layout packed~%source~ | revision 2~%source~machine m rule x := 1~
103: shape unrolled~%source~ | %source~machine~
ok: %source~machine m rule skip~ | ~# a~ shape  unrolled\t~layout words~\trevision 1\r~%source~machine m rule skip~";

/// For `asm`, `list`, and `hex` and `elf`.
const ASM: &str = "\
401 1: nop~ | %rom~13~ | %run~
401 2: ~ | %source~%run~ | %source~%rom~ | %source~%set~ | %set~%rom~
402 2: %set~shape unrolled~%source~ | %set~ticks 1~
403 2: %set~revision 3~%source~
901: %set~revision 2~%source~ecall~
511 4: %set~revision 1~%source~1~
ok: %source~ | %set~%source~ecall~";

const LIST: &str = "\
401 1: 13~ | %source~ | %run~
401 2: ~ | %rom~%run~ticks 1~ | %set~%source~
402 2: %set~layout words~%rom~
402 3: %set~revision 1~revision 1~
403 2: %set~revision 0~
901: %set~revision 2~%rom~13~
501 4: %set~revision 1~%rom~g~
ok: %rom~ | # a~%set~ ~%rom~13~";

const FILES: &str = "\
401 1: 13~ | %source~ | %set~%rom~13~ | %run~
401 2: ~ | %rom~%run~ | %rom~%rom~
501 2: %rom~g~
ok: %rom~ | # a~~%rom~13~";

/// For `check`.
const CHECK: &str = "\
401 1: machine m~rule skip~ | %set~%source~machine m rule skip~ | %run~ | %rom~ | %source\r | %sources~machine m rule skip~
401 2: ~ | # a job~ | %source~%run~ | %source~%source~
401 3: %source~machine m // a comment~% no comment~rule skip~ | ~\t
103: %source | %source~ | # a~%source~rule~";

#[test]
fn jobs_at_fault(rt: HostRuntime) -> Result<(), Fail> {
    let alloc = rt.alloc();
    for (mode, front, rows) in [
        ("exec", "", EXEC_SECTIONS),
        ("exec", "", EXEC_FORMS),
        ("exec", "", EXEC_RANGES),
        ("model", "%source~machine m rule skip~%run~", MODEL),
        ("run", "%source~machine m rule skip~%run~", RUN),
        ("run", "", RUN_ORDER),
        ("compile", "%set~", COMPILE),
        ("asm", "", ASM),
        ("list", "", LIST),
        ("hex", "", FILES),
        ("elf", "", FILES),
        ("check", "", CHECK),
    ] {
        are_answered(&rt, alloc, &[mode], front, rows)?;
    }
    Ok(())
}
