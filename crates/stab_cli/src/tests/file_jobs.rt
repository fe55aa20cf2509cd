//! Jobs for `hex` and `elf`, and files for `unhex` and `unelf`, with their answers. Some files are as srec_cat, objcopy and linkers write them.

use super::check_jobs::are_answered;
use super::{answered, run};
use crate::status::Status;
use std::alloc::{AllocError, Global};
use std::process::Abort;
use std::test::Fail;

/// The words of the report in the first session.
const SEVEN_WORDS: &str = "00000337\n00730313\n10000ab7\n006aa023\nff1ff06f\n";

/// Their Intel HEX file, as objcopy writes it but for its carriage returns.
const SEVEN_HEX: &str =
    ":100000003703000013037300B70A001023A06A002F\n:040010006FF01FFF6F\n:00000001FF\n";

/// Their ELF file, as a linker wrote it for one segment, without its sections (`ld.lld -n`, `llvm-objcopy --strip-sections`).
const SEVEN_ELF: &[u8] = b"\
\x7f\x45\x4c\x46\x01\x01\x01\x00\x00\x00\x00\x00\x00\x00\x00\x00\
\x02\x00\xf3\x00\x01\x00\x00\x00\x00\x00\x00\x00\x34\x00\x00\x00\
\x00\x00\x00\x00\x00\x00\x00\x00\x34\x00\x20\x00\x01\x00\x00\x00\
\x00\x00\x00\x00\x01\x00\x00\x00\x54\x00\x00\x00\x00\x00\x00\x00\
\x00\x00\x00\x00\x14\x00\x00\x00\x14\x00\x00\x00\x05\x00\x00\x00\
\x04\x00\x00\x00\x37\x03\x00\x00\x13\x03\x73\x00\xb7\x0a\x00\x10\
\x23\xa0\x6a\x00\x6f\xf0\x1f\xff";

/// The first bytes of that file with its sections, as the linker wrote it.
const LINKED_ELF: &[u8] = b"\
\x7f\x45\x4c\x46\x01\x01\x01\x00\x00\x00\x00\x00\x00\x00\x00\x00\
\x02\x00\xf3\x00\x01\x00\x00\x00\x00\x00\x00\x00\x34\x00\x00\x00\
\xc0\x00\x00\x00\x00\x00\x00\x00\x34\x00\x20\x00\x01\x00\x28\x00\
\x06\x00\x04\x00\x01\x00\x00\x00\x54\x00\x00\x00\x00\x00\x00\x00\
\x00\x00\x00\x00\x14\x00\x00\x00\x14\x00\x00\x00\x05\x00\x00\x00\
\x04\x00\x00\x00\x37\x03\x00\x00\x13\x03\x73\x00\xb7\x0a\x00\x10\
\x23\xa0\x6a\x00\x6f\xf0\x1f\xff";

/// The texts of words, and Intel HEX files that have them, parted by bars. `~` stands for a line feed. In the first row the files are of srec_cat, with
/// addresses of four bytes, of three, and with a start address, and of objcopy.
const HEX_FILES: &str = "\
00000337~00730313~10000ab7~006aa023~ff1ff06f~: :020000040000FA~:140000003703000013037300B70A001023A06A006FF01FFFAE~:00000001FF~ | :020000020000FC~:140000003703000013037300B70A001023A06A006FF01FFFAE~:00000001FF~ | :020000040000FA~:140000003703000013037300B70A001023A06A006FF01FFFAE~:0400000500000000F7~:00000001FF~ | :100000003703000013037300B70A001023A06A002F\r~:040010006FF01FFF6F\r~:00000001FF\r~
00000013~: :0400000013000000e9~:00000001ff |  \t~~:0400000013000000E9~~\t~:00000001FF~ ~
: :00000001FF | :00123400BA~:00000001FF~ | :020000040004F6~:0000000000~:00000001FF
04030201~00000005~: :050000000102030405EC~:00000001FF
00000000~00000b00~: :010005000BEF~:00000001FF
00000201~00000003~: :0100010002FC~:0100040003F8~:0100000001FE~:00000001FF
00000000~00000000~00000000~00000000~00000007~: :020000020001FB~:0100000007F8~:00000001FF
00000009~00000000~00000000~00000000~00000007~: :020000020001FB~:0100000007F8~:02FFFF040000FC~:0100000009F6~:00000001FF
00000001~: :040000030000FFF00A~:0400070500000004EC~:0100000001FE~:00000001FF";

/// Refusals, and Intel HEX files that get them. Of those that are refused with 522 two are of srec_cat and objcopy.
const FAULTY_HEX_FILES: &str = "\
521 1: :0400000013000000EA~:00000001FF | 0400000013000000E9~:00000001FF |  :0400000013000000E9~:00000001FF | :0400000013000000E~:00000001FF
521 1: :0400000013000000E9 ~:00000001FF | :0400000013000000G9~:00000001FF | :04000000130000E9~:00000001FF | :0300000013000000EA~:00000001FF
521 1: :00000006FA~:00000001FF | :0100000100FE | :0100000200FD~:00000001FF | :03000004000001F8~:00000001FF | :020000030000FB~:00000001FF
521 1: :050000050000000000F6~:00000001FF | : | S00600004844521B~S9030000FC~
521 2: :00000001FF~:0100000001FF
521 3: ~:00000001FF~# none
522 2: :020000040004F6~:0100000001FE~:00000001FF | :020000040003F7~:02FFFF000102FD~:00000001FF | :02000002FFFFFE~:01FFFF000100~:00000001FF
522 2: :020000040003F7~:14FFF8003703000013037300B70A001023A06A006FF01FFFB7~:00000001FF~ | :02000004FFFFFC~:02FFFF000102FD~:00000001FF
522 2: :0200000480007A\r~:100000003703000013037300B70A001023A06A002F\r~:040010006FF01FFF6F\r~:040000058000000077\r~:00000001FF\r~
522 3: :020000040004F6~:00000001FF~:0100000001FE | :020000023FFFBE~:01000F0009E7~:02000F000102EC~:00000001FF
523 2: :020000000102FB~:0100010003FB~:00000001FF
523 3: :020010000102EB~:020000020001FB~:0100010003FB~:00000001FF | :0100000001FE~:00000001FF~:0100000001FE
524 1: 
524 2: :0400000013000000e9 | :00000001FF~:00000001FF | :00000001FF~:020000040001F9~:00000009F7
524 3: :0400000013000000E9~~ | :00000001FF~~:0100000001FE";

#[test]
fn intel_hex_files(rt: HostRuntime) -> Result<(), Fail> {
    let alloc = rt.alloc();
    for row in HEX_FILES.lines() {
        let row = row.replace(alloc, '~', "\n")?;
        let (text, files) = row.split_once(": ").ok_or("a row has a colon")?;
        for file in files.split(" | ") {
            let (status, held) = answered(alloc, "unhex", file)?;
            assert_eq!(rt; held.as_slice(), text.as_bytes(), "{file}");
            assert_eq!(rt; status, Status::Done, "{file}");
        }
    }
    are_answered(&rt, alloc, &["unhex"], "", FAULTY_HEX_FILES)
}

#[test]
fn files_that_are_written(rt: HostRuntime) -> Result<(), Fail> {
    let alloc = rt.alloc();
    for (mode, words, file) in [
        (
            "hex",
            "13\n",
            b":0400000013000000E9\n:00000001FF\n".as_slice(),
        ),
        ("hex", "", b":00000001FF\n".as_slice()),
        ("hex", SEVEN_WORDS, SEVEN_HEX.as_bytes()),
        ("elf", SEVEN_WORDS, SEVEN_ELF),
    ] {
        let (status, held) = answered(alloc, mode, &format!(in alloc; "%rom\n{words}")?)?;
        assert_eq!(rt; held.as_slice(), file, "{mode} {words}");
        assert_eq!(rt; status, Status::Done, "{mode} {words}");
    }
    for mode in ["hex", "elf"] {
        are_answered(&rt, alloc, &[mode], "%rom~", "501 4: 13~~6g~")?;
    }
    Ok(())
}

/// The first mode writes a file of these words that ends like this, and the second reads it back.
fn is_read_back(
    rt: &impl Abort,
    alloc: Global,
    modes: [&str; 2],
    words: &str,
    end: &str,
) -> Result<(), Fail> {
    let [mode, back] = modes;
    let job = format!(in alloc; "%rom\n{words}")?;
    let (_, file) = answered(alloc, mode, &job)?;
    assert!(rt; file.as_slice().ends_with(end.as_bytes()), "{mode}");
    let (status, held) = run(alloc, back, file, 4096, 0, 0)?;
    assert_eq!(rt; status, Status::Done, "{back}");
    assert!(rt; held.as_slice() == words.as_bytes(), "{back}");
    Ok(())
}

#[test]
fn images_through_files_and_back(rt: HostRuntime) -> Result<(), Fail> {
    let alloc = rt.alloc();
    for (count, end) in [
        (
            16_384,
            "\n:10FFF0000000000000000000000000000000000001\n:00000001FF\n",
        ),
        (
            16_385,
            "\n:020000040001F9\n:0400000000000000FC\n:00000001FF\n",
        ),
        (
            65_536,
            "\n:10FFF0000000000000000000000000000000000001\n:00000001FF\n",
        ),
    ] {
        let words = "00000000\n".repeat(alloc, count)?;
        is_read_back(&rt, alloc, ["hex", "unhex"], &words, end)?;
        is_read_back(&rt, alloc, ["elf", "unelf"], &words, "\0\0\0\0")?;
    }
    is_read_back(&rt, alloc, ["hex", "unhex"], SEVEN_WORDS, SEVEN_HEX)?;
    is_read_back(&rt, alloc, ["elf", "unelf"], SEVEN_WORDS, "")
}

/// What `unelf` writes, and for which changes of the ELF file of the word 13: a length to which it is cut, a place and its byte there. `~` stands for a
/// line feed.
const CHANGED_ELF_FILES: &str = "\
00000013~: 88 0 127 | 88 68 4
ff000013~: 88 87 255
refused 531 87~: 87 0 127
refused 531 84~: 84 0 127
refused 531 70~: 70 0 127 | 88 70 4
refused 531 0~: 0 0 0 | 88 0 126
refused 531 4~: 88 4 2
refused 531 5~: 88 5 2
refused 531 16~: 88 16 1
refused 531 18~: 88 18 62
refused 531 24~: 88 24 1
refused 531 36~: 88 36 4
refused 531 68~: 88 68 6
refused 531 71~: 88 71 1
refused 531 72~: 88 68 8 | 88 72 0
refused 531 73~: 88 69 4
refused 531 74~: 88 70 3
refused 531 83~: 88 83 1";

/// What `unelf` writes for the ELF file of the word 13 with this change.
fn changed(alloc: Global, change: &str) -> Result<Vec<u8>, AllocError> {
    let mut numbers = change.split(' ');
    let len = numbers.next().unwrap_or("").parse().unwrap_or(0_usize);
    let place = numbers.next().unwrap_or("").parse().unwrap_or(0_usize);
    let byte = numbers.next().unwrap_or("").parse().unwrap_or(0_u8);
    let (_, mut file) = answered(alloc, "elf", "%rom\n00000013\n")?;
    file.truncate(len);
    if place < file.len() {
        file[place] = byte;
    }
    Ok(run(alloc, "unelf", file, 4096, 0, 0)?.1)
}

#[test]
fn elf_files_that_are_changed(rt: HostRuntime) -> Result<(), Fail> {
    let alloc = rt.alloc();
    for row in CHANGED_ELF_FILES.lines() {
        let row = row.replace(alloc, '~', "\n")?;
        let (text, changes) = row.split_once(": ").ok_or("a row has a colon")?;
        for change in changes.split(" | ") {
            let held = changed(alloc, change)?;
            assert_eq!(rt; held.as_slice(), text.as_bytes(), "{change}");
        }
    }
    Ok(())
}

#[test]
fn elf_files(rt: HostRuntime) -> Result<(), Fail> {
    let alloc = rt.alloc();
    let mut longer = SEVEN_ELF.to_vec(alloc)?;
    longer.push(0)?;
    for (file, text) in [
        (SEVEN_ELF, SEVEN_WORDS),
        (LINKED_ELF, "refused 531 32\n"),
        (SEVEN_WORDS.as_bytes(), "refused 531 0\n"),
        (longer.as_slice(), "refused 531 104\n"),
    ] {
        let (_, held) = run(alloc, "unelf", file.to_vec(alloc)?, 4096, 0, 0)?;
        assert_eq!(rt; held.as_slice(), text.as_bytes());
    }
    Ok(())
}
