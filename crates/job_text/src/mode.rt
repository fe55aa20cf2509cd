//! The modes, and which sections a job of each has.

ghost use Rattle.std.specs.Prelude.{◌≡◌};
ghost use Rattle.job_text.specs.Headers.{comes_after, header_of, is_allowed, is_needed, opened_by, presence_of, rank, sections_of};

/// What the program does with its input: a job, or for `unhex` and `unelf` a file, which has no sections.
#[derive(Clone, Copy, Debug, PartialEq, Eq)]
pub enum Mode {
    Check,
    Compile,
    Run,
    Model,
    Exec,
    Asm,
    List,
    Make,
    Hex,
    Unhex,
    Elf,
    Unelf,
}

/// The word that begins a section, in the order in which sections stand.
#[derive(Clone, Copy, Debug, PartialEq, Eq)]
pub enum Header {
    Set,
    Source,
    Rom,
    Run,
}

/// Whether a job has a section.
#[derive(Clone, Copy, Debug, PartialEq, Eq)]
pub enum Presence {
    No,
    May,
    Needed,
}

/// Which sections the jobs of a mode have.
#[derive(Clone, Copy, Debug)]
pub struct Sections {
    pub set: Presence,
    pub source: Presence,
    pub rom: Presence,
    pub run: Presence,
}

/// One row of the table of modes.
fn row(set: Presence, source: Presence, run: Presence, rom: Presence) -> Sections
    ensures { result ≡ record { set = set; source = source; rom = rom; run = run } }
{
    Sections {
        set,
        source,
        rom,
        run,
    }
}

/// The table of modes.
fn sections_of(mode: Mode) -> Sections
    ensures { result ≡ sections_of mode }
{
    match mode {
        Mode::Check => row(Presence::No, Presence::Needed, Presence::No, Presence::No),
        Mode::Compile => row(Presence::May, Presence::Needed, Presence::No, Presence::No),
        Mode::Run => row(Presence::May, Presence::Needed, Presence::May, Presence::No),
        Mode::Model => row(Presence::No, Presence::Needed, Presence::May, Presence::No),
        Mode::Exec => row(Presence::May, Presence::No, Presence::May, Presence::Needed),
        Mode::Asm => row(Presence::May, Presence::Needed, Presence::No, Presence::No),
        Mode::List => row(Presence::May, Presence::No, Presence::No, Presence::Needed),
        Mode::Make => row(Presence::May, Presence::No, Presence::No, Presence::No),
        Mode::Hex => row(Presence::No, Presence::No, Presence::No, Presence::Needed),
        Mode::Unhex => row(Presence::No, Presence::No, Presence::No, Presence::No),
        Mode::Elf => row(Presence::No, Presence::No, Presence::No, Presence::Needed),
        Mode::Unelf => row(Presence::No, Presence::No, Presence::No, Presence::No),
    }
}

/// Whether a job of this mode has this section.
pub fn presence_of(mode: Mode, header: Header) -> Presence
    ensures { result ≡ presence_of mode header }
{
    let sections = sections_of(mode);
    match header {
        Header::Set => sections.set,
        Header::Source => sections.source,
        Header::Rom => sections.rom,
        Header::Run => sections.run,
    }
}

/// Whether a section may stand in a job of this mode.
fn is_allowed(mode: Mode, header: Header) -> bool
    ensures { result ≡ is_allowed (presence_of mode header) }
{
    match presence_of(mode, header) {
        Presence::No => false,
        Presence::May => true,
        Presence::Needed => true,
    }
}

/// Whether a section must stand in a job of this mode.
pub(crate) fn is_needed(mode: Mode, header: Header) -> bool
    ensures { result ≡ is_needed (presence_of mode header) }
{
    match presence_of(mode, header) {
        Presence::No => false,
        Presence::May => false,
        Presence::Needed => true,
    }
}

/// The header that a line is.
#[tactic(auto, unfolding(crate::specs::Headers::header_of))]
fn header_of(line: &[u8]) -> Option<Header>
    ensures { result ≡ header_of line.now }
{
    if line == b"%set".as_slice() {
        Some(Header::Set)
    } else if line == b"%source".as_slice() {
        Some(Header::Source)
    } else if line == b"%rom".as_slice() {
        Some(Header::Rom)
    } else if line == b"%run".as_slice() {
        Some(Header::Run)
    } else {
        None
    }
}

/// The place of a section among the others.
fn rank(header: Header) -> u32
    ensures { result ≡ rank header }
{
    match header {
        Header::Set => 0,
        Header::Source => 1,
        Header::Rom => 2,
        Header::Run => 3,
    }
}

/// Whether a section may stand behind the last one.
fn comes_after(last: Option<Header>, header: Header) -> bool
    ensures { result ≡ comes_after last header }
{
    match last {
        None => true,
        Some(last) => rank(last) < rank(header),
    }
}

/// The header that a line is, where its section may begin here in a job of this mode.
#[tactic(auto, unfolding(crate::specs::Headers::opened_by))]
pub(crate) fn opened_by(mode: Mode, last: Option<Header>, line: &[u8]) -> Option<Header>
    ensures { result ≡ opened_by mode last line.now }
{
    match header_of(line) {
        Some(header) if is_allowed(mode, header) && comes_after(last, header) => Some(header),
        Some(_) => None,
        None => None,
    }
}

impl Mode {
    ghost use Rattle.job_text.specs.Modes.{mode_named};

    /// The mode of this name, none for another word. Takes no memory.
    #[tactic(auto, unfolding(crate::specs::Modes::mode_named))]
    pub fn of(word: &str) -> Option<Mode>
        ensures { result ≡ mode_named word.now }
    {
        match word {
            "check" => Some(Mode::Check),
            "compile" => Some(Mode::Compile),
            "run" => Some(Mode::Run),
            "model" => Some(Mode::Model),
            "exec" => Some(Mode::Exec),
            "asm" => Some(Mode::Asm),
            "list" => Some(Mode::List),
            "make" => Some(Mode::Make),
            "hex" => Some(Mode::Hex),
            "unhex" => Some(Mode::Unhex),
            "elf" => Some(Mode::Elf),
            "unelf" => Some(Mode::Unelf),
            _ => None,
        }
    }
}
