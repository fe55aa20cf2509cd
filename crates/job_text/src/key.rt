//! The words with which lines begin, and in which modes each may stand.

ghost use Rattle.std.specs.Prelude.{◌≡◌};
ghost use Rattle.job_text.specs.Keys.{allowed, allowed_key, builds, is_exec, is_make, is_model, key_of, run_key_of, runs_hart, runs_rounds, set_key_of, takes_readings};

use crate::mode::{Header, Mode};

/// What a line of `%set` or `%run` is about: its first field.
#[derive(Clone, Copy, Debug, PartialEq, Eq)]
pub enum Key {
    Shape,
    Layout,
    Revision,
    Nodes,
    States,
    Seed,
    Rounds,
    Ticks,
    Pc,
    Register,
    Fill,
    RamSeed,
    Ram,
    Reading,
    At,
    Value,
}

/// The key of a line of `%set` that begins with this word.
#[tactic(auto, unfolding(crate::specs::Keys::set_key_of))]
fn set_key_of(word: &[u8]) -> Option<Key>
    ensures { result ≡ set_key_of word.now }
{
    if word == b"shape".as_slice() {
        Some(Key::Shape)
    } else if word == b"layout".as_slice() {
        Some(Key::Layout)
    } else if word == b"revision".as_slice() {
        Some(Key::Revision)
    } else if word == b"nodes".as_slice() {
        Some(Key::Nodes)
    } else if word == b"states".as_slice() {
        Some(Key::States)
    } else if word == b"seed".as_slice() {
        Some(Key::Seed)
    } else {
        None
    }
}

/// The key of a line of `%run` that begins with this word.
#[tactic(auto, unfolding(crate::specs::Keys::run_key_of))]
fn run_key_of(word: &[u8]) -> Option<Key>
    ensures { result ≡ run_key_of word.now }
{
    if word == b"rounds".as_slice() {
        Some(Key::Rounds)
    } else if word == b"ticks".as_slice() {
        Some(Key::Ticks)
    } else if word == b"pc".as_slice() {
        Some(Key::Pc)
    } else if word == b"reg".as_slice() {
        Some(Key::Register)
    } else if word == b"fill".as_slice() {
        Some(Key::Fill)
    } else if word == b"seed".as_slice() {
        Some(Key::RamSeed)
    } else if word == b"ram".as_slice() {
        Some(Key::Ram)
    } else if word == b"in".as_slice() {
        Some(Key::Reading)
    } else if word == b"at".as_slice() {
        Some(Key::At)
    } else if word == b"value".as_slice() {
        Some(Key::Value)
    } else {
        None
    }
}

/// The key of a line of this section that begins with this word.
fn key_of(header: Header, word: &[u8]) -> Option<Key>
    ensures { result ≡ key_of header word.now }
{
    match header {
        Header::Set => set_key_of(word),
        Header::Source => None,
        Header::Rom => None,
        Header::Run => run_key_of(word),
    }
}

/// Whether the mode compiles a program by settings of its job.
fn builds(mode: Mode) -> bool
    ensures { result ≡ builds mode }
{
    matches!(mode, Mode::Compile | Mode::Run | Mode::Make)
}

/// Whether the mode makes a ring.
fn is_make(mode: Mode) -> bool
    ensures { result ≡ is_make mode }
{
    matches!(mode, Mode::Make)
}

/// Whether the mode runs rounds.
fn runs_rounds(mode: Mode) -> bool
    ensures { result ≡ runs_rounds mode }
{
    matches!(mode, Mode::Run | Mode::Model)
}

/// Whether the mode runs a given number of ticks.
fn is_exec(mode: Mode) -> bool
    ensures { result ≡ is_exec mode }
{
    matches!(mode, Mode::Exec)
}

/// Whether the mode runs a hart whose start the job describes.
pub(crate) fn runs_hart(mode: Mode) -> bool
    ensures { result ≡ runs_hart mode }
{
    matches!(mode, Mode::Run | Mode::Exec)
}

/// Whether the mode takes readings.
fn takes_readings(mode: Mode) -> bool
    ensures { result ≡ takes_readings mode }
{
    matches!(mode, Mode::Run | Mode::Exec | Mode::Model)
}

/// Whether the mode plays the model.
fn is_model(mode: Mode) -> bool
    ensures { result ≡ is_model mode }
{
    matches!(mode, Mode::Model)
}

/// Whether a line with this key may stand in a job of this mode.
fn allowed(mode: Mode, key: Key) -> bool
    ensures { result ≡ allowed mode key }
{
    match key {
        Key::Shape => builds(mode),
        Key::Layout => builds(mode),
        Key::Revision => true,
        Key::Nodes => is_make(mode),
        Key::States => is_make(mode),
        Key::Seed => is_make(mode),
        Key::Rounds => runs_rounds(mode),
        Key::Ticks => is_exec(mode),
        Key::Pc => runs_hart(mode),
        Key::Register => runs_hart(mode),
        Key::Fill => runs_hart(mode),
        Key::RamSeed => runs_hart(mode),
        Key::Ram => runs_hart(mode),
        Key::Reading => takes_readings(mode),
        Key::At => runs_hart(mode),
        Key::Value => is_model(mode),
    }
}

/// The key of a line that begins with this word, where it may stand in this section of a job of this mode.
#[tactic(auto, unfolding(crate::specs::Keys::allowed_key))]
pub(crate) fn allowed_key(mode: Mode, header: Header, word: &[u8]) -> Option<Key>
    ensures { result ≡ allowed_key mode header word.now }
{
    match key_of(header, word) {
        Some(key) if allowed(mode, key) => Some(key),
        Some(_) => None,
        None => None,
    }
}
