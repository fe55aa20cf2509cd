//! What an accepted job is answered.

use crate::run::Run;
use stab_io::Bytes;

/// The answer to an accepted job: a text; or the run of an image, whose text is written while it is played.
#[derive(Drop)]
pub enum Answer {
    Text(Bytes),
    Play(Run),
}
