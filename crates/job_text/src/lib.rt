//! The job that a text is for each mode, or the first of its lines that is at fault.
//!
//! A job is text of lines. A line whose first byte is `%` is a header, exactly the word and without blanks: `%set`, `%source`,
//! `%rom` or `%run`, each at most once and in this order. A section is the lines behind its header up to the next one. Which
//! sections a job has is the table of modes (`Mode`). In `%set` and `%run`, and before the first header, lines of blanks alone
//! and lines whose first byte is `#` are passed over; before the first header no other line may stand. The lines of `%source`
//! and `%rom`, and the lines of `%run` that begin with `at` or `value`, are read later, by who runs them.
//!
//! The other lines of `%set` and `%run` are read by their fields, the first of which is the key (`Key`). Those of `%set`:
//!
//! | line | what it says | where none does |
//! |---|---|---|
//! | `shape unrolled`, `shape looped` | what becomes of loops | unrolled |
//! | `layout words`, `layout packed` | how values lie in RAM | words |
//! | `revision N` | the machine, 1 or 2 | 1 |
//! | `nodes N` | the nodes of a ring, 3 to 64 | 64 |
//! | `states N` | their states, from the number of nodes to 256 | the number of nodes |
//! | `seed H` | the seed of the RAM of a ring | 0 |
//!
//! Those of `%run`:
//!
//! | line | what it says | where none does |
//! |---|---|---|
//! | `rounds N` | how many rounds run, 1 to 1,000,000 | 1 |
//! | `ticks N` | how many ticks run, 1 to 10,000,000 | 1 |
//! | `fill H` or `seed H` | all of RAM, registers and program counter at first | `fill 0` |
//! | `pc H` | the program counter | the base's |
//! | `reg R H` | a register, 1 to 31 | the base's |
//! | `ram H H` | the address of a word of RAM, a multiple of 4, and the word | the base's |
//! | `in H` | a reading | no readings |
//!
//! `N` and `R` are decimal numbers and `H` is 1 to 8 hexadecimal digits. `reg`, `ram` and `in` may stand often and take effect in
//! order; of `fill` and `seed` one may stand, once, and each other line at most once. `fill` sets every word of RAM, and `seed` the
//! words of RAM in address order, then x1 to x31, then the program counter, to the values of a generator; the other lines set
//! what they set on that, wherever they stand.
#![tactic(auto)]

mod draft;
mod fault;
mod hart;
mod job;
mod key;
mod mode;
mod nodes;
mod parts;
mod rows;
mod said;
mod start;
mod told;

pub use fault::{JobEnd, JobFault};
pub use job::{Job, read_job};
pub use key::Key;
pub use mode::{Header, Mode, Presence, Sections, presence_of};
pub use parts::{Part, Parts};
pub use said::{Layout, Said, Shape};
pub use start::Start;
pub use told::{Base, Edit};

#[cfg(test)]
mod tests;
