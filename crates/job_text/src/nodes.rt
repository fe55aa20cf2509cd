//! The number of nodes of a job, wherever it stands in the section `%set`: the number of states is judged by it, also before it is said.

ghost use Rattle.std.specs.Prelude.{◌≡◌, IfSome};
ghost use Rattle.text_core.specs.Fields.{fields};
ghost use Rattle.text_core.specs.Lines.{lines};
ghost use Rattle.job_text.specs.JobFaults.{first_nodes, good_nodes, nodes_in, section_nodes};
ghost use Rattle.job_text.specs.Ranges.{IsBetween};

use crate::draft::is_header;
use text_core::{next_field, next_line, read_dec};

/// The number of nodes where no line says one.
pub(crate) const DEFAULT_NODES: u32 = 64;

/// A number of nodes, where it is in range.
fn good_nodes(number: Option<u64>) -> Option<u32>
    ensures value { result ≡ good_nodes number }
    ensures range { IfSome result (λ nodes. IsBetween 3 64 nodes) }
{
    match number {
        Some(number) if 3 <= number && number <= 64 => Some(number as u32),
        _ => None,
    }
}

/// The number of nodes that a line says, where it is in range.
fn nodes_in(line: &[u8]) -> Option<u32>
    ensures value { result ≡ nodes_in (fields line.now) }
    ensures range { IfSome result (λ nodes. IsBetween 3 64 nodes) }
{
    let (key, rest) = next_field(line)?;
    let (number, rest) = next_field(rest)?;
    if next_field(rest).is_some() {
        return None;
    }
    if key == b"nodes".as_slice() {
        good_nodes(read_dec(number))
    } else {
        None
    }
}

/// The first number of nodes in range that the lines of a section say, and the default where there is none.
fn section_nodes(text: &[u8]) -> u32
    ensures value { result ≡ section_nodes (lines text.now) }
    ensures range { IsBetween 3 64 result }
{
    let mut rest = text;
    'seeking: while let Some((line, next)) = next_line(rest) {
        if is_header(line) {
            return DEFAULT_NODES;
        }
        if let Some(nodes) = nodes_in(line) {
            return nodes;
        }
        rest = next;
    }
    DEFAULT_NODES
}

/// The first number of nodes in range that the section `%set` of a job says, and the default where there is none.
pub(crate) fn first_nodes(bytes: &[u8]) -> u32
    ensures value { result ≡ first_nodes (lines bytes.now) }
    ensures range { IsBetween 3 64 result }
{
    let mut rest = bytes;
    'seeking: while let Some((line, next)) = next_line(rest) {
        if is_header(line) {
            if line == b"%set".as_slice() {
                return section_nodes(next);
            }
            return DEFAULT_NODES;
        }
        rest = next;
    }
    DEFAULT_NODES
}
