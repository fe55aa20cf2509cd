//! Where the arrays of functions end.

ghost use Rattle.std.specs.Prelude.{◌≡◌, ◌+◌, ◌*◌, ◌<◌, ◌^◌, true, IfOk};
ghost use Rattle.std.specs.List.{AllByRecursion};
ghost use Rattle.state_space.specs.Sizes.{IsSized, fits};
ghost use Rattle.state_layout.specs.Map as spec;
ghost use Rattle.state_layout.specs.Tables.{AreEnds, ends_behind};
ghost use Rattle.trap_model.specs.Width.{bytes_of};

use crate::layout::Layout;
use sqlite_items::Items;
use state_space::{Side, Signature, padded_args};
use std::alloc::{AllocError, Global};
use trap_model::Width;

/// Where the arrays of some functions end.
#[derive(Clone, Copy, Debug)]
pub struct Ends {
    /// The end of their values, in bytes from 0 on.
    pub values: u32,
    /// How many flags they have.
    pub flags: u32,
    /// How many kept words they have.
    pub kept: u32,
    /// How many words their tables have in ROM, modulo 2^32.
    pub tables: u32,
}

/// The next multiple of the width from an offset on.
pub fn raised(width: Width, offset: u32) -> u32
    requires { offset < 2 ^ 31 }
    ensures { result ≡ spec.raised (bytes_of width) offset }
{
    let bytes = width.bytes();
    (offset + (bytes - 1)) / bytes * bytes
}

/// The place with a number in an array of this width.
pub fn place_in(width: Width, start: u32, index: u32) -> u32
    requires start { start < 2 ^ 26 }
    requires index { index < 2 ^ 20 }
    ensures { result ≡ start + bytes_of width * index }
{
    start + width.bytes() * index
}

impl Ends {
    /// Where the arrays end with those of one more function.
    pub fn behind(self, layout: Layout, signature: &Signature) -> Ends
        requires sized { IsSized signature.now }
        requires values { (ends_behind layout self signature.now).values < 2 ^ 31 }
        requires flags { (ends_behind layout self signature.now).flags < 2 ^ 31 }
        requires kept { (ends_behind layout self signature.now).kept < 2 ^ 31 }
        ensures { result ≡ ends_behind layout self signature.now }
    {
        if Side::State.holds(signature.kind) {
            let padded = padded_args(signature.args.as_slice()) as u32;
            let access = layout.value_access(signature.codomain);
            Ends {
                values: raised(access, self.values) + access.bytes() * padded,
                flags: self.flags + padded,
                ..self
            }
        } else if Side::Input.holds(signature.kind) {
            Ends {
                kept: self.kept + padded_args(signature.args.as_slice()) as u32,
                ..self
            }
        } else {
            let padded = padded_args(signature.args.as_slice()) % (1 << 32);
            Ends {
                tables: self.tables.wrapping_add(padded as u32),
                ..self
            }
        }
    }
}

/// Where the arrays end before each function, and where all do.
pub fn ends_of(
    alloc: Global,
    layout: Layout,
    signatures: &[Signature],
) -> Result<Items<Ends>, AllocError>
    requires sized { AllByRecursion IsSized signatures.now }
    requires room { fits signatures.now ≡ true }
    ensures { IfOk result (λ ends. AreEnds (record { layout = layout; signatures = signatures.now }) ends) }
{
    let mut ends = Items::new(alloc);
    let mut end = Ends {
        values: 0,
        flags: 0,
        kept: 0,
        tables: 0,
    };
    ends.push(end)?;
    for signature in signatures {
        end = end.behind(layout, signature);
        ends.push(end)?;
    }
    Ok(ends)
}
