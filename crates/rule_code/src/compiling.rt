//! The image of a program.

ghost use Rattle.std.specs.Prelude.{◌≡◌, ◌*◌, ◌≤◌, ◌^◌, true, IfOk};
ghost use Rattle.rv_machine.specs.Memory.{IsMemorySize};
ghost use Rattle.state_space.specs.{Locations.{signatures_of}, Sizes.{fits}};
ghost use Rattle.bound_count.specs.Refusals.{FitsMachine, needs_of};
ghost use Rattle.bound_count.specs.Numbers.{numbers_of};
ghost use Rattle.bound_count.specs.declared.shape.Shape.TheVariants as forms;
ghost use Rattle.round_spec.specs.Stabilizes.{ChoosesLeast, GoesOn, Stabilizes};
ghost use Rattle.rule_code.specs.CompileEnds.{AnswersNeeds};
ghost use Rattle.rule_code.specs.Image.{AreRoundWords, IsFitted, IsMadeWithin};

use crate::round_body::body;
use asm_ranges::Checked;
use block_code::{emit, len};
use bound_count::{NeedEnd, Numbers, Shape, needs};
use rom_anchor::place;
use rom_tables::table_words;
use round_spec::Built;
use rule_expand::expand;
use rv_encode::Words;
use rv_machine::jump_to_start;
use state_layout::{Layout, Map, lay_out};
use state_space::Space;
use std::alloc::{AllocError, Global};
use thiserror::Error;

/// Why there is no image of a program.
#[derive(Clone, Copy, Debug, PartialEq, Eq, Error)]
pub enum CompileEnd {
    /// The program needs more than the machine has.
    #[error("the program is too large: {0}")]
    Needs(NeedEnd),
    /// No memory was left.
    #[error("out of memory")]
    NoMemory,
}

impl From<NeedEnd> for CompileEnd {
    ghost use Rattle.std.specs.Prelude.{◌≡◌};
    ghost use Rattle.rule_code.specs.declared.compiling.CompileEnd.TheVariants.{Needs};

    ghost from_gives = { λ need end. end ≡ Needs need };

    fn from(need: NeedEnd) -> Self {
        CompileEnd::Needs(need)
    }
}

impl From<AllocError> for CompileEnd {
    ghost use Rattle.std.specs.Prelude.{◌≡◌};
    ghost use Rattle.rule_code.specs.declared.compiling.CompileEnd.TheVariants.{NoMemory};

    ghost from_gives = { λ _ end. end ≡ NoMemory };

    fn from(_: AllocError) -> Self {
        CompileEnd::NoMemory
    }
}

/// The image of a checked program, its rule written out without loops, for a ROM and a RAM of so many bytes, with its map in
/// the layout and its numbers. Whatever the hart holds and its ports read, it comes to the loop head within the number of
/// ticks before a round, and from there each round takes no more ticks than the number of a round, and makes the step of the
/// least choices on the state that RAM holds.
///
/// # Errors
///
/// `Needs` exactly where the program needs more than the machine has, with the need that [`needs`] answers, and `NoMemory`
/// where there is no memory for the image.
pub fn compile<const ROM: u32, const RAM: u32>(
    alloc: Global,
    checked: &Checked,
    layout: Layout,
) -> Result<Built<ROM, RAM>, CompileEnd>
    requires rom { IsMemorySize ROM }
    requires ram { IsMemorySize RAM }
    ensures needs { AnswersNeeds (needs_of ROM RAM forms.Unrolled layout checked.now) result }
    ensures stabilizes { IfOk result (λ built. Stabilizes ROM RAM forms.Unrolled layout checked.now built) }
    ensures goes_on { IfOk result (λ built. GoesOn RAM checked.now built) }
    ensures least { IfOk result (λ built. ChoosesLeast RAM checked.now built) }
{
    let numbers = needs::<ROM, RAM>(checked, Shape::Unrolled, layout)?;
    Ok(image(alloc, checked, layout, numbers)?)
}

/// The image of a program whose numbers are within the limits. An error is want of memory.
fn image<const ROM: u32, const RAM: u32>(
    alloc: Global,
    checked: &Checked,
    layout: Layout,
    numbers: Numbers,
) -> Result<Built<ROM, RAM>, AllocError>
    requires rom { IsMemorySize ROM }
    requires ram { IsMemorySize RAM }
    requires needs { numbers ≡ numbers_of forms.Unrolled layout checked.now }
    requires within { FitsMachine ROM RAM forms.Unrolled layout checked.now numbers }
    requires small { fits (signatures_of checked.now) ≡ true }
    ensures made { IfOk result (λ built. IsMadeWithin ROM RAM layout checked.now built) }
    ensures needs { IfOk result (λ built. built.needs ≡ numbers) }
{
    let space = Space::of(alloc, checked.resolved())?;
    let map = lay_out(alloc, &space, layout)?;
    let tables = table_words(alloc, checked)?;
    let at = numbers.rom as u32 - tables.list().len() as u32;
    let words = round_words::<ROM, RAM>(alloc, checked, &map, at)?;
    let image = place::<ROM>(alloc, &words, at, &tables)?;
    Ok(Built::of(image, map, numbers))
}

/// The words of a round from address 0, where the tables stand from the word `at` on: those of its block, and the jump from
/// behind them to 0. An error is want of memory.
fn round_words<const ROM: u32, const RAM: u32>(
    alloc: Global,
    checked: &Checked,
    map: &Map,
    at: u32,
) -> Result<Words, AllocError>
    requires fitted { IsFitted ROM RAM map.now.layout checked.now map.now (numbers_of forms.Unrolled map.now.layout checked.now) }
    requires low { 4 * at ≤ 2 ^ 20 }
    ensures { IfOk result (λ words. AreRoundWords checked.now map.now (4 * at) words) }
{
    let flat = expand(alloc, checked)?;
    let block = body(alloc, checked, map, &flat, 4 * at)?;
    let mut words = Words::new(alloc);
    emit(&block, &mut words)?;
    words.push(jump_to_start(4 * len(&block) as u32))?;
    Ok(words)
}
