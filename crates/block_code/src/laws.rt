//! The laws of runs that end, and of blocks.

ghost use Rattle.block_code.specs.Footprint.{FootprintIsKept, FootprintIsSameOutside, FootprintKeepsSlots, LinesTouchAsDone, PartsTouchOnly, PortlessIsSilent, PortlessTouchNothing};
ghost use Rattle.block_code.specs.Home.{ComesHome, ComesHomeSoon, GoesRound, TableFallsThrough, WrittenIsClosed};
ghost use Rattle.block_code.specs.Law.{FramesAreKept, LawOfEffect, LawOfEntry, LawOfNest, LawOfNoReturn, LawOfStart, LawOfTop, OfBlocks, SparedIsKept, StorelessKeeps};
ghost use Rattle.block_code.specs.Leads.{ComesOut, LeadsRound};
ghost use Rattle.block_code.specs.Moment.{MomentsAreRuns};
ghost use Rattle.block_code.specs.Parts.{LinesAppend, LinesKeepValid, LinesLeadOneWay, PartsAreDone, PartsStop};
ghost use Rattle.block_code.specs.Placed.{WrittenCodeStands};
ghost use Rattle.block_code.specs.SequenceLaw.{FixedIsLoaded, FixedIsStored, ImmediateIsLoaded};
ghost use Rattle.block_code.specs.Silent.{RegistersAreKept};
ghost use Rattle.block_code.specs.Ticks.{LawOfTicks};

/// The moments of a run are its harts after as many ticks, with the readings that are left and the events at
/// ports.
pub fn moments_are_runs()
    ensures { MomentsAreRuns }
{}

/// From its first word a block is left or traps within its full bound, pc staying inside until then.
pub fn blocks_end_from_the_top()
    ensures { OfBlocks LawOfTop }
{}

/// From any pc inside, also one between two words, and whatever registers and RAM hold, a block is left or traps
/// within its entry bound.
pub fn blocks_end_from_anywhere()
    ensures { OfBlocks LawOfEntry }
{}

/// The first tick of a block goes behind its first word.
pub fn blocks_start_forward()
    ensures { OfBlocks LawOfStart }
{}

/// From behind its first word a block does not come back to it until it is left or traps.
pub fn blocks_never_return()
    ensures { OfBlocks LawOfNoReturn }
{}

/// From its first word a block does what its structure says, or a line of it traps where the structure has come to.
pub fn blocks_do_their_structure()
    ensures { OfBlocks LawOfEffect }
{}

/// The entry bound is at most the full bound times one more than the loops and scans that enclose one another.
pub fn bounds_keep_step()
    ensures { OfBlocks LawOfNest }
{}

/// A block stores nothing at a slot that its lines spare and that is none of its own.
pub fn spared_words_are_kept()
    ensures { SparedIsKept }
{}

/// A block keeps the words at the slots of the loops and scans that enclose it, if each of its lines does, and none of its own
/// slots is one of them.
pub fn frames_are_kept()
    ensures { FramesAreKept }
{}

/// A line with no store keeps every word of RAM.
pub fn storeless_lines_keep()
    ensures { StorelessKeeps }
{}

/// From any pc inside, a block is left or traps within as many ticks of the hart as its entry bound says.
pub fn blocks_end_in_ticks()
    ensures { OfBlocks LawOfTicks }
{}

/// Code stands in ROM where its words were written into the image.
pub fn written_code_stands()
    ensures { WrittenCodeStands }
{}

/// Two lines, one behind the other, are a line.
pub fn lines_append()
    ensures { LinesAppend }
{}

/// What a line of two parts does is what the second part does after the first, and it stops where one of them does.
pub fn parts_are_done_in_order()
    ensures does { PartsAreDone }
    ensures stops { PartsStop }
{}

/// A line leads one way.
pub fn lines_lead_one_way()
    ensures { LinesLeadOneWay }
{}

/// Where a line leads from a valid hart, the hart is valid.
pub fn lines_keep_harts_valid()
    ensures { LinesKeepValid }
{}

/// The small sequences load a word, load from RAM at a fixed offset, and store there.
pub fn sequences_are_done()
    ensures immediate { ImmediateIsLoaded }
    ensures load { FixedIsLoaded }
    ensures store { FixedIsStored }
{}

/// A block's words, written from address 0 with the jump to 0 behind them, and tables behind a gap of such jumps, make a
/// ROM with the block at 0, the tables, and jumps to 0 at every other word.
pub fn written_blocks_are_closed()
    ensures { WrittenIsClosed }
{}

/// A table word changes nothing but pc.
pub fn table_words_fall_through()
    ensures { TableFallsThrough }
{}

/// A closed block comes to address 0 from every hart, and from there it goes round.
pub fn closed_blocks_stabilize()
    ensures comes_home { OfBlocks ComesHome }
    ensures comes_soon { OfBlocks ComesHomeSoon }
    ensures goes_round { OfBlocks GoesRound }
{}

/// A closed block that leads from the head to a moment that a test tells goes round by way of such a moment.
pub fn led_blocks_go_round()
    ensures { OfBlocks LeadsRound }
{}

/// A block that is entered at its top comes out behind its last word, in a valid hart.
pub fn entered_blocks_come_out()
    ensures { ComesOut }
{}

/// A block touches only the footprint in which its lines and its slots lie.
pub fn footprints_are_kept()
    ensures { FootprintIsKept }
{}

/// A line touches only the footprint if it does so instruction by instruction, as they are done.
pub fn lines_touch_as_done()
    ensures { LinesTouchAsDone }
{}

/// What a line of two parts touches, and that a line with no load and no store touches nothing.
pub fn parts_touch_only()
    ensures parts { PartsTouchOnly }
    ensures portless { PortlessTouchNothing }
{}

/// A block keeps the word at a slot outside the region of its footprint.
pub fn footprints_keep_slots()
    ensures { FootprintKeepsSlots }
{}

/// Where a block leaves or traps, what lies outside the footprint of its lines is what it was.
pub fn footprints_bound_effects()
    ensures silent { PortlessIsSilent }
    ensures outside { FootprintIsSameOutside }
{}

/// A block keeps the registers that its lines do not write.
pub fn registers_are_kept()
    ensures { RegistersAreKept }
{}
