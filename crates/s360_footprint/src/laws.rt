//! The laws of rows, the contracts of calls that do nothing. An ending is what a row says of how its event ends.
ghost use Rattle.s360_footprint.specs.ChannelRows.{ChannelsAreRows};
ghost use Rattle.s360_footprint.specs.EventLaws.{EventDecided, EventFollows, EventKeepsOthers, EventsAreRows};
ghost use Rattle.s360_footprint.specs.InstructionLaws.{InstructionDecided, InstructionFollows, InstructionsAreRows};
ghost use Rattle.s360_footprint.specs.InterruptionRows.{InterruptionsAreRows};
ghost use Rattle.s360_footprint.specs.Laws.{Decided, Follows, KeepsOthers, SequencesAreRows};

/// A place that a row does not store keeps its value.
pub fn others_are_kept<Ending>()
    ensures { KeepsOthers Ending }
{}

/// Where two machines have the same at the deciders of a row, it does the same in both.
pub fn deciders_decide<Ending>()
    ensures { Decided Ending }
{}

/// Where a row does the same in two machines of one size and profile, and they have the same at the sources of a place, they have
/// the same at that place afterwards.
pub fn values_follow_their_sources<Ending>()
    ensures { Follows Ending }
{}

/// One row after another is a row.
pub fn sequences_are_rows<First, Ending>()
    ensures { SequencesAreRows First Ending }
{}

/// The row of an instruction does what the instruction does: it is fetched, decoded and done by the row of its form, or by that of
/// the subject of an execute.
pub fn instructions_are_rows()
    ensures { InstructionsAreRows }
{}

/// Where two machines of one size and profile have the same at the deciders of an instruction, it does the same in both, and
/// ends alike.
pub fn deciders_decide_the_instruction()
    ensures { InstructionDecided }
{}

/// Where an instruction does the same in two machines of one size and profile, and they have the same at the sources of a place,
/// they have the same at that place afterwards, before any interruption that follows.
pub fn instructions_follow_their_sources()
    ensures { InstructionFollows }
{}

/// An instruction and the program or supervisor call interruption that follows it are one row, where storage has the permanent
/// locations.
pub fn interruptions_are_rows()
    ensures { InterruptionsAreRows }
{}

/// The row of a channel event of a unit does what the channel does, before any end of loading.
pub fn channels_are_rows()
    ensures { ChannelsAreRows }
{}

/// The row of an event that is not refused does what the event does, where storage has the permanent locations and the machine its
/// six units.
pub fn events_are_rows()
    ensures { EventsAreRows }
{}

/// A place that an event does not store keeps its value.
pub fn others_are_kept_by_the_event()
    ensures { EventKeepsOthers }
{}

/// Where two machines of one size and profile have the same at the deciders of an event, it does the same in both.
pub fn deciders_decide_the_event()
    ensures { EventDecided }
{}

/// Where an event does the same in two machines of one size and profile, and they have the same at the sources of a place, they
/// have the same at that place afterwards.
pub fn events_follow_their_sources()
    ensures { EventFollows }
{}
