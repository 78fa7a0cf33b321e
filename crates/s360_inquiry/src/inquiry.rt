//! What is asked, one a line.
use crate::extent::Extent;
use s360_store::Place;
use s360_word::Unit;

/// Where to go in what was recorded.
#[derive(Clone, Copy)]
pub enum Mark {
    /// Just after the change of this number.
    Change(u32),
    /// Where nothing stands.
    Start,
    /// Where all that was recorded stands.
    End,
    /// Where the recording stood before the last line that went elsewhere.
    Last,
}

/// How much is told of each event of a chain of causes.
#[derive(Clone, Copy)]
pub enum Detail {
    /// What it made, and of what, in a line.
    Brief,
    /// That, however long it is, and what decided the event.
    Full,
}

/// A line with its arguments: a variant for each first word.
#[derive(Clone, Copy)]
pub enum Inquiry {
    /// `who`: goes to just before the last change of a place, and tells it.
    Who(Place),
    /// `who m U N`: goes to just before the last change of an item of a unit's media, and tells it.
    WhoItem {
        unit: Unit,
        number: u32,
    },
    /// `why` and `why!`: tells what a place had its value from, and so on, so deep.
    Why {
        place: Place,
        depth: u32,
        detail: Detail,
    },
    /// `goto`: goes to a mark.
    Goto(Mark),
    /// `changes`: the last changes of a place, so many at most.
    Changes {
        place: Place,
        most: u32,
    },
    /// `stores`: the last stores into places, so many at most, also where the value stayed.
    Stores {
        extent: Extent,
        most: u32,
    },
    /// `readers`: the last events that read places since the last store there, so many at most.
    Readers {
        extent: Extent,
        most: u32,
    },
    /// `count`: how many changes altered places.
    Count(Extent),
    /// `history`: the last changes of any place, so many at most.
    History {
        most: u32,
    },
    /// `visits`: the last events that executed what is at an address, so many at most.
    Visits {
        at: u32,
        most: u32,
    },
    /// `visits svc`: the last supervisor calls with a code, so many at most.
    SupervisorCalls {
        code: u8,
        most: u32,
    },
    /// `jumps`: the last branches and interruptions, so many at most.
    Jumps {
        most: u32,
    },
    /// `calls`: the calls that have not returned.
    Calls,
    /// `dump A N`: so many bytes of storage from an address on, with their signs.
    Dump {
        at: u32,
        count: u32,
    },
    /// `dump m U N`: an item of a unit's media, with its signs.
    DumpItem {
        unit: Unit,
        number: u32,
    },
    /// `units`: how each unit stands, with its device.
    Units,
    /// `where`: how far the recording stands, and what the CPU does next.
    Where,
}
