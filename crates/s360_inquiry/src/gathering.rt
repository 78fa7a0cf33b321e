//! Goes back once through a recording, and notes what the nodes of a chain were made of, and where the values of these came from.
ghost use Rattle.std.specs.Prelude.{◌≡◌, ◌-◌, ◌+◌, All, IfOk, OnErr, OnOk, ℕ};
ghost use Rattle.s360_journal.specs.Recorded.{Recorded, with_standing};
ghost use Rattle.s360_journal.specs.Returning.{one_back};
ghost use Rattle.s360_inquiry.specs.Causes.{IsMaking, IsStore};
ghost use Rattle.s360_inquiry.specs.Changes.{just_before, kind_of_change};
ghost use Rattle.s360_inquiry.specs.Gatherings.{Gathers, IsGathering, IsOfEvent, IsRequested, is_stored, is_wanted, store_of};

use crate::change::go_before;
use crate::extent::{Extent, extent_with};
use crate::making::{LastStore, Making, making_of, noted_making};
use crate::node::Node;
use crate::origin::{Origin, is_followed};
use crate::storing::{span_in, stored_next};
use s360_journal::Session;
use s360_machine::EventKind;
use s360_store::Place;
use std::alloc::{AllocError, Global};
use std::cmp::Reverse;
use std::collections::BTreeSet;
use std::mem;

/// A place whose last store before a moment is looked for, of which something was made; an event that stored it is told so deep.
#[derive(Clone, Copy)]
struct Request {
    place: Place,
    moment: u32,
    /// Where what was made of it stands in the list of these.
    making: usize,
    depth: u32,
}

/// What is noted, and what is looked for.
#[derive(Drop)]
pub(crate) struct Gathering {
    alloc: Global,
    pub(crate) makings: Vec<Making>,
    pub(crate) stores: Vec<LastStore>,
    requests: Vec<Request>,
    /// The places of what is looked for, each once.
    wanted: BTreeSet<Place>,
}

/// Whether a place is one of those that are stored.
fn is_stored(stored: &[Place], place: Place) -> bool
    ensures { result ≡ is_stored stored.now place }
{
    span_in(Extent::of(place), stored).is_some()
}

/// Whether one of the places that are stored is wanted.
fn is_wanted(wanted: &BTreeSet<Place>, stored: &[Place]) -> bool
    ensures { result ≡ is_wanted wanted.now.keys stored.now }
{
    stored.iter().any(|place| wanted.contains(place))
}

impl Gathering {
    /// Looks for where the value of a place comes from.
    fn seek(&mut self, request: Request) -> Result<(), AllocError>
        ensures { OnOk result ((r : Recorded) (n : ℕ) → IsGathering r n self.old → IsRequested r n request → IsGathering r n self.new) }
    {
        self.wanted.insert(request.place)?;
        self.requests.push(request)?;
        Ok(())
    }

    /// Notes where the value of a place came from.
    fn note(&mut self, request: Request, origin: Origin) -> Result<(), AllocError>
        ensures { OnOk result ((r : Recorded) (n : ℕ) → IsGathering r n self.old → IsStore r (store_of request origin) → IsGathering r n self.new) }
    {
        self.stores.push(LastStore {
            place: request.place,
            moment: request.moment,
            origin,
        })?;
        Ok(())
    }

    /// Notes what the event that comes next, of this number, made an extent of, and looks for where that came from. Want of memory
    /// leaves the recording at some change.
    fn follow(
        &mut self,
        recording: &mut Session,
        number: u32,
        extent: Extent,
        depth: u32,
    ) -> Result<(), AllocError>
        requires before { recording.old ≡ just_before recording.old number }
        ensures gathered { OnOk result (Gathers recording.old recording.old.standing self.old self.new) }
        ensures state { OnOk result (recording.new ≡ recording.old) }
        ensures memory { OnErr result (recording.new ≡ with_standing recording.old recording.new.standing) }
    {
        if depth == 0 || noted_making(self.makings.as_slice(), number, extent).is_some() {
            return Ok(());
        }
        let making = making_of(self.alloc, recording, number, extent)?;
        let index = self.makings.len();
        for place in making.places.iter() {
            if is_followed(*place) {
                self.seek(Request {
                    place: *place,
                    moment: recording.standing(),
                    making: index,
                    depth: depth - 1,
                })?;
            }
        }
        self.makings.push(making)?;
        Ok(())
    }

    /// Takes those that an event stored, of this origin, from what is looked for.
    fn take_stored(&mut self, stored: &[Place], origin: Origin) -> Result<Vec<Request>, AllocError>
        ensures { OnOk result ((r : Recorded) (n : ℕ) → IsOfEvent r n stored.now origin → IsGathering r n self.old → IsGathering r (n - 1) self.new) }
    {
        let sought = mem::replace(&mut self.requests, Vec::new(self.alloc));
        let mut taken = Vec::new(self.alloc);
        self.wanted = BTreeSet::new(self.alloc);
        for request in sought.iter() {
            if is_stored(stored, request.place) {
                self.note(*request, origin)?;
                taken.push(*request)?;
            } else {
                self.seek(*request)?;
            }
        }
        Ok(taken)
    }

    /// Looks at what the event that comes next, of this number and kind, stores.
    fn meet(
        &mut self,
        recording: &mut Session,
        number: u32,
        kind: Option<EventKind>,
    ) -> Result<(), AllocError>
        requires number { number ≡ recording.old.standing + 1 }
        requires before { recording.old ≡ just_before recording.old number }
        requires kind { kind ≡ kind_of_change recording.old number }
        ensures gathered { OnOk result (Gathers recording.old number self.old self.new) }
        ensures state { OnOk result (recording.new ≡ recording.old) }
        ensures memory { OnErr result (recording.new ≡ with_standing recording.old recording.new.standing) }
    {
        let stored = stored_next(self.alloc, recording)?;
        if !is_wanted(&self.wanted, stored.as_slice()) {
            return Ok(());
        }
        let origin = Origin::of_event(number, kind);
        let taken = self.take_stored(stored.as_slice(), origin)?;
        if let Origin::Event(_) = origin {
            for node in nodes_of(self.alloc, number, taken.as_slice())?.iter() {
                self.follow(recording, number, node.extent, node.depth)?;
            }
        }
        Ok(())
    }

    /// Notes that what is looked for still, at the start, was there from the start.
    fn end(&mut self) -> Result<(), AllocError>
        ensures { OnOk result ((r : Recorded) → IsGathering r 0 self.old → IsGathering r 0 self.new) }
    {
        let sought = mem::replace(&mut self.requests, Vec::new(self.alloc));
        for request in sought.iter() {
            self.note(*request, Origin::Start)?;
        }
        Ok(())
    }
}

/// The nodes of what an event stored, the nearest first: places of which one thing was made go together, if they are successive
/// bytes.
fn nodes_of(alloc: Global, number: u32, taken: &[Request]) -> Result<Vec<Node>, AllocError> {
    let mut nodes: Vec<Node> = Vec::new(alloc);
    let mut last = usize::MAX;
    for index in (0..taken.len()).rev() {
        let request = taken[index];
        let mut node = Node {
            number,
            extent: Extent::of(request.place),
            depth: request.depth,
        };
        if last == request.making {
            join_last(&mut nodes, &mut node, request.place);
        }
        nodes.push(node)?;
        last = request.making;
    }
    nodes.sort_by_key(|node| Reverse(node.depth))?;
    Ok(nodes)
}

/// Takes the last node into one of a byte just before it.
fn join_last(nodes: &mut Vec<Node>, node: &mut Node, place: Place) {
    let Some(next) = nodes.pop() else {
        return;
    };
    match extent_with(place, next.extent) {
        Some(extent) => node.extent = extent,
        None => nodes.push_reserved(next),
    }
}

/// Takes the last event back, and answers of which kind it is.
fn take_back(recording: &mut Session) -> Option<EventKind>
    ensures kind { result ≡ kind_of_change recording.old recording.old.standing }
    ensures state { recording.new ≡ one_back recording.old }
{
    let kind = recording.last_event();
    let _taken = recording.step_back();
    kind
}

/// Goes back from a node, and notes what it and those below it were made of. The recording is left at some change.
pub(crate) fn gather(
    alloc: Global,
    recording: &mut Session,
    first: Node,
) -> Result<Gathering, AllocError>
    ensures makings { IfOk result (λ g. All (IsMaking (with_standing recording.old 0)) g.makings.items) }
    ensures stores { IfOk result (λ g. All (IsStore (with_standing recording.old 0)) g.stores.items) }
    ensures state { recording.new ≡ with_standing recording.old recording.new.standing }
{
    let mut gathering = Gathering {
        alloc,
        makings: Vec::new(alloc),
        stores: Vec::new(alloc),
        requests: Vec::new(alloc),
        wanted: BTreeSet::new(alloc),
    };
    let _kind = go_before(recording, first.number)?;
    gathering.follow(recording, first.number, first.extent, first.depth)?;
    for before in (0..recording.standing()).rev() {
        if gathering.requests.is_empty() {
            return Ok(gathering);
        }
        let kind = take_back(recording);
        gathering.meet(recording, before + 1, kind)?;
    }
    gathering.end()?;
    Ok(gathering)
}
