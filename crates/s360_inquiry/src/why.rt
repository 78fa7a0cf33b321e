//! Why a place has its value: the chain of causes, each event once, the nearest first. The recording goes back once and notes what
//! the chain is told from.
ghost use Rattle.std.specs.Prelude.{◌≡◌, ◌≤◌, ◌+◌, ◌++◌, ◌∷◌, All, IfOk, OnErr, OnOk, None, length, [], ℕ};
ghost use Rattle.s360_journal.specs.Recorded.{with_standing};
ghost use Rattle.s360_inquiry.specs.Causes.{IsMaking, IsStore, TellsNode, causes_of, decided_line, known_after, lines_in, node_texts};
ghost use Rattle.s360_inquiry.specs.Causes.{why_text, why_text_from};
ghost use Rattle.s360_inquiry.specs.Origins.{cause_items, origin_in};
ghost use Rattle.s360_inquiry.specs.Tellings.{most_lines, told_lines};

use crate::cause::{Cause, Sourced, cause_items, causes_from};
use crate::extent::{Extent, push_extent, push_words};
use crate::fitting::{push_brief, push_full};
use crate::gathering::gather;
use crate::going::go_to;
use crate::inquiry::Detail;
use crate::making::{LastStore, Making, making_of, noted_making, noted_store};
use crate::node::{Node, push_nodes};
use crate::origin::{Origin, find_origin};
use crate::search::{Sought, last_number};
use crate::telling::{MOST_LINES, Telling};
use s360_journal::Session;
use s360_store::Place;
use s360_text::Text;
use std::alloc::{AllocError, Global};

/// So deep is a chain followed at most.
pub(crate) const MOST_DEPTH: u32 = 100;

/// What a chain is told from, and in which detail. What was not noted is looked for when it is told.
#[derive(Clone, Copy)]
struct Chain<'a> {
    alloc: Global,
    makings: &'a [Making],
    stores: &'a [LastStore],
    detail: Detail,
}

impl Chain<'_> {
    /// Where the value that a place had at a moment came from.
    fn origin_at(
        self,
        recording: &mut Session,
        place: Place,
        moment: u32,
    ) -> Result<Origin, AllocError>
        requires stores { All (IsStore (with_standing recording.old 0)) self.stores.now }
        requires moment { moment ≤ length recording.old.events }
        ensures origin { IfOk result (λ origin. origin ≡ origin_in (with_standing recording.old moment) place) }
        ensures state { recording.new ≡ with_standing recording.old recording.new.standing }
    {
        match noted_store(self.stores, place, moment) {
            Some(store) => Ok(store.origin),
            None => {
                go_to(recording, moment)?;
                find_origin(self.alloc, recording, place)
            }
        }
    }

    /// The causes of what an event made.
    fn causes_of(self, recording: &mut Session, making: &Making) -> Result<Vec<Cause>, AllocError>
        requires stores { All (IsStore (with_standing recording.old 0)) self.stores.now }
        requires making { IsMaking (with_standing recording.old 0) making.now }
        ensures causes { IfOk result (λ causes. causes.items ≡ causes_of (with_standing recording.old 0) making.now.number making.now.extent) }
        ensures state { recording.new ≡ with_standing recording.old recording.new.standing }
    {
        let moment = making.number.saturating_sub(1).min(recording.recorded());
        let mut sources = Vec::new(self.alloc);
        for place in making.places.iter() {
            let origin = self.origin_at(recording, *place, moment)?;
            sources.push(Sourced {
                place: *place,
                origin,
            })?;
        }
        causes_from(self.alloc, sources.as_slice())
    }

    /// The lines of a node, by what its event made.
    fn lines_of(self, making: &Making, causes: &[Cause]) -> Result<Text, AllocError>
        ensures { IfOk result (λ text. text ≡ lines_in self.entry.detail making.now.head (cause_items causes.now) making.now.deciders.items) }
    {
        let mut text = Text::new(self.alloc);
        let items = cause_items(self.alloc, causes)?;
        match self.detail {
            Detail::Brief => push_brief(
                self.alloc,
                &mut text,
                making.head.as_bytes(),
                items.as_slice(),
            )?,
            Detail::Full => {
                push_full(&mut text, making.head.as_bytes(), items.as_slice())?;
                push_decided(&mut text, making.deciders.as_slice())?;
            }
        }
        Ok(text)
    }

    /// Tells a node by what its event made, and puts those below it behind the nodes that are known.
    fn tell_making(
        self,
        recording: &mut Session,
        telling: &mut Telling,
        known: &mut Vec<Node>,
        making: &Making,
        depth: u32,
    ) -> Result<(), AllocError>
        requires stores { All (IsStore (with_standing recording.old 0)) self.stores.now }
        requires making { IsMaking (with_standing recording.old 0) making.now }
        ensures told { OnOk result (TellsNode (with_standing recording.old 0) self.entry.detail making.now.number making.now.extent telling.old telling.new) }
        ensures known { OnOk result (known.new.items ≡ known_after (with_standing recording.old 0) known.old.items making.now.number making.now.extent depth) }
        ensures state { recording.new ≡ with_standing recording.old recording.new.standing }
    {
        let causes = self.causes_of(recording, making)?;
        let text = self.lines_of(making, causes.as_slice())?;
        telling.push(text.as_bytes())?;
        push_nodes(known, depth, causes.as_slice())
    }

    /// Tells a node, and puts those below it behind the nodes that are known.
    fn tell(
        self,
        recording: &mut Session,
        telling: &mut Telling,
        known: &mut Vec<Node>,
        node: Node,
    ) -> Result<(), AllocError>
        requires makings { All (IsMaking (with_standing recording.old 0)) self.makings.now }
        requires stores { All (IsStore (with_standing recording.old 0)) self.stores.now }
        ensures told { OnOk result (TellsNode (with_standing recording.old 0) self.entry.detail node.number node.extent telling.old telling.new) }
        ensures known { OnOk result (known.new.items ≡ known_after (with_standing recording.old 0) known.old.items node.number node.extent node.depth) }
        ensures state { recording.new ≡ with_standing recording.old recording.new.standing }
    {
        match noted_making(self.makings, node.number, node.extent) {
            Some(making) => self.tell_making(recording, telling, known, making, node.depth),
            None => {
                let making = making_of(self.alloc, recording, node.number, node.extent)?;
                self.tell_making(recording, telling, known, &making, node.depth)
            }
        }
    }

    /// Tells the chain that begins with a node.
    fn text_from(self, recording: &mut Session, first: Node) -> Result<Text, AllocError>
        requires makings { All (IsMaking (with_standing recording.old 0)) self.makings.now }
        requires stores { All (IsStore (with_standing recording.old 0)) self.stores.now }
        ensures text { IfOk result (λ text. text ≡ told_lines (node_texts (most_lines + 1) (with_standing recording.old 0) self.entry.detail (first ∷ []) 0)) }
        ensures state { recording.new ≡ with_standing recording.old recording.new.standing }
    {
        let mut telling = Telling::new(self.alloc);
        let mut known = Vec::new(self.alloc);
        known.push(first)?;
        for told in 0..MOST_LINES + 1 {
            if told >= known.len() {
                return telling.finish();
            }
            let node = known[told];
            self.tell(recording, &mut telling, &mut known, node)?;
        }
        telling.finish()
    }
}

/// Adds the line of what decided an event, if anything did.
fn push_decided(text: &mut Text, deciders: &[Text]) -> Result<(), AllocError>
    ensures { OnOk result (text.new ≡ text.old ++ decided_line deciders.now) }
{
    if deciders.is_empty() {
        return Ok(());
    }
    push_full(text, b"  decided by", deciders)
}

/// That a place is as at the start.
fn text_of_start(alloc: Global, recording: &Session, place: Place) -> Result<Text, AllocError>
    ensures { IfOk result (λ text. (depth : ℕ) (detail : Detail) → text ≡ why_text_from recording.now place depth detail None) }
{
    let mut text = Text::new(alloc);
    push_extent(&mut text, Extent::of(place))?;
    push_words(&mut text, recording.machine(), Extent::of(place))?;
    text.push_text(" from the start\n")?;
    Ok(text)
}

/// Tells the chain that begins with a node. The recording is left at some change.
fn text_of_chain(
    alloc: Global,
    recording: &mut Session,
    first: Node,
    detail: Detail,
) -> Result<Text, AllocError>
    ensures text { IfOk result (λ text. text ≡ told_lines (node_texts (most_lines + 1) (with_standing recording.old 0) detail (first ∷ []) 0)) }
    ensures state { recording.new ≡ with_standing recording.old recording.new.standing }
{
    let gathering = gather(alloc, recording, first)?;
    let chain = Chain {
        alloc,
        makings: gathering.makings.as_slice(),
        stores: gathering.stores.as_slice(),
        detail,
    };
    chain.text_from(recording, first)
}

/// Tells why a place has its value, so deep. The recording stands where it stood; want of memory leaves it at some change.
pub(crate) fn answer_why(
    alloc: Global,
    recording: &mut Session,
    place: Place,
    depth: u32,
    detail: Detail,
) -> Result<Text, AllocError>
    ensures text { IfOk result (λ text. text ≡ why_text recording.old place depth detail) }
    ensures state { OnOk result (recording.new ≡ recording.old) }
    ensures memory { OnErr result (recording.new ≡ with_standing recording.old recording.new.standing) }
{
    let standing = recording.standing();
    let extent = Extent::of(place);
    let depth = depth.min(MOST_DEPTH);
    let start = text_of_start(alloc, recording, place)?;
    let text = match last_number(alloc, recording, Sought::Stores(extent), 0)? {
        Some(number) => text_of_chain(
            alloc,
            recording,
            Node {
                number,
                extent,
                depth,
            },
            detail,
        )?,
        None => start,
    };
    go_to(recording, standing)?;
    Ok(text)
}
