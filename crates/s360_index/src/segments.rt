//! The bytes of storage in segments, each with one list of numbers.
ghost use Rattle.std.specs.Prelude.{◌≡◌, ◌≢◌, ◌<◌, ◌≤◌, ◌+◌, ◌^◌, ◌⊎◌, ℕ, [], length, slice_get, Some, IfOk, OnErr, OnOk};
ghost use Rattle.s360_index.specs.Segments.{AreSegments, Gained, GainedInPart, Grown, IsCut, IsInside, KeepsCuts, KeepsNumbers, KeepsNumbersBefore};
ghost use Rattle.s360_index.specs.Segments.{KeepsNumbersFrom, Lost, Relabelled, label, numbers_at};

use crate::numbers::{put_number, take_number};
use std::alloc::{AllocError, Global};

/// The label of the bytes that no change has altered.
const UNALTERED: u32 = 0;

/// Bytes of storage that follow each other and were altered by the same changes.
#[derive(Drop)]
pub(crate) struct Segment {
    /// The address of the first byte.
    start: usize,
    /// The address behind the last byte.
    end: usize,
    /// The numbers of the changes.
    numbers: Vec<u32>,
}

impl Clone for Segment {
    ghost use Rattle.s360_index.specs.Segments.{IsSameSegment};

    ghost is_clone = { IsSameSegment };

    fn clone(&self) -> Result<Segment, AllocError> {
        let numbers = Vec::from_slice(*self.numbers.allocator(), &self.numbers)?;
        Ok(Segment {
            start: self.start,
            end: self.end,
            numbers,
        })
    }
}

/// The bytes of storage, each in a segment.
pub(crate) struct Segments {
    /// Of each byte the index of its segment, from address 0 on up to the highest that a change has altered.
    labels: Vec<u32>,
    /// The segments. The first has the bytes that no change has altered, which need not follow each other.
    segments: Vec<Segment>,
    alloc: Global,
}

impl Drop for Segments {
    fn drop(self) {
        let Segments {
            labels: _,
            segments: _,
            alloc: _,
        } = self;
    }
}

/// Gives bytes, from a first one up to an end, another label.
fn relabel(labels: &mut [u32], start: usize, end: usize, label: u32)
    requires forward { start ≤ end }
    requires inside { end ≤ length labels.old }
    ensures { Relabelled labels.old labels.new start end label }
{
    labels[start..end].fill(label);
}

/// Where the bytes end, from a first one on and before an end, that no change has altered.
fn end_of_unaltered(labels: &[u32], start: usize, end: usize) -> usize
    requires forward { start ≤ end }
    requires inside { end ≤ length labels.now }
    ensures unaltered { (a : ℕ) → start ≤ a → a < result → slice_get labels.now a ≡ Some 0 }
    ensures forward { start ≤ result }
    ensures inside { result ≤ end }
    ensures all { (result ≡ end) ⊎ (slice_get labels.now result ≢ Some 0) }
{
    let mut at = start;
    while at < end && labels[at] == UNALTERED {
        at += 1;
    }
    at
}

impl Segments {
    /// No byte was altered. It takes no memory.
    pub(crate) fn new(alloc: Global) -> Segments
        ensures whole { AreSegments result }
        ensures none { (a : ℕ) → numbers_at result a ≡ [] }
    {
        Segments {
            labels: Vec::new(alloc),
            segments: Vec::new(alloc),
            alloc,
        }
    }

    /// Segments that have the same numbers.
    pub(crate) fn copy(&self) -> Result<Segments, AllocError>
        requires whole { AreSegments self.now }
        ensures whole { IfOk result (λ copied. AreSegments copied) }
        ensures numbers { IfOk result (λ copied. KeepsNumbers self.now copied) }
    {
        let labels = Vec::from_slice(self.alloc, &self.labels)?;
        let segments = self.segments.clone()?;
        Ok(Segments {
            labels,
            segments,
            alloc: self.alloc,
        })
    }

    /// The index of the segment of a byte.
    fn label(&self, at: usize) -> usize
        ensures { result ≡ label self.now at }
    {
        match self.labels.get(at) {
            Some(label) => *label as usize,
            None => UNALTERED as usize,
        }
    }

    /// The numbers of a byte.
    pub(crate) fn numbers(&self, address: u32) -> &[u32]
        ensures { result.now ≡ numbers_at self.now address }
    {
        match self.segments.get(self.label(address as usize)) {
            Some(segment) => &segment.numbers,
            None => &[],
        }
    }

    /// Labels all bytes before an end.
    fn grow(&mut self, end: usize) -> Result<(), AllocError>
        requires whole { AreSegments self.old }
        requires few { end ≤ 1048576 }
        ensures whole { AreSegments self.new }
        ensures numbers { KeepsNumbers self.old self.new }
        ensures grown { OnOk result (Grown self.new end) }
    {
        if self.segments.is_empty() {
            let numbers = Vec::new(self.alloc);
            self.segments.push(Segment {
                start: 0,
                end: 0,
                numbers,
            })?;
        }
        if self.labels.len() < end {
            self.labels.resize(end, UNALTERED)?;
        }
        Ok(())
    }

    /// Parts a segment in two at a byte within it, behind its first. The smaller one is the new one, so that a byte gets
    /// another label few times.
    fn split(&mut self, index: usize, at: usize) -> Result<(), AllocError>
        requires whole { AreSegments self.old }
        requires some { 0 < index }
        requires inside { IsInside self.old index at }
        ensures whole { AreSegments self.new }
        ensures numbers { KeepsNumbers self.old self.new }
        ensures cuts { KeepsCuts self.old self.new }
        ensures labels { length self.new.labels.items ≡ length self.old.labels.items }
        ensures cut { OnOk result (IsCut self.new at) }
    {
        let label = self.segments.len() as u32;
        self.segments.reserve(1)?;
        let segment = &mut self.segments[index];
        let numbers = segment.numbers.clone()?;
        let (start, end) = if at - segment.start < segment.end - at {
            let start = segment.start;
            segment.start = at;
            (start, at)
        } else {
            let end = segment.end;
            segment.end = at;
            (at, end)
        };
        self.segments.push_reserved(Segment {
            start,
            end,
            numbers,
        });
        relabel(&mut self.labels, start, end, label);
        Ok(())
    }

    /// Makes no segment go on from before an address to behind it.
    fn cut(&mut self, at: usize) -> Result<(), AllocError>
        requires whole { AreSegments self.old }
        ensures whole { AreSegments self.new }
        ensures numbers { KeepsNumbers self.old self.new }
        ensures cuts { KeepsCuts self.old self.new }
        ensures labels { length self.new.labels.items ≡ length self.old.labels.items }
        ensures cut { OnOk result (IsCut self.new at) }
    {
        let index = self.label(at);
        if index == UNALTERED as usize || self.segments[index].start == at {
            return Ok(());
        }
        self.split(index, at)
    }

    /// Makes a segment with a number of bytes that no change has altered, from a first one on and before an end, as many
    /// as follow each other. It answers where they end.
    fn make(&mut self, start: usize, end: usize, number: u32) -> Result<usize, AllocError>
        requires whole { AreSegments self.old }
        requires grown { Grown self.old end }
        requires forward { start < end }
        requires cut_at_end { IsCut self.old end }
        requires unaltered { label self.old start ≡ 0 }
        ensures whole { AreSegments self.new }
        ensures labels { length self.new.labels.items ≡ length self.old.labels.items }
        ensures ok { IfOk result (λ past. Gained number start past self.old self.new) }
        ensures inside { IfOk result (λ past. (start < past) × (past ≤ end)) }
        ensures cut { IfOk result (λ past. IsCut self.new past) }
        ensures cuts { OnOk result (IsCut self.new end) }
        ensures err { OnErr result (KeepsNumbers self.old self.new) }
    {
        let label = self.segments.len() as u32;
        let past = end_of_unaltered(&self.labels, start, end);
        let mut numbers = Vec::new(self.alloc);
        numbers.push(number)?;
        self.segments.push(Segment {
            start,
            end: past,
            numbers,
        })?;
        relabel(&mut self.labels, start, past, label);
        Ok(past)
    }

    /// Puts a number at the end of those of a byte and of others that follow it, before an end, unless it stands there. It
    /// answers where these bytes end.
    fn put_some(&mut self, at: usize, end: usize, number: u32) -> Result<usize, AllocError>
        requires whole { AreSegments self.old }
        requires grown { Grown self.old end }
        requires forward { at < end }
        requires cut { IsCut self.old at }
        requires cut_at_end { IsCut self.old end }
        ensures whole { AreSegments self.new }
        ensures labels { length self.new.labels.items ≡ length self.old.labels.items }
        ensures ok { IfOk result (λ past. Gained number at past self.old self.new) }
        ensures inside { IfOk result (λ past. (at < past) × (past ≤ end)) }
        ensures cut { IfOk result (λ past. IsCut self.new past) }
        ensures cuts { OnOk result (IsCut self.new end) }
        ensures err { OnErr result (KeepsNumbers self.old self.new) }
    {
        let index = self.label(at);
        if index == UNALTERED as usize {
            return self.make(at, end, number);
        }
        let segment = &mut self.segments[index];
        put_number(&mut segment.numbers, number)?;
        Ok(segment.end)
    }

    /// Puts a number at the end of those of each of so many bytes from an address on, unless it stands there. Want of memory
    /// leaves some of them as they were.
    pub(crate) fn put(&mut self, address: u32, count: u32, number: u32) -> Result<(), AllocError>
        requires whole { AreSegments self.old }
        requires some { 0 < count }
        requires inside { address + count ≤ 1048576 }
        ensures whole { AreSegments self.new }
        ensures ok { OnOk result (Gained number address (address + count) self.old self.new) }
        ensures err { OnErr result (GainedInPart number address (address + count) self.old self.new) }
    {
        let mut at = address as usize;
        let end = at + count as usize;
        self.grow(end)?;
        self.cut(at)?;
        self.cut(end)?;
        while at < end {
            at = self.put_some(at, end, number)?;
        }
        Ok(())
    }

    /// Takes a number from the end of those of a byte, and of others with the same numbers, where it stands there. It
    /// answers where the bytes end that follow this one and are among them.
    fn take_some(&mut self, at: usize, number: u32) -> usize
        requires whole { AreSegments self.old }
        requires few { at < 2 ^ 33 }
        ensures whole { AreSegments self.new }
        ensures lost { Lost number at result self.old self.new }
        ensures before { IsCut self.old at → KeepsNumbersBefore at self.old self.new }
        ensures behind { KeepsNumbersFrom result self.old self.new }
        ensures cut { IsCut self.new result }
        ensures forward { at < result }
    {
        let index = self.label(at);
        if index == UNALTERED as usize {
            return at + 1;
        }
        let segment = &mut self.segments[index];
        take_number(&mut segment.numbers, number);
        segment.end
    }

    /// Takes a number from the end of those of each of so many bytes from an address on, where it stands there, and of
    /// others that have the same numbers. It takes no memory.
    pub(crate) fn take(&mut self, address: u32, count: u32, number: u32)
        requires whole { AreSegments self.old }
        ensures whole { AreSegments self.new }
        ensures lost { Lost number address (address + count) self.old self.new }
    {
        let mut at = address as usize;
        let end = at + count as usize;
        while at < end {
            at = self.take_some(at, number);
        }
    }
}
