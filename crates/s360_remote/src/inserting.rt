//! The points at which gdb asks the machine to stop: set, and taken out. Source: gdb manual, "Packets".
ghost use Rattle.std.specs.Prelude.{◌≡◌, ◌≤◌, ◌+◌, ◌++◌, IfOk, OnErr, SomeIff};
ghost use Rattle.s360_machine.specs.Machine.{storage_size};
ghost use Rattle.s360_packet.specs.declared.answer.Answer.TheVariants.{Done};
ghost use Rattle.s360_remote.specs.Conditions.{conditions_in};
ghost use Rattle.s360_remote.specs.Replies.{Adds, packet_of};
ghost use Rattle.s360_remote.specs.Serving.{IsInsertIfBegun, IsInsertedIf, set_if, insert_answer, machine_now, points_with, points_without, with_points};
ghost use Rattle.s360_remote.specs.declared.serving.Then.TheVariants.{GoOn};

use crate::condition::read_conditions;
use crate::error_number::ErrorNumber;
use crate::serving::Then;
use crate::target::Target;
use crate::watch::Watch;
use s360_packet::{Answer, Point, RequestFault, Watchpoint, push_packet};
use s360_text::Text;
use std::alloc::AllocError;

impl Target {
    /// Sets a point.
    pub(crate) fn insert(
        &mut self,
        point: Point,
        at: u32,
        kind: u32,
        replies: &mut Text,
    ) -> Result<Then, AllocError>
        ensures points { self.new ≡ with_points self.old (points_with point at kind self.old) }
        ensures answer { IfOk result (λ next. (next ≡ GoOn) × (replies.new ≡ replies.old ++ packet_of (insert_answer point at kind self.old))) }
    {
        let is_set = match point {
            Point::Break(_) => self.points.add_break(at),
            Point::Watch(watchpoint) => match self.watch_in_storage(watchpoint, at, kind) {
                Some(watch) => self.points.add_watch(watch),
                None => {
                    push_packet(replies, ErrorNumber::Address.answer())?;
                    return Ok(Then::GoOn);
                }
            },
        };
        push_set(is_set, replies)
    }

    /// Sets a breakpoint with conditions.
    pub(crate) fn insert_if(
        &mut self,
        at: u32,
        conditions: &[u8],
        replies: &mut Text,
    ) -> Result<Then, AllocError>
        ensures served { IfOk result (λ next. Adds (IsInsertedIf (conditions_in conditions.now) at self.old self.new next) replies.old replies.new) }
        ensures begun { OnErr result (IsInsertIfBegun (conditions_in conditions.now) at self.old self.new) }
    {
        let set = match read_conditions(self.alloc, conditions) {
            Ok(conditions) => self.points.add_break_if(at, conditions)?,
            Err(RequestFault::Memory) => return Err(AllocError),
            Err(_) => {
                push_packet(replies, ErrorNumber::Malformed.answer())?;
                return Ok(Then::GoOn);
            }
        };
        push_set(set, replies)
    }

    /// Takes a point out, if it is set.
    pub(crate) fn remove(
        &mut self,
        point: Point,
        at: u32,
        kind: u32,
        replies: &mut Text,
    ) -> Result<Then, AllocError>
        ensures points { self.new ≡ with_points self.old (points_without point at kind self.old) }
        ensures answer { IfOk result (λ next. (next ≡ GoOn) × (replies.new ≡ replies.old ++ packet_of Done)) }
    {
        match point {
            Point::Break(_) => self.points.remove_break(at),
            Point::Watch(watchpoint) => {
                if let Some(watch) = Watch::new(watchpoint, at, kind) {
                    self.points.remove_watch(watch);
                }
            }
        }
        push_packet(replies, Answer::Done)?;
        Ok(Then::GoOn)
    }

    /// So many bytes from an address on, if they are in storage.
    fn watch_in_storage(&self, watchpoint: Watchpoint, at: u32, count: u32) -> Option<Watch>
        ensures { SomeIff result (at + count ≤ storage_size (machine_now self.now)) (record { watchpoint = watchpoint; at = at; count = count }) }
    {
        let size = u64::from(self.machine().storage().size());
        if u64::from(at) + u64::from(count) > size {
            return None;
        }
        Watch::new(watchpoint, at, count)
    }
}

/// Tells whether a point was set, or no more can be.
fn push_set(is_set: bool, replies: &mut Text) -> Result<Then, AllocError>
    ensures { IfOk result (λ next. (next ≡ GoOn) × (replies.new ≡ replies.old ++ packet_of (set_if is_set))) }
{
    push_packet(
        replies,
        if is_set {
            Answer::Done
        } else {
            ErrorNumber::Full.answer()
        },
    )?;
    Ok(Then::GoOn)
}
