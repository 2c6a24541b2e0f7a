// A walk over a program whose loops are unrolled.
ghost use Rattle.std.specs.Prelude.{◌≡◌, ◌%◌, ◌<◌, ◌≤◌, ◌^◌, ◌∷◌, [], IfOk, OnOk, false, nat_lt};
ghost use Rattle.high_ir.specs.Size.{nodes};
ghost use Rattle.high_ir.specs.Splitting.{split};
ghost use Rattle.high_ir.specs.Standing.{marks_of};
ghost use Rattle.high_ir.specs.Tree.{End, Loop};
ghost use Rattle.high_ir.specs.View.{statement_of, statements_of};
ghost use Rattle.high_pass.specs.Listing.{loop_entry};
ghost use Rattle.high_unrolled.specs.declared.made.Made.TheVariants.{Behind};
ghost use Rattle.high_unrolled.specs.Factor.{as_loop, ended, grouped, has_loop, turned};
ghost use Rattle.high_unrolled.specs.Starts.{repeated, starts};
ghost use Rattle.high_unrolled.specs.Unrolling.{loop_copied, loop_gone, taken};
ghost use Rattle.unroller.specs.View.{continued, copied, less_room, met, noted, past, progress_of};

use super::factor::{Turns, growth, left, split_least};
use super::making::{seq, seq_then, sum};
use super::remarking::remarked;
use high_ir::statement::Statement;
use high_ir::statements::loop_of;
use high_ir::{LoopCopies, LoopCopy};
use high_unrolled::made::Made;
use std::alloc::Global;
use wcc_base::Memory;

/// How many operations more the program may have, the numbers of the next mark and the next loop, what the new marks are, and
/// what became of the loops.
#[derive(Drop)]
pub struct Walk {
    pub alloc: Global,
    pub room: u32,
    pub marks: u32,
    pub loops: u32,
    pub made: Vec<Made>,
    pub entries: Vec<LoopCopies>,
}

/// A loop with one copy.
fn copied_once(alloc: Global, old: u32, id: u32, factor: u32) -> Result<LoopCopies, Memory>
    ensures { IfOk result (λ c. loop_entry c ≡ loop_copied old id factor) }
{
    let mut new = Vec::new(alloc);
    new.push(LoopCopy { id, factor })?;
    Ok(LoopCopies { old, new })
}

/// A loop that is gone.
fn gone(alloc: Global, old: u32) -> LoopCopies
    ensures { loop_entry result ≡ loop_gone old }
{
    LoopCopies {
        old,
        new: Vec::new(alloc),
    }
}

impl Walk {
    /// A new mark.
    pub(crate) fn mark(&mut self, made: Made) -> Result<u32, Memory>
        ensures number { IfOk result (λ m. m ≡ self.old.marks) }
        ensures progress { OnOk result (progress_of self.new ≡ noted (progress_of self.old) (made ∷ [])) }
    {
        let number = self.marks;
        let next = sum(number, 1)?;
        self.marks = next;
        self.made.push(made)?;
        Ok(number)
    }

    /// A loop and its one copy by a factor, whose number is answered.
    pub(crate) fn meet(&mut self, id: u32, factor: u32) -> Result<u32, Memory>
        ensures number { IfOk result (λ n. n ≡ self.old.loops) }
        ensures progress { OnOk result (progress_of self.new ≡ met (progress_of self.old) id factor) }
    {
        let number = self.loops;
        let next = sum(number, 1)?;
        self.loops = next;
        let entry = copied_once(self.alloc, id, number, factor)?;
        self.entries.push(entry)?;
        Ok(number)
    }

    /// A loop that is gone.
    fn pass(&mut self, id: u32) -> Result<(), Memory>
        ensures { OnOk result (progress_of self.new ≡ past (progress_of self.old) id) }
    {
        let entry = gone(self.alloc, id);
        self.entries.push(entry)?;
        Ok(())
    }

    /// So many starts of a body, whose marks are new.
    fn starts(&mut self, count: u32, body: &Statement) -> Result<Vec<Statement>, Memory>
        ensures code { IfOk result (λ v. statements_of v.items ≡ starts count self.old.marks (statement_of body.now) End) }
        ensures progress { OnOk result (progress_of self.new ≡ copied (progress_of self.old) (repeated count (marks_of (statement_of body.now)))) }
    {
        let mut made = Vec::new(self.alloc);
        for _ in 0..count {
            made.push(remarked(self, body)?)?;
        }
        Ok(made)
    }

    /// So many starts of the body of a loop, and the mark behind them.
    fn ended(&mut self, id: u32, count: u32, body: &Statement) -> Result<Statement, Memory>
        ensures code { IfOk result (λ s. statement_of s ≡ ended self.old.marks (as_loop id 0 count (statement_of body.now))) }
        ensures progress { OnOk result (progress_of self.new ≡ noted (copied (progress_of self.old) (repeated count (marks_of (statement_of body.now)))) (Behind id ∷ [])) }
    {
        let parts = self.starts(count, body)?;
        let never = self.mark(Made::Behind(id))?;
        Ok(seq_then(parts, Statement::Mark { id: never })?)
    }

    /// A loop of so many starts at a time.
    fn grouped(
        &mut self,
        factor: u32,
        number: u32,
        by: Turns,
        body: &Statement,
    ) -> Result<Statement, Memory>
        requires { 1 ≤ factor }
        ensures code { IfOk result (λ s. statement_of s ≡ Loop number (split (record { least = by.min; most = by.max }) factor).least (split (record { least = by.min; most = by.max }) factor).most (grouped factor self.old.marks (as_loop by.id by.min by.max (statement_of body.now)))) }
        ensures progress { OnOk result (progress_of self.new ≡ copied (progress_of self.old) (repeated factor (marks_of (statement_of body.now)))) }
    {
        let parts = self.starts(factor, body)?;
        let least = split_least(by, factor);
        let most = by.max / factor;
        Ok(loop_of(self.alloc, number, least, most, seq(parts))?)
    }

    /// The first starts of a loop, and then the loop of so many at a time.
    fn turned(
        &mut self,
        factor: u32,
        number: u32,
        by: Turns,
        body: &Statement,
    ) -> Result<Statement, Memory>
        requires { 1 ≤ factor }
        ensures code { IfOk result (λ s. statement_of s ≡ turned factor self.old.marks number (as_loop by.id by.min by.max (statement_of body.now))) }
        ensures progress { OnOk result (progress_of self.new ≡ copied (copied (progress_of self.old) (repeated (by.max % factor) (marks_of (statement_of body.now)))) (repeated factor (marks_of (statement_of body.now)))) }
    {
        let parts = self.starts(by.max % factor, body)?;
        let last = self.grouped(factor, number, by, body)?;
        Ok(seq_then(parts, last)?)
    }

    /// A loop of fewer starts than the factor.
    fn take_short(&mut self, grown: u64, by: Turns, body: &Statement) -> Result<Statement, Memory>
        ensures code { IfOk result (λ s. statement_of s ≡ ended self.old.marks (as_loop by.id by.min by.max (statement_of body.now))) }
        ensures progress { OnOk result (progress_of self.new ≡ noted (copied (past (less_room (progress_of self.old) grown) by.id) (repeated by.max (marks_of (statement_of body.now)))) (Behind by.id ∷ [])) }
    {
        let room = left(self.room, grown);
        self.room = room;
        self.pass(by.id)?;
        let made = self.ended(by.id, by.max, body)?;
        Ok(made)
    }

    /// A loop of as many starts as the factor, or more.
    fn take_long(
        &mut self,
        factor: u32,
        grown: u64,
        by: Turns,
        body: &Statement,
    ) -> Result<Statement, Memory>
        requires { 1 ≤ factor }
        ensures code { IfOk result (λ s. statement_of s ≡ turned factor self.old.marks self.old.loops (as_loop by.id by.min by.max (statement_of body.now))) }
        ensures progress { OnOk result (progress_of self.new ≡ copied (copied (met (less_room (progress_of self.old) grown) by.id factor) (repeated (by.max % factor) (marks_of (statement_of body.now)))) (repeated factor (marks_of (statement_of body.now)))) }
    {
        let room = left(self.room, grown);
        self.room = room;
        let number = self.meet(by.id, factor)?;
        let made = self.turned(factor, number, by, body)?;
        Ok(made)
    }

    /// A loop, an innermost one, by the factor.
    pub(crate) fn take(
        &mut self,
        factor: u32,
        by: Turns,
        body: &Statement,
    ) -> Result<Statement, Memory>
        requires factor { 1 ≤ factor }
        requires nodes { nodes (statement_of body.now) < 2 ^ 26 }
        requires innermost { has_loop (statement_of body.now) ≡ false }
        ensures code { IfOk result (λ s. statement_of s ≡ (taken factor (nat_lt by.max factor) (progress_of self.old).place (as_loop by.id by.min by.max (statement_of body.now))).code) }
        ensures progress { OnOk result (progress_of self.new ≡ continued (progress_of self.old) (taken factor (nat_lt by.max factor) (progress_of self.old).place (as_loop by.id by.min by.max (statement_of body.now)))) }
    {
        let grown = growth(factor, by.max, body);
        if by.max < factor {
            return Ok(self.take_short(grown, by, body)?);
        }
        Ok(self.take_long(factor, grown, by, body)?)
    }
}
