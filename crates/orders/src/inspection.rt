//! Inspecting orders that are put forward in writing.
ghost use Rattle.std.specs.Prelude.{◌≡◌, ℕ, suc, ◌+◌, ◌*◌, ◌<◌, ◌≤◌, List, ◌++◌, length, Decides, MatchOption, ◌==◌};
ghost use Rattle.trace.specs.Traces.{processor_count, Complete, WellFormed};
ghost use Rattle.orders.specs.Findings.{clause_number, found_number};
ghost use Rattle.orders.specs.Orders.{Explains};
ghost use Rattle.orders.specs.Inspecting.{written, EndsEarly, Parts, Fails, Passing, PassingAll, AgreesWithEarlier, DisagreesWith, AgreeBefore, Disagrees, Failure, Passes, Finds, Inspected};

use crate::clauses::{Clauses, is_seeing};
use crate::finding::{Clause, Finding};
use models::model::MemoryModel;
use trace::table::Table;

// Parts numbers after the list that they begin with; nothing where they end before it does.
fn split_list<'a>(numbers: &'a [u16]) -> Option<(&'a [u16], &'a [u16])>
    ensures { MatchOption result (EndsEarly numbers.now) (λ parts. Parts numbers.now parts.0.now parts.1.now) }
{
    let [count, rest @ ..] = numbers else {
        return None;
    };
    let count = *count as usize;
    if count <= rest.len() {
        Some((&rest[..count], &rest[count..]))
    } else {
        None
    }
}

impl<'a, M: MemoryModel> Clauses<'a, M> {
    // The first of a view's own clauses that its list breaks, if any.
    fn broken_clause(&self, view: u8, list: &[u16]) -> Option<Clause>
        ensures { MatchOption result (Explains (M.meaning self.now.model.now) self.now.table.now view list.now) (λ clause. Fails (M.meaning self.now.model.now) self.now.table.now view list.now (clause_number clause)) }
    {
        if !self.is_exact(view, list) {
            return Some(Clause::Exact);
        }
        if !self.is_ordered(view, list) {
            return Some(Clause::Ordered);
        }
        if !is_seeing(self.table, list) {
            return Some(Clause::Seeing);
        }
        None
    }

    // Passes over the list of a view, and gives the numbers after it, or the first clause of its own that it breaks.
    fn pass_list<'n>(&self, view: u8, numbers: &'n [u16]) -> Result<&'n [u16], Clause>
        ensures { Passing (M.meaning self.now.model.now) self.now.table.now view numbers.now result }
    {
        let Some((list, rest)) = split_list(numbers) else {
            return Err(Clause::Exact);
        };
        match self.broken_clause(view, list) {
            Some(clause) => Err(clause),
            None => Ok(rest),
        }
    }

    // How many views the model has of the trace.
    fn views(&self) -> u8
        ensures { result ≡ (M.meaning self.now.model.now).views (processor_count self.now.table.now) self.now.table.now.variables }
    {
        self.model
            .views(self.table.processors(), self.table.variables())
    }

    // Finds the first view before this one whose list, as the numbers have it, this one's does not agree with.
    fn find_other(&self, view: u8, list: &[u16], numbers: &[u16]) -> Option<u8>
        ensures { (orders : List (List ℕ)) (rest : List ℕ) → numbers.now ≡ written orders ++ rest → view ≤ length orders → MatchOption result (AgreesWithEarlier (M.meaning self.now.model.now) self.now.table.now orders view list.now) (DisagreesWith (M.meaning self.now.model.now) self.now.table.now orders view list.now) }
    {
        let mut rest = numbers;
        for other in 1..view {
            let (earlier, after) = split_list(rest)?;
            if !self.is_agreeing(view, earlier, list) {
                return Some(other);
            }
            rest = after;
        }
        None
    }

    // Finds the first view whose list, as the numbers have it, does not agree with an earlier view's.
    fn find_disagreeing(&self, numbers: &[u16]) -> Option<u8>
        ensures { (orders : List (List ℕ)) (rest : List ℕ) → numbers.now ≡ written orders ++ rest → length orders ≡ (M.meaning self.now.model.now).views (processor_count self.now.table.now) self.now.table.now.variables → MatchOption result (AgreeBefore (M.meaning self.now.model.now) self.now.table.now orders (suc (length orders))) (Disagrees (M.meaning self.now.model.now) self.now.table.now orders) }
    {
        let mut rest = numbers;
        for view in 1..=self.views() {
            let (list, after) = split_list(rest)?;
            if self.find_other(view, list, numbers).is_some() {
                return Some(view);
            }
            rest = after;
        }
        None
    }

    // Passes over the lists of all views, and gives the numbers after them, or the first thing that is wrong with them.
    fn pass_lists<'n>(&self, numbers: &'n [u16]) -> Result<&'n [u16], Finding>
        ensures { PassingAll (M.meaning self.now.model.now) self.now.table.now numbers.now result }
    {
        let mut rest = numbers;
        for view in 1..=self.views() {
            match self.pass_list(view, rest) {
                Ok(after) => rest = after,
                Err(clause) => return Err(Finding::Broken { clause, view }),
            }
        }
        Ok(rest)
    }

    // Finds the first thing that is wrong with orders in writing.
    fn find(&self, numbers: &[u16]) -> Result<(), Finding>
        ensures { Finds (M.meaning self.now.model.now) self.now.table.now numbers.now (found_number result) }
    {
        let rest = self.pass_lists(numbers)?;
        if let Some(view) = self.find_disagreeing(numbers) {
            return Err(Finding::Broken {
                clause: Clause::Agreeing,
                view,
            });
        }
        if rest.is_empty() {
            Ok(())
        } else {
            Err(Finding::LeftOver)
        }
    }

    // The value by which an inspection is told: 0 where nothing is found.
    fn value(&self, numbers: &[u16]) -> u16
        ensures { Finds (M.meaning self.now.model.now) self.now.table.now numbers.now result }
    {
        match self.find(numbers) {
            Ok(()) => 0,
            Err(finding) => u16::from(finding),
        }
    }
}

/// Inspects orders in writing: for each view in turn a count, and then that many operation numbers.
///
/// Answers 0 and what is found, or a refusal and its place where the trace is not complete.
pub fn inspect<M: MemoryModel>(model: &M, table: &Table, numbers: &[u16]) -> (u8, u16)
    ensures answer { Inspected (M.meaning model.now) table.now numbers.now result }
    ensures one { (other : ℕ × ℕ) → Inspected (M.meaning model.now) table.now numbers.now other → other ≡ result }
    ensures passes { Complete table.now → Decides (result.1 == 0) (Passes (M.meaning model.now) table.now numbers.now) }
    ensures fails { Complete table.now → (clause view : ℕ) → 1 ≤ view → view < 100 → result.1 ≡ 100 * clause + view → Failure (M.meaning model.now) table.now numbers.now clause view }
    ensures formed { WellFormed table.now }
{
    match table.completeness() {
        (0, _) => (0, Clauses { model, table }.value(numbers)),
        refused => refused,
    }
}
