//! The anchors from which a task is on its way.

ghost use Rattle.std.specs.Prelude.{◌≡◌, ℕ, ◌+◌, ◌<◌, ◌≤◌, ◌^◌, false, nat_lt, Some, [], length, IfOk, OnOk};
ghost use Rattle.std.specs.List.{filter};
ghost use Rattle.assumption_laws.specs.Waits.{passed_on, joined, is_overdue};
ghost use Rattle.assume_list.specs.Shown.{IsEarly, shown_in, shown};
ghost use Rattle.assume_list.specs.Passes.{with_here, is_late};

use std::alloc::{AllocError, Global};
use std::mem::swap;

/// An anchor from which a task is on its way, or was.
#[derive(Clone, Copy)]
pub(crate) struct Wait {
    /// The position of the run at which the anchor stands.
    pub since: u64,
    /// How many arrivals there are once the task is done, counted like those of [`Waits`].
    pub last: u64,
}

/// The anchors that wait. Those whose tasks are done stay in the list for a while.
#[derive(Drop)]
pub(crate) struct Waits {
    pub list: Vec<Wait>,
    spare: Vec<Wait>,
    /// How many arrivals at anchors there were.
    pub arrivals: u64,
    /// No anchor has waited for the whole limit before this position.
    pub due: u64,
    /// The task limit.
    pub limit: u32,
}

// Whether one of these has waited for the whole limit at a position.
fn any_due(list: &[Wait], arrivals: u64, limit: u32, position: u64) -> bool
    ensures { result ≡ is_overdue limit position (shown_in arrivals list.now) }
{
    for wait in list {
        if arrivals < wait.last
            && wait.since <= position
            && position - wait.since == u64::from(limit)
        {
            return true;
        }
    }
    false
}

// A position before which none of these has waited for the whole limit.
fn earliest(list: &[Wait], limit: u32) -> u64
    ensures { (arrivals : ℕ) → IsEarly result limit (shown_in arrivals list.now) }
{
    let mut least = u64::MAX;
    for wait in list {
        least = least.min(wait.since.saturating_add(u64::from(limit)));
    }
    least
}

// Those that still wait.
fn waiting(list: &[Wait], arrivals: u64, to: &mut Vec<Wait>) -> Result<(), AllocError>
    ensures { OnOk result (to.new.items ≡ filter (λ w. nat_lt arrivals w.last) list.now) }
{
    to.clear();
    for wait in list {
        if arrivals < wait.last {
            to.push(*wait)?;
        }
    }
    Ok(())
}

// Whether one of these still waits. The last that joined are looked at first.
fn some_wait(list: &[Wait], arrivals: u64) -> bool
    ensures { result ≡ nat_lt 0 (length (shown_in arrivals list.now)) }
{
    let mut left = list.len();
    while left > 0 {
        left -= 1;
        if arrivals < list[left].last {
            return true;
        }
    }
    false
}

impl Waits {
    /// None waits yet.
    pub(crate) fn new(alloc: Global, limit: u32) -> Self
        ensures list { shown result ≡ [] }
        ensures arrivals { result.arrivals ≡ 0 }
        ensures early { IsEarly result.due result.limit (shown result) }
        ensures limit { result.limit ≡ limit }
    {
        Waits {
            list: Vec::new(alloc),
            spare: Vec::new(alloc),
            arrivals: 0,
            due: u64::MAX,
            limit,
        }
    }

    // An anchor at a position below the bound begins to wait.
    #[tactic(auto, using(crate::proofs::Early::shown_push))]
    fn join(&mut self, bound: u64, position: u64, count: Option<u32>) -> Result<(), AllocError>
        requires near { position < 2 ^ 63 }
        requires arrivals { self.old.arrivals ≤ position }
        requires some { (n : ℕ) → count ≡ Some n → 1 ≤ n }
        requires early { IsEarly self.old.due self.old.limit (shown self.old) }
        ensures list { OnOk result (shown self.new ≡ joined bound position count (shown self.old)) }
        ensures arrivals { self.new.arrivals ≡ self.old.arrivals }
        ensures early { OnOk result (IsEarly self.new.due self.new.limit (shown self.new)) }
        ensures limit { self.new.limit ≡ self.old.limit }
    {
        if let Some(count) = count {
            if position < bound {
                self.due = self.due.min(position + u64::from(self.limit));
                self.list.push(Wait {
                    since: position,
                    last: self.arrivals + u64::from(count),
                })?;
            }
        }
        Ok(())
    }

    // Forgets those that wait no more.
    #[inline(never)]
    fn tidy(&mut self) -> Result<(), AllocError>
        ensures list { OnOk result (shown self.new ≡ shown self.old) }
        ensures arrivals { self.new.arrivals ≡ self.old.arrivals }
        ensures limit { self.new.limit ≡ self.old.limit }
    {
        waiting(&self.list, self.arrivals, &mut self.spare)?;
        swap(&mut self.list, &mut self.spare);
        Ok(())
    }

    /// Whether an anchor waits.
    #[inline(always)]
    pub(crate) fn is_waiting(&self) -> bool
        ensures { result ≡ nat_lt 0 (length (shown self.now)) }
    {
        some_wait(&self.list, self.arrivals)
    }

    // Whether one has waited for the whole limit.
    fn is_overdue(&mut self, position: u64) -> Result<bool, AllocError>
        requires early { IsEarly self.old.due self.old.limit (shown self.old) }
        ensures late { IfOk result (λ late. late ≡ is_overdue self.old.limit position (shown self.old)) }
        ensures list { OnOk result (shown self.new ≡ shown self.old) }
        ensures arrivals { self.new.arrivals ≡ self.old.arrivals }
        ensures early { OnOk result (IsEarly self.new.due self.new.limit (shown self.new)) }
        ensures limit { self.new.limit ≡ self.old.limit }
    {
        if position < self.due {
            return Ok(false);
        }
        self.tidy()?;
        self.due = earliest(&self.list, self.limit);
        Ok(any_due(&self.list, self.arrivals, self.limit, position))
    }

    // By a step: a stop ends all tasks, and at an arrival some are done.
    #[tactic(auto, using(crate::proofs::Early::shown_next))]
    fn pass_on(&mut self, stops: bool, arrives: bool)
        requires near { self.old.arrivals < 2 ^ 63 }
        requires early { IsEarly self.old.due self.old.limit (shown self.old) }
        ensures list { shown self.new ≡ passed_on stops arrives (shown self.old) }
        ensures arrivals { self.new.arrivals ≤ self.old.arrivals + 1 }
        ensures early { IsEarly self.new.due self.new.limit (shown self.new) }
        ensures limit { self.new.limit ≡ self.old.limit }
    {
        if stops {
            self.list.clear();
        } else if arrives {
            self.arrivals += 1;
        }
    }

    /// Goes on by one step. `here` is the count of the anchor where the step begins, `stops` tells whether it is a call or
    /// ends the run, and `arrives` whether an anchor is where it leads. Answers whether one has waited for the whole
    /// limit as the step begins.
    pub(crate) fn step(
        &mut self,
        bound: u64,
        position: u64,
        here: Option<u32>,
        stops: bool,
        arrives: bool,
    ) -> Result<bool, AllocError>
        requires near { position < 2 ^ 63 }
        requires arrivals { self.old.arrivals ≤ position }
        requires some { (n : ℕ) → here ≡ Some n → 1 ≤ n }
        requires early { IsEarly self.old.due self.old.limit (shown self.old) }
        ensures late { IfOk result (λ late. late ≡ is_late bound position here self.old) }
        ensures list { IfOk result (λ late. late ≡ false →
            shown self.new ≡ passed_on stops arrives (with_here bound position here self.old)) }
        ensures arrivals { OnOk result (self.new.arrivals ≤ position + 1) }
        ensures early { OnOk result (IsEarly self.new.due self.new.limit (shown self.new)) }
        ensures limit { self.new.limit ≡ self.old.limit }
    {
        self.join(bound, position, here)?;
        if self.is_overdue(position)? {
            return Ok(true);
        }
        self.pass_on(stops, arrives);
        Ok(false)
    }
}
