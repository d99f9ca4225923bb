//! What is known of the loads of a run while it goes on.

ghost use Rattle.std.specs.Prelude.{◌≡◌, ℕ, ◌+◌, ◌++◌, ◌<◌, IfOk, IfErr, OnOk, None, Some, All};
ghost use Rattle.std.specs.Ordering.{nat_cmp};
ghost use Rattle.std.specs.BTreeMap.{IsOrdered};
ghost use Rattle.load_values.specs.declared.error.FindErr.TheVariants.{Wide};
ghost use Rattle.load_values.specs.Values.{IsSmall};
ghost use Rattle.load_values.specs.Sights as spec;
ghost use Rattle.load_values.specs.Sights.{noted, known_after, row_of, listed};
ghost use Rattle.load_values.specs.Counted.{AreFew, known_of, OthersStay, count_after};

use crate::error::FindErr;
use crate::row::has_word;
use crate::sight::Sight;
use std::alloc::{AllocError, Global};
use std::collections::BTreeMap;

/// At how many addresses a load may be executed.
const MOST: u32 = 524_288;

/// What is known of the load at an address.
#[derive(Clone, Copy, Debug, Drop, PartialEq, Eq)]
pub(crate) enum Found {
    /// The program's own load set a register to this value each time that the address was executed.
    One(u32),
    /// It did not, and a load was executed.
    Many,
    /// It did not, and no load was executed.
    Unseen,
}

/// What is known after one more value of the program's own load.
fn one_more(value: u32, known: Option<Found>) -> Found
    ensures { result ≡ spec.one_more value known }
{
    match known {
        Some(Found::One(other)) => {
            if other == value {
                Found::One(other)
            } else {
                Found::Many
            }
        }
        Some(_) => Found::Many,
        None => Found::One(value),
    }
}

/// What is known after another word was executed, which is no load.
fn hidden(known: Option<Found>) -> Found
    ensures { result ≡ spec.hidden known }
{
    match known {
        Some(Found::One(_) | Found::Many) => Found::Many,
        Some(Found::Unseen) | None => Found::Unseen,
    }
}

fn noted(sight: Sight, known: Option<Found>) -> Found
    ensures { result ≡ spec.noted sight known }
{
    match sight {
        Sight::Value(value) => one_more(value, known),
        Sight::Executed => Found::Many,
        Sight::Hidden | Sight::Nothing => hidden(known),
    }
}

/// 1 where a load is executed at an address at which none was, else 0.
fn newly(sight: Sight, known: Option<Found>) -> u32
    ensures { result ≡ spec.newly sight known }
{
    match sight {
        Sight::Value(_) | Sight::Executed => match known {
            Some(Found::One(_) | Found::Many) => 0,
            Some(Found::Unseen) | None => 1,
        },
        Sight::Hidden | Sight::Nothing => 0,
    }
}

/// The value that is listed of a load, where it always gave one and one word sets a register to it.
fn single(found: Found) -> Option<u32>
    ensures { result ≡ spec.single found }
{
    match found {
        Found::One(value) => { if has_word(value) { Some(value) } else { None } }
        Found::Many | Found::Unseen => None,
    }
}

/// Puts a row at the end, where there is a value.
fn put(rows: &mut Vec<(u32, u32)>, pc: u32, value: Option<u32>) -> Result<(), AllocError>
    requires { All IsSmall rows.old.items }
    ensures rows { OnOk result (rows.new.items ≡ rows.old.items ++ row_of pc value) }
    ensures small { OnOk result (All IsSmall rows.new.items) }
{
    match value {
        Some(value) => Ok(rows.push((pc, value))?),
        None => Ok(()),
    }
}

/// The loads that were executed, and those that should have been.
#[derive(Drop)]
pub(crate) struct Loads {
    /// What is known of the load at each address.
    pub found: BTreeMap<u32, Found>,
    /// At how many addresses a load was executed.
    pub count: u32,
}

impl Loads {
    /// Nothing is known yet.
    pub fn new(alloc: Global) -> Self
        ensures found { (q : ℕ) → known_of result q ≡ None }
        ensures count { result.count ≡ 0 }
        ensures few { AreFew result }
    {
        Loads {
            found: BTreeMap::new(alloc),
            count: 0,
        }
    }

    /// Notes what a position tells, where a load is concerned.
    fn note(&mut self, pc: u32, sight: Sight) -> Result<(), FindErr>
        requires { AreFew self.old }
        ensures here { OnOk result (known_of self.new pc ≡ Some (noted sight (known_of self.old pc))) }
        ensures elsewhere { OnOk result (OthersStay pc self.old self.new) }
        ensures count { OnOk result (self.new.count ≡ count_after sight pc self.old) }
        ensures few { OnOk result (AreFew self.new) }
        ensures wide { IfErr result (λ e. e ≡ Wide → 524_288 < count_after sight pc self.old) }
    {
        let known = self.found.get(&pc).copied();
        self.found.insert(pc, noted(sight, known))?;
        self.count += newly(sight, known);
        if self.count > MOST {
            return Err(FindErr::Wide);
        }
        Ok(())
    }

    /// Notes what a position tells.
    #[inline(always)]
    pub fn add(&mut self, pc: u32, sight: Sight) -> Result<(), FindErr>
        requires { AreFew self.old }
        ensures here { OnOk result (known_of self.new pc ≡ known_after sight (known_of self.old pc)) }
        ensures elsewhere { OnOk result (OthersStay pc self.old self.new) }
        ensures count { OnOk result (self.new.count ≡ count_after sight pc self.old) }
        ensures few { OnOk result (AreFew self.new) }
        ensures wide { IfErr result (λ e. e ≡ Wide → 524_288 < count_after sight pc self.old) }
    {
        match sight {
            Sight::Nothing => Ok(()),
            Sight::Value(_) | Sight::Executed | Sight::Hidden => self.note(pc, sight),
        }
    }

    /// The loads of one value, in the order of their addresses.
    pub fn rows(&self, alloc: Global) -> Result<Vec<(u32, u32)>, AllocError>
        ensures rows { IfOk result (λ rows. rows.items ≡ listed self.now.found.entries) }
        ensures small { IfOk result (λ rows. All IsSmall rows.items) }
        ensures ordered { IsOrdered nat_cmp self.now.found }
    {
        let mut rows = Vec::new(alloc);
        for (pc, found) in self.found.iter() {
            put(&mut rows, *pc, single(*found))?;
        }
        Ok(rows)
    }
}
