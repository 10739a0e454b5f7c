// A case, and what is known of one while its lines are read. The items of a case, and what they mean where they are
// left out, are those of the format; see the root.

ghost use Rattle.std.specs.Prelude.{◌≡◌, ◌≢◌, ◌+◌, false, None, Some, IsSome, OnOk, IfErr, MatchResult};
ghost use Rattle.amd_cases.specs.Items.{item_keyword};
ghost use Rattle.amd_cases.specs.Drafts.{Adds, Finishes, is_complete, free_slots};
ghost use Rattle.amd_cases.specs.declared.items.Keyword.TheVariants as key;
ghost use Rattle.amd_cases.specs.declared.faults.CaseFault.TheVariants as fault;

use crate::faults::CaseFault;
use crate::items::Item;
use std::alloc::Allocator;

/// The dense row parameter of a case that does not name it, in thousandths.
pub const DEFAULT_DENSE: i32 = 10000;

/// What an ordering is called with.
#[derive(Drop)]
pub struct Case<A: Allocator> {
    /// The number that the case has in its file.
    pub number: i64,
    /// The number of rows and columns.
    pub n: i64,
    /// The dense row parameter in thousandths.
    pub dense: i32,
    /// Whether absorption is aggressive.
    pub aggressive: bool,
    /// The pointers.
    pub a_p: Vec<i64, A>,
    /// The rows.
    pub a_i: Vec<i64, A>,
    /// The rows that are held last, by a mark for each.
    pub hold: Option<Vec<bool, A>>,
    /// A permutation, under which the columns of the factor are asked for.
    pub permutation: Option<Vec<i64, A>>,
    /// How many entries these columns may have.
    pub room: Option<i64>,
}

/// A case of which some items were read.
#[derive(Drop)]
pub(crate) struct Draft<A: Allocator> {
    number: i64,
    n: Option<i64>,
    dense: Option<i32>,
    aggressive: Option<bool>,
    a_p: Option<Vec<i64, A>>,
    a_i: Option<Vec<i64, A>>,
    hold: Option<Vec<bool, A>>,
    permutation: Option<Vec<i64, A>>,
    room: Option<i64>,
}

/// Fills a slot that is empty.
fn fill<T: Drop>(slot: &mut Option<T>, value: T) -> Result<(), CaseFault>
    ensures filled { OnOk result ((slot.old ≡ None) × (slot.new ≡ Some value)) }
    ensures taken { IfErr result (λ e. (e ≡ fault.Repeated) × IsSome slot.old) }
{
    if slot.is_some() {
        return Err(CaseFault::Repeated);
    }
    *slot = Some(value);
    Ok(())
}

impl<A: Allocator> Draft<A> {
    /// A case of which only the number is known.
    pub(crate) fn new(number: i64) -> Draft<A>
        ensures { result ≡ record {
          number = number;
          n = None;
          dense = None;
          aggressive = None;
          a_p = None;
          a_i = None;
          hold = None;
          permutation = None;
          room = None;
        } }
    {
        Draft {
            number,
            n: None,
            dense: None,
            aggressive: None,
            a_p: None,
            a_i: None,
            hold: None,
            permutation: None,
            room: None,
        }
    }

    /// Takes an item in. `Repeated` comes exactly where an item of the same keyword was there, and `Inside` for a
    /// `CASE`. The contract says nothing of the fault.
    pub(crate) fn add(&mut self, item: Item<A>) -> Result<(), CaseFault>
        requires { item_keyword item ≢ key.End }
        ensures adds { OnOk result (Adds self.old self.new item) }
        ensures fewer { OnOk result (free_slots self.new + 1 ≡ free_slots self.old) }
    {
        match item {
            Item::Case(_) => Err(CaseFault::Inside),
            Item::Size(n) => fill(&mut self.n, n),
            Item::Dense(dense) => fill(&mut self.dense, dense),
            Item::Aggressive(aggressive) => fill(&mut self.aggressive, aggressive),
            Item::Pointers(a_p) => fill(&mut self.a_p, a_p),
            Item::Rows(a_i) => fill(&mut self.a_i, a_i),
            Item::Hold(hold) => fill(&mut self.hold, hold),
            Item::Permutation(permutation) => fill(&mut self.permutation, permutation),
            Item::Room(room) => fill(&mut self.room, room),
            Item::End => unreachable!(),
        }
    }

    /// The case, where it has all that it must have.
    pub(crate) fn finish(self) -> Result<Case<A>, CaseFault>
        ensures { MatchResult result (Finishes self) (λ e. (e ≡ fault.Missing) × (is_complete self ≡ false)) }
    {
        let Draft {
            number,
            n,
            dense,
            aggressive,
            a_p,
            a_i,
            hold,
            permutation,
            room,
        } = self;
        let Some(n) = n else {
            return Err(CaseFault::Missing);
        };
        let Some(a_p) = a_p else {
            return Err(CaseFault::Missing);
        };
        let Some(a_i) = a_i else {
            return Err(CaseFault::Missing);
        };
        Ok(Case {
            number,
            n,
            dense: dense.unwrap_or(DEFAULT_DENSE),
            aggressive: aggressive.unwrap_or(true),
            a_p,
            a_i,
            hold,
            permutation,
            room,
        })
    }
}
