ghost use Rattle.std.specs.Prelude.{◌≡◌, ◌<◌, ◌↔◌, ◌⊎◌, [], IfOk, IsErrOf, IsTrue};
ghost use Rattle.cos_patterns.specs.Found.{IsPatternOf, IsUnreadable};
ghost use Rattle.cos_patterns.specs.Makers.{IsAddressOf, IsNoAddress, IsRefusedForSize, large_after, unread_after};
ghost use Rattle.cos_patterns.specs.Written.{written};

use crate::{Asked, CrateMaker, MakeError, Maker};
use cos_outside::Calls;
use regex::Regex;
use std::alloc::Global;
use url::Url;

// How many calls were made, and which are to be answered `TooLarge`.
#[derive(Drop)]
pub(crate) struct Plan {
    calls: u64,
    listed: Calls,
}

impl Plan {
    ghost use Rattle.cos_patterns.specs.Plan.{IsListedNext, CountsCall, IsNewPlan};

    fn new(listed: Calls) -> Plan
        ensures { IsNewPlan result listed }
    {
        Plan { calls: 0, listed }
    }

    // Counts one more call, and says whether it is listed.
    fn next_is_listed(&mut self) -> bool
        ensures listed { IsTrue result ↔ IsListedNext self.old }
        ensures counted { CountsCall self.old self.new }
    {
        self.calls = self.calls.saturating_add(1);
        self.listed.as_slice().contains(&self.calls)
    }
}

/// A maker for tests, which finds the text of each listed call too large and works like `CrateMaker` else.
///
/// The calls of `pattern` and `address` are counted together, from 1.
#[derive(Drop)]
pub struct ListedMaker {
    maker: CrateMaker,
    plan: Plan,
}

impl ListedMaker {
    ghost use Rattle.cos_patterns.specs.ListedMaker.{plan_of};
    ghost use Rattle.cos_patterns.specs.Plan.{IsNewPlan};

    /// A maker that refused nothing yet, and finds the texts of the calls in `large` too large.
    pub fn new(alloc: Global, large: Calls) -> ListedMaker
        ensures large { ⟦<ListedMaker as Maker>⟧.large result ≡ [] }
        ensures unread { ⟦<ListedMaker as Maker>⟧.unread result ≡ [] }
        ensures plan { IsNewPlan (plan_of result) large }
    {
        ListedMaker {
            maker: CrateMaker::new(alloc),
            plan: Plan::new(large),
        }
    }
}

impl Maker for ListedMaker {
    ghost use Rattle.cos_patterns.specs.ListedMaker.{large_of, unread_of, plan_of};
    ghost use Rattle.cos_patterns.specs.Plan.{IsListedNext, CountsCall};

    ghost large = { large_of };

    ghost unread = { unread_of };

    ghost asks = { λ old asked new. CountsCall (plan_of old) (plan_of new) };

    fn pattern(&mut self, text: &str, flags: u8) -> Result<Regex, MakeError>
        requires { flags < 8 }
        ensures ok { IfOk result (IsPatternOf text.now flags) }
        ensures unreadable { IsErrOf result MakeError.Unreadable → IsUnreadable text.now flags }
        ensures large { large_of self.new ≡ large_after result (Asked.Pattern (written text.now flags)) (large_of self.old) }
        ensures unread { unread_of self.new ≡ unread_after result (written text.now flags) (unread_of self.old) }
        ensures listed { IsListedNext (plan_of self.old) → IsRefusedForSize result }
        ensures counted { CountsCall (plan_of self.old) (plan_of self.new) }
    {
        if self.plan.next_is_listed() {
            self.maker.note_large_pattern(text, flags)?;
            return Err(MakeError::TooLarge);
        }
        self.maker.pattern(text, flags)
    }

    fn address(&mut self, text: &str) -> Result<Url, MakeError>
        ensures ok { IfOk result (IsAddressOf text.now) }
        ensures unreadable { IsErrOf result MakeError.Unreadable → IsNoAddress text.now }
        ensures large { large_of self.new ≡ large_after result (Asked.Address text.now) (large_of self.old) }
        ensures unread { unread_of self.new ≡ unread_of self.old }
        ensures listed { IsListedNext (plan_of self.old) → IsRefusedForSize result }
        ensures counted { CountsCall (plan_of self.old) (plan_of self.new) }
    {
        if self.plan.next_is_listed() {
            self.maker.note_large_address(text)?;
            return Err(MakeError::TooLarge);
        }
        self.maker.address(text)
    }
}
