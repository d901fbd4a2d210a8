// The search for outcomes: choices are taken in each order, depth first.
ghost use Rattle.std.specs.Prelude.{◌≡◌, ◌<◌, ◌≤◌, ◌⊎◌, ◌∷◌, [], true, false, Ok, OnOk, IfOk, IfErr, IfSome, IfNone, length, drop, map, take};
ghost use Rattle.gq_load.specs.Load.{loaded};
ghost use Rattle.gq_model.specs.machine.Scenario.{components};
ghost use Rattle.gq_reports.specs.Command_outcomes.{GivesOf};
ghost use Rattle.gq_outcomes.specs.Outcomes as spec;
ghost use Rattle.gq_outcomes.specs.Outcomes.{outcomes};
ghost use Rattle.gq_outcomes.specs.internal.Found_outcomes.{outcome_seen};
ghost use Rattle.gq_outcomes.specs.internal.Kept_keys.{kept_key};
ghost use Rattle.gq_outcomes.specs.internal.Open_branches.{visits};
ghost use Rattle.gq_outcomes.specs.internal.Search_states.{ComesBy, ComesTo, Finds, HasLeaves, IsAt, IsAtStack, IsSearch, Notes};
ghost use Rattle.gq_outcomes.specs.internal.Search_states.{arrived, entered, nothing_found, opened, search_at_rest};
ghost use Rattle.gq_outcomes.specs.internal.Walks.{IsOnWay, reached};

use crate::key::key_of;
use crate::text::outcome_text;
use crate::walk::Walk;
use arrayvec::ArrayVec;
use gq_model::limits::GREATEST_LEAVES;
use gq_model::spelling::same_text;
use gq_reports::RunFault;
use gq_scenario::scenario::LeafNo;
use std::alloc::{AllocError, Global};
use std::collections::BTreeSet;

/// How many turns are taken at most, those that are taken again to come back to a world not counted.
pub(crate) const MOST_TURNS: u32 = 10_000_000;

/// An outcome: what leaves that provide nothing wrote and all account lines, and the leaf of each turn that led to it.
#[derive(Drop)]
pub(crate) struct Found {
    pub text: Vec<u8>,
    pub past: Vec<u8>,
}

/// A settled world at choices: how many turns led to it, the leaves that stand at a choice, and how many of them have taken their turn.
#[derive(Drop)]
pub(crate) struct Branch {
    turns: usize,
    leaves: ArrayVec<u8, GREATEST_LEAVES>,
    next: usize,
}

/// A search on the way: the worlds that were seen, the outcomes that were found, how many more turns may be taken, and whether more were wanted.
#[derive(Drop)]
pub(crate) struct Search {
    seen: BTreeSet<Vec<u8>>,
    pub found: Vec<Found>,
    left: u32,
    pub cut: bool,
    // The worlds at choices on the way to the one that is looked at, the first one first.
    branches: Vec<Branch>,
}

impl Branch {
    // The next leaf that takes its turn.
    fn advance(&mut self) -> Option<LeafNo>
        ensures turns { self.new.turns ≡ self.old.turns }
        ensures leaves { self.new.leaves ≡ self.old.leaves }
        ensures leaf { (n : _) → HasLeaves n self.old → IfSome result (λ leaf. leaf < n) }
        ensures next { IfSome result (λ leaf. drop self.old.next self.old.leaves.items ≡ leaf ∷ drop self.new.next self.new.leaves.items) }
        ensures none { IfNone result (drop self.old.next self.old.leaves.items ≡ []) }
    {
        if self.next >= self.leaves.len() {
            return None;
        }
        let leaf = self.leaves[self.next];
        self.next += 1;
        Some(LeafNo::new(u32::from(leaf)))
    }
}

impl Search {
    #[tactic(auto, unfolding(crate::specs::Outcomes::most_turns))]
    fn new(alloc: Global) -> Search
        ensures search { (n : _) → IsSearch n result }
        ensures at { (s : _) (past : _) → IsAt s past result nothing_found [] }
    {
        Search {
            seen: BTreeSet::new(alloc),
            found: Vec::new(alloc),
            left: MOST_TURNS,
            cut: false,
            branches: Vec::new(alloc),
        }
    }

    // Whether an outcome of this text was found.
    fn is_found(&self, text: &[u8]) -> bool
        ensures { result ≡ spec.is_found text.now (map outcome_seen self.now.found.items) }
    {
        for found in self.found.as_slice() {
            if same_text(found.text.as_slice(), text) {
                return true;
            }
        }
        false
    }

    // A world at rest: its outcome, unless one of the same text was found.
    fn put_outcome(&mut self, alloc: Global, walk: &Walk) -> Result<(), AllocError>
        requires walk { IsOnWay walk.now.world.scenario walk.now }
        requires search { IsSearch (length (components walk.now.world.scenario)) self.old }
        ensures search { OnOk result (IsSearch (length (components walk.now.world.scenario)) self.new) }
        ensures left { self.new.left ≡ self.old.left }
        ensures at { (t : _) (branches : _) → IsAt walk.now.world.scenario walk.now.past.items self.old t branches
            → OnOk result (IsAt walk.now.world.scenario walk.now.past.items self.new
            (search_at_rest walk.now.world.scenario walk.now.past.items t) branches) }
    {
        let text = outcome_text(alloc, &walk.world, walk.said.as_slice())?;
        if self.is_found(text.as_slice()) {
            return Ok(());
        }
        let past = Vec::from_slice(alloc, walk.past.as_slice())?;
        self.found.push(Found { text, past })?;
        Ok(())
    }

    // A settled world that was not seen: an outcome, or the choices in it.
    fn enter(&mut self, alloc: Global, walk: &Walk) -> Result<(), AllocError>
        requires walk { IsOnWay walk.now.world.scenario walk.now }
        requires search { IsSearch (length (components walk.now.world.scenario)) self.old }
        ensures search { OnOk result (IsSearch (length (components walk.now.world.scenario)) self.new) }
        ensures left { self.new.left ≡ self.old.left }
        ensures opened { (t : _) (branches : _) → IsAt walk.now.world.scenario walk.now.past.items self.old t branches
            → OnOk result (IsAtStack walk.now.world.scenario walk.now.past.items self.new
            (opened walk.now.world.scenario walk.now.past.items t) branches) }
    {
        let leaves = walk.choices.leaves(walk.world.machine());
        if leaves.is_empty() {
            return self.put_outcome(alloc, walk);
        }
        self.branches.push(Branch {
            turns: walk.past.len(),
            leaves,
            next: 0,
        })?;
        Ok(())
    }

    // Notes that the world of this key was seen. Returns whether it was not seen before.
    fn note(&mut self, key: Vec<u8>) -> Result<bool, AllocError>
        ensures search { (n : _) → IsSearch n self.old → IsSearch n self.new }
        ensures left { self.new.left ≡ self.old.left }
        ensures notes { (s : _) (past : _) (k : _) (t : _) (branches : _) → key.items ≡ kept_key k → IsAt s past self.old t branches
            → IfOk result (λ is_new. Notes is_new s past self.new k t branches) }
    {
        let is_new = self.seen.insert(key)?;
        Ok(is_new)
    }

    // Goes into a settled world, unless it was seen.
    fn enter_new(&mut self, alloc: Global, walk: &Walk) -> Result<(), AllocError>
        requires walk { IsOnWay walk.now.world.scenario walk.now }
        requires search { IsSearch (length (components walk.now.world.scenario)) self.old }
        ensures search { OnOk result (IsSearch (length (components walk.now.world.scenario)) self.new) }
        ensures left { self.new.left ≡ self.old.left }
        ensures entered { (t : _) (branches : _) → IsAt walk.now.world.scenario walk.now.past.items self.old t branches
            → OnOk result (IsAtStack walk.now.world.scenario walk.now.past.items self.new
            (entered walk.now.world.scenario walk.now.past.items t) branches) }
    {
        let key = key_of(alloc, walk.world.machine(), walk.said.as_slice())?;
        let is_new = self.note(key)?;
        if is_new {
            self.enter(alloc, walk)
        } else {
            Ok(())
        }
    }

    // Settles a world, and goes into it, unless it was seen.
    fn arrive(&mut self, alloc: Global, walk: &mut Walk) -> Result<(), AllocError>
        requires walk { IsOnWay walk.old.world.scenario walk.old }
        requires search { IsSearch (length (components walk.old.world.scenario)) self.old }
        ensures walk { OnOk result (IsOnWay walk.old.world.scenario walk.new) }
        ensures search { OnOk result (IsSearch (length (components walk.old.world.scenario)) self.new) }
        ensures left { OnOk result (self.new.left ≤ self.old.left) }
        ensures arrived { (t : _) (branches : _) → IsAt walk.old.world.scenario walk.old.past.items self.old t branches
            → OnOk result (IsAtStack walk.old.world.scenario walk.new.past.items self.new
            (arrived walk.old.world.scenario walk.old.past.items t) branches) }
    {
        let left = walk.settle(self.left)?;
        self.left = left;
        if walk.choices.some_settle(walk.world.machine()) {
            self.cut = true;
            return Ok(());
        }
        self.enter_new(alloc, walk)
    }

    // The next choice at the last branch, with the number of turns before it. If there is none, the branch is given up.
    fn next_at_last(&mut self) -> Option<(usize, LeafNo)>
        requires some { 0 < length self.old.branches.items }
        ensures search { (n : _) → IsSearch n self.old → IsSearch n self.new }
        ensures leaf { (n : _) → IsSearch n self.old → IfSome result (λ r. r.1 < n) }
        ensures left { self.new.left ≡ self.old.left }
        ensures cut { self.new.cut ≡ self.old.cut }
        ensures fewer { IfNone result (length self.new.branches.items < length self.old.branches.items) }
        ensures none { (s : _) (past : _) (u : _) → ComesTo s past self.old u → IfNone result (ComesTo s past self.new u) }
        ensures next { (s : _) (past : _) (u : _) → ComesTo s past self.old u → IfSome result (λ r. ComesBy s past self.new r.0 r.1 u) }
    {
        let last = self.branches.len() - 1;
        let turns = self.branches[last].turns;
        match self.branches[last].advance() {
            Some(leaf) => Some((turns, leaf)),
            None => {
                self.branches.truncate(last);
                None
            }
        }
    }

    // The next choice that is open, with the number of turns before it; branches with none are given up.
    fn next_choice(&mut self) -> Option<(usize, LeafNo)>
        ensures search { (n : _) → IsSearch n self.old → IsSearch n self.new }
        ensures leaf { (n : _) → IsSearch n self.old → IfSome result (λ r. r.1 < n) }
        ensures left { self.new.left ≡ self.old.left }
        ensures cut { self.new.cut ≡ self.old.cut }
        ensures none { (s : _) (past : _) (u : _) → ComesTo s past self.old u → IfNone result (Finds self.new u) }
        ensures next { (s : _) (past : _) (u : _) → ComesTo s past self.old u → IfSome result (λ r. ComesBy s past self.new r.0 r.1 u) }
    {
        while !self.branches.is_empty() {
            if let Some(next) = self.next_at_last() {
                return Some(next);
            }
        }
        None
    }

    // A leaf that stands at a choice after so many turns takes its turn, if one is left.
    fn choose(
        &mut self,
        alloc: Global,
        scenario: &[u8],
        walk: &mut Walk,
        turns: usize,
        leaf: LeafNo,
    ) -> Result<(), RunFault<'static>>
        requires walk { IsOnWay walk.old.world.scenario walk.old }
        requires loaded { loaded scenario.now ≡ Ok walk.old.world.scenario }
        requires search { IsSearch (length (components walk.old.world.scenario)) self.old }
        requires leaf { leaf < length (components walk.old.world.scenario) }
        requires on { self.old.cut ≡ false }
        ensures walk { OnOk result (IsOnWay walk.old.world.scenario walk.new) }
        ensures search { OnOk result (IsSearch (length (components walk.old.world.scenario)) self.new) }
        ensures fewer { OnOk result ((self.new.cut ≡ true) ⊎ (self.new.left < self.old.left)) }
        ensures comes { (u : _) → ComesBy walk.old.world.scenario walk.old.past.items self.old turns leaf u
            → OnOk result (ComesTo walk.old.world.scenario walk.new.past.items self.new u) }
        ensures refused { IfErr result (λ fault. GivesOf fault scenario.now) }
    {
        if self.left == 0 {
            self.cut = true;
            return Ok(());
        }
        go_back(alloc, scenario, walk, turns)?;
        walk.take_turn(leaf)?;
        self.left -= 1;
        self.arrive(alloc, walk)?;
        Ok(())
    }

    // Takes all choices that are open.
    fn take_choices(
        &mut self,
        alloc: Global,
        scenario: &[u8],
        walk: &mut Walk,
    ) -> Result<(), RunFault<'static>>
        requires walk { IsOnWay walk.old.world.scenario walk.old }
        requires loaded { loaded scenario.now ≡ Ok walk.old.world.scenario }
        requires search { IsSearch (length (components walk.old.world.scenario)) self.old }
        ensures walk { OnOk result (IsOnWay walk.old.world.scenario walk.new) }
        ensures search { OnOk result (IsSearch (length (components walk.old.world.scenario)) self.new) }
        ensures finds { (u : _) → ComesTo walk.old.world.scenario walk.old.past.items self.old u → OnOk result (Finds self.new u) }
        ensures refused { IfErr result (λ fault. GivesOf fault scenario.now) }
    {
        while !self.cut {
            let Some(next) = self.next_choice() else {
                return Ok(());
            };
            self.choose(alloc, scenario, walk, next.0, next.1)?;
        }
        Ok(())
    }

    // Visits a world, and takes all choices from it on.
    fn run(
        &mut self,
        alloc: Global,
        scenario: &[u8],
        walk: &mut Walk,
    ) -> Result<(), RunFault<'static>>
        requires walk { IsOnWay walk.old.world.scenario walk.old }
        requires loaded { loaded scenario.now ≡ Ok walk.old.world.scenario }
        requires search { IsSearch (length (components walk.old.world.scenario)) self.old }
        ensures walk { OnOk result (IsOnWay walk.old.world.scenario walk.new) }
        ensures search { OnOk result (IsSearch (length (components walk.old.world.scenario)) self.new) }
        ensures finds { (t : _) → t.cut ≡ false → IsAt walk.old.world.scenario walk.old.past.items self.old t []
            → OnOk result (Finds self.new (visits (spec.explored walk.old.world.scenario) (reached walk.old.world.scenario walk.old.past.items) t)) }
        ensures refused { IfErr result (λ fault. GivesOf fault scenario.now) }
    {
        self.arrive(alloc, walk)?;
        self.take_choices(alloc, scenario, walk)
    }
}

// Comes back to the world after so many of the turns, unless it is there.
fn go_back(
    alloc: Global,
    scenario: &[u8],
    walk: &mut Walk,
    turns: usize,
) -> Result<(), RunFault<'static>>
    requires walk { IsOnWay walk.old.world.scenario walk.old }
    requires loaded { loaded scenario.now ≡ Ok walk.old.world.scenario }
    ensures walk { OnOk result (IsOnWay walk.old.world.scenario walk.new) }
    ensures past { OnOk result (walk.new.past.items ≡ take turns walk.old.past.items) }
    ensures refused { IfErr result (λ fault. GivesOf fault scenario.now) }
{
    if walk.past.len() == turns {
        return Ok(());
    }
    walk.come_back(alloc, scenario, turns)
}

/// The outcomes of the scenario of a text, from a world at its start. Refused only if the host refuses memory.
pub(crate) fn search_all(
    alloc: Global,
    scenario: &[u8],
    walk: &mut Walk,
) -> Result<Search, RunFault<'static>>
    requires walk { IsOnWay walk.old.world.scenario walk.old }
    requires loaded { loaded scenario.now ≡ Ok walk.old.world.scenario }
    requires start { walk.old.past.items ≡ [] }
    ensures walk { OnOk result (IsOnWay walk.old.world.scenario walk.new) }
    ensures search { IfOk result (λ s. IsSearch (length (components walk.old.world.scenario)) s) }
    ensures finds { IfOk result (λ s. Finds s (outcomes walk.old.world.scenario)) }
    ensures refused { IfErr result (λ fault. GivesOf fault scenario.now) }
{
    let mut search = Search::new(alloc);
    search.run(alloc, scenario, walk)?;
    Ok(search)
}
