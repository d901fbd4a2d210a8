// A world on the way: its turns, and what leaves that provide nothing have written.
ghost use Rattle.std.specs.Prelude.{◌≡◌, ◌<◌, ◌≤◌, ◌++◌, ◌∷◌, [], Ok, OnOk, IfOk, IfErr, List, length, map, take};
ghost use Rattle.gq_laws.specs.Ready.{IsReady};
ghost use Rattle.gq_load.specs.Load.{loaded};
ghost use Rattle.gq_model.specs.machine.Doing.{Line};
ghost use Rattle.gq_model.specs.machine.Scenario.{Component, components, system};
ghost use Rattle.gq_reports.specs.Command_outcomes.{GivesOf};
ghost use Rattle.gq_outcomes.specs.Outcomes as spec;
ghost use Rattle.gq_outcomes.specs.Outcomes.{explored, first_point, while_settling};
ghost use Rattle.gq_outcomes.specs.internal.Choosing.{AreChoices};
ghost use Rattle.gq_outcomes.specs.internal.Walks.{Comes, IsOnWay, IsWalk, PutsLine, StandsAt, Steps, said_of};

use crate::choices::Choices;
use crate::racy::racy_servers;
use arrayvec::ArrayVec;
use gq_load::read::read_laws;
use gq_machine::event::Event;
use gq_output::leaf_line::text_line;
use gq_reports::RunFault;
use gq_resolve::NodeTable;
use gq_scenario::scenario::LeafNo;
use gq_views::table_leaf::TableLeaf;
use gq_world::world::World;
use std::alloc::{AllocError, Global};
use std::mem::replace;

/// A world that turns have led to from the start of a scenario.
#[derive(Drop)]
pub(crate) struct Walk {
    pub world: World,
    pub choices: Choices,
    /// For each leaf, the lines that it has written, if it provides nothing.
    pub said: Vec<Vec<u8>>,
    /// The leaf of each turn.
    pub past: Vec<u8>,
}

// No lines, of each leaf.
fn no_lines(alloc: Global, count: usize) -> Result<Vec<Vec<u8>>, AllocError>
    ensures count { IfOk result (λ r. length r.items ≡ count) }
    ensures none { (all : List Component) → length all ≡ count → IfOk result (λ r. map (λ v. v.items) r.items ≡ spec.no_lines all) }
{
    let mut said = Vec::new(alloc);
    for _leaf in 0..count {
        said.push(Vec::new(alloc))?;
    }
    Ok(said)
}

// The choices of a scenario, and no lines of each leaf.
fn start_parts(alloc: Global, table: &NodeTable) -> Result<(Choices, Vec<Vec<u8>>), AllocError>
    requires { IsReady table.now }
    ensures choices { IfOk result (λ p. AreChoices table.now p.0) }
    ensures count { IfOk result (λ p. length p.1.items ≡ length (components table.now)) }
    ensures none { IfOk result (λ p. map (λ v. v.items) p.1.items ≡ spec.no_lines (components table.now)) }
{
    let racy = racy_servers(alloc, table)?;
    let choices = Choices::new(alloc, table, racy)?;
    let said = no_lines(alloc, table.leaf_count())?;
    Ok((choices, said))
}

impl Walk {
    /// The start of the scenario of a text. Refused as `World::load` refuses it.
    pub(crate) fn new(alloc: Global, scenario: &[u8]) -> Result<Walk, RunFault<'static>>
        ensures walk { IfOk result (λ w. IsOnWay w.world.scenario w) }
        ensures loaded { IfOk result (λ w. loaded scenario.now ≡ Ok w.world.scenario) }
        ensures past { IfOk result (λ w. w.past.items ≡ []) }
        ensures refused { IfErr result (λ fault. GivesOf fault scenario.now) }
    {
        read_laws();
        let world = World::load(alloc, scenario)?;
        match start_parts(alloc, world.table()) {
            Ok(parts) => Ok(Walk {
                world,
                choices: parts.0,
                said: parts.1,
                past: Vec::new(alloc),
            }),
            Err(_) => {
                world.end();
                Err(RunFault::Memory)
            }
        }
    }

    // What a leaf has said is put behind its lines, if it provides nothing.
    fn put_line(&mut self, leaf: LeafNo, text: &[u8]) -> Result<(), AllocError>
        requires walk { IsWalk self.old.world.scenario self.old }
        requires leaf { leaf < length (components self.old.world.scenario) }
        requires text { length text.now ≤ 64 }
        ensures walk { OnOk result (IsWalk self.old.world.scenario self.new) }
        ensures past { self.new.past ≡ self.old.past }
        ensures puts { OnOk result (PutsLine self.old self.new leaf (Line text.now)) }
    {
        let own = TableLeaf::new(self.world.table(), leaf);
        if own.provides().is_some() {
            return Ok(());
        }
        let line = text_line(own.label(), text);
        self.said[leaf.index()].extend_from_slice(line.as_slice())
    }

    // A turn of a leaf, which is not put behind the others.
    fn step(&mut self, leaf: LeafNo) -> Result<(), AllocError>
        requires walk { IsWalk self.old.world.scenario self.old }
        requires leaf { leaf < length (components self.old.world.scenario) }
        ensures walk { OnOk result (IsWalk self.old.world.scenario self.new) }
        ensures past { OnOk result (self.new.past ≡ self.old.past) }
        ensures steps { OnOk result (Steps self.old.world.scenario self.old self.new leaf) }
    {
        let mut text = ArrayVec::new();
        match self.world.step(leaf, &mut text) {
            Event::Line => self.put_line(leaf, text.as_slice()),
            Event::Idle | Event::Quiet | Event::Finished => Ok(()),
        }
    }

    /// A turn of a leaf. Refused only if the host refuses memory.
    pub(crate) fn take_turn(&mut self, leaf: LeafNo) -> Result<(), AllocError>
        requires walk { IsOnWay self.old.world.scenario self.old }
        requires leaf { leaf < length (components self.old.world.scenario) }
        ensures walk { OnOk result (IsOnWay self.old.world.scenario self.new) }
        ensures past { OnOk result (self.new.past.items ≡ self.old.past.items ++ leaf ∷ []) }
    {
        let _leaves = self.world.table().leaf_count();
        self.past.push(leaf.number() as u8)?;
        self.step(leaf)
    }

    // All turns once more.
    fn repeat(&mut self) -> Result<(), AllocError>
        requires walk { IsWalk self.old.world.scenario self.old }
        requires start { StandsAt self.old (first_point (system self.old.world.scenario)) }
        ensures walk { OnOk result (IsOnWay self.old.world.scenario self.new) }
        ensures past { OnOk result (self.new.past ≡ self.old.past) }
    {
        for place in 0..self.past.len() {
            let leaf = LeafNo::new(u32::from(self.past[place]));
            self.step(leaf)?;
        }
        Ok(())
    }

    // Nothing was said.
    fn forget_lines(&mut self)
        requires walk { IsWalk self.old.world.scenario self.old }
        ensures walk { IsWalk self.old.world.scenario self.new }
        ensures world { self.new.world ≡ self.old.world }
        ensures past { self.new.past ≡ self.old.past }
        ensures said { said_of self.new ≡ spec.no_lines (components self.old.world.scenario) }
    {
        for place in 0..self.said.len() {
            self.said[place].truncate(0);
        }
    }

    /// Comes back to the world after so many of the turns, from the start of the scenario.
    pub(crate) fn come_back(
        &mut self,
        alloc: Global,
        scenario: &[u8],
        count: usize,
    ) -> Result<(), RunFault<'static>>
        requires walk { IsWalk self.old.world.scenario self.old }
        requires loaded { loaded scenario.now ≡ Ok self.old.world.scenario }
        ensures walk { OnOk result (IsOnWay self.old.world.scenario self.new) }
        ensures past { OnOk result (self.new.past.items ≡ take count self.old.past.items) }
        ensures refused { IfErr result (λ fault. GivesOf fault scenario.now) }
    {
        let world = World::load(alloc, scenario)?;
        replace(&mut self.world, world).end();
        self.forget_lines();
        self.past.truncate(count);
        self.repeat()?;
        Ok(())
    }

    // A leaf takes turns, at most so many, as long as it can and is at no choice. Returns how many are left.
    fn settle_leaf(&mut self, leaf: LeafNo, most: u32) -> Result<u32, AllocError>
        requires walk { IsOnWay self.old.world.scenario self.old }
        requires leaf { leaf < length (components self.old.world.scenario) }
        ensures walk { OnOk result (IsOnWay self.old.world.scenario self.new) }
        ensures few { IfOk result (λ left. left ≤ most) }
        ensures comes { IfOk result (λ left. Comes self.old.world.scenario self.old self.new left (λ p. while_settling most (explored self.old.world.scenario)
            leaf p)) }
    {
        let mut left = most;
        while left > 0 {
            if !self.choices.can_settle(self.world.machine(), leaf) {
                return Ok(left);
            }
            self.take_turn(leaf)?;
            left -= 1;
        }
        Ok(left)
    }

    // A round over the leaves. Returns how many turns are left.
    fn settle_round(&mut self, most: u32) -> Result<u32, AllocError>
        requires walk { IsOnWay self.old.world.scenario self.old }
        ensures walk { OnOk result (IsOnWay self.old.world.scenario self.new) }
        ensures few { IfOk result (λ left. left ≤ most) }
        ensures comes { IfOk result (λ left. Comes self.old.world.scenario self.old self.new left
            (λ p. spec.round (explored self.old.world.scenario) 0 (components self.old.world.scenario) (record { point = p; left = most }))) }
    {
        let mut left = most;
        for number in 0..self.world.table().leaf_count() {
            left = self.settle_leaf(LeafNo::new(number as u32), left)?;
        }
        Ok(left)
    }

    /// Rounds over the leaves in preorder, up to one in which no turn is taken, over at most so many turns. Returns how many are left.
    pub(crate) fn settle(&mut self, most: u32) -> Result<u32, AllocError>
        requires walk { IsOnWay self.old.world.scenario self.old }
        ensures walk { OnOk result (IsOnWay self.old.world.scenario self.new) }
        ensures few { IfOk result (λ left. left ≤ most) }
        ensures comes { IfOk result (λ left. Comes self.old.world.scenario self.old self.new left
            (λ p. spec.settled (explored self.old.world.scenario) (record { point = p; left = most }))) }
    {
        let mut left = most;
        loop {
            let next = self.settle_round(left)?;
            if next == left {
                return Ok(left);
            }
            left = next;
        }
    }
}
