// What changes in a text so that its scenario has the least quantities.
// The contract says which quantity has no place or is too large. Whether the new text has the least quantities is found where it is read again (`made`).
ghost use Rattle.std.specs.Prelude.{◌≡◌, ◌∷◌, ◌++◌, [], true, IsTrue, List, ℕ, length, drop, IfOk, IfErr};
ghost use Rattle.gq_model.specs.machine.Amounts.{counts_caps};
ghost use Rattle.gq_model.specs.machine.Amounts as model;
ghost use Rattle.gq_scenario.specs.Component_trees.{nodes_of, version_number};
ghost use Rattle.gq_scenario.specs.declared.key.Key.TheVariants.{Upgrades, UpgradeCaps};
ghost use Rattle.gq_fit.specs.Reasons.{HasNoPlace, IsBeyond, IsDue, SomeOf, both, greatest, of_interface, of_interfaces, of_quanta, of_tree};
ghost use Rattle.gq_fit.specs.Reasons.{of_upgrades, quanta, quantities_by, quantity};
ghost use Rattle.gq_fit.specs.internal.Making.{IsDueError, IsWanting};

use crate::edits::Edit;
use crate::extent::{Value, value_of};
use crate::fit_fault::{MakeError, Misfit};
use crate::quantity_text::push_quantity;
use crate::ways::with_step;
use gq_model::limits::{GREATEST_CAPS, GREATEST_QUANTITY, GREATEST_RAM};
use gq_model::program::Name;
use gq_program::{Interface, Upgrade};
use gq_scenario::key::Key;
use gq_scenario::scenario::{Node, Quantum, Scenario, Version};
use gq_sizes::leasts::{Least, Leasts};
use gq_tariff::Amount;
use gq_toml_places::{SourceMap, Step};
use std::alloc::{AllocError, Global};

/// The number of levels of an interface.
const LEVELS: usize = 4;

/// The greatest number that a key takes.
fn greatest(key: Key) -> u64
    ensures { result ≡ greatest key }
{
    match key {
        Key::Ram => GREATEST_RAM,
        Key::Quantum => GREATEST_QUANTITY,
        Key::Need | Key::Upgrades => u64::from(u32::MAX),
        _ => GREATEST_CAPS,
    }
}

/// The least number is none that a key takes.
fn too_large(key: Key, name: &Name, least: Option<u64>) -> Misfit
    requires { IsBeyond (greatest key) least }
    ensures { (has : ℕ) → IsDue result (quantity key name.now has least ∷ []) }
{
    Misfit::TooLarge {
        key,
        name: name.copied(),
        least,
    }
}

/// The least number, if it is one that the key takes.
fn taken(key: Key, name: &Name, least: Option<u64>) -> Result<u64, Misfit>
    ensures { IfErr result (λ f. (has : ℕ) → IsDue f (quantity key name.now has least ∷ [])) }
{
    let Some(number) = least else {
        return Err(too_large(key, name, None));
    };
    if number > greatest(key) {
        return Err(too_large(key, name, Some(number)));
    }
    Ok(number)
}

/// The bytes and the capabilities of a quantum.
fn amount_of(quantum: Quantum) -> Amount
    ensures { result ≡ quantum }
{
    Amount {
        ram: quantum.ram(),
        caps: u64::from(quantum.caps()),
    }
}

/// The bytes and the capabilities that a client gives at least.
fn need_of(interface: &Interface) -> Amount
    ensures { result ≡ interface.now.need }
{
    Amount {
        ram: u64::from(interface.need()),
        caps: u64::from(interface.given_caps()),
    }
}

/// Fails if a least upgrade is none that its keys take.
fn check_upgrade(version: Version, name: &Name, least: Least) -> Result<(), MakeError>
    ensures { IfErr result (λ e. (has : model.Amount) → IsDueError e (both (version_number version) Upgrades UpgradeCaps name.now has least)) }
{
    taken(Key::Upgrades, name, Some(least.ram))?;
    if version.counts_caps() {
        taken(Key::UpgradeCaps, name, least.caps)?;
    }
    Ok(())
}

/// Fails with the first of the least upgrades that is none that its key takes.
fn check_upgrades(
    version: Version,
    name: &Name,
    upgrades: &[Upgrade],
    least: &[Least],
) -> Result<(), MakeError>
    ensures { IfErr result (λ e. IsDueError e (of_upgrades (version_number version) name.now upgrades.now least.now)) }
{
    let ([_upgrade, more @ ..], [first, others @ ..]) = (upgrades, least) else {
        return Ok(());
    };
    check_upgrade(version, name, *first)?;
    check_upgrades(version, name, more, others)
}

/// Whether some upgrade has other bytes than it needs at least.
fn bytes_differ(upgrades: &[Upgrade], least: &[Least]) -> bool {
    match (upgrades, least) {
        ([upgrade, more @ ..], [first, others @ ..]) => {
            u64::from(upgrade.ram()) != first.ram || bytes_differ(more, others)
        }
        _ => false,
    }
}

/// Whether some upgrade has other capabilities than it needs at least.
fn caps_differ(upgrades: &[Upgrade], least: &[Least]) -> bool {
    match (upgrades, least) {
        ([upgrade, more @ ..], [first, others @ ..]) => {
            first.caps != Some(u64::from(upgrade.caps())) || caps_differ(more, others)
        }
        _ => false,
    }
}

/// Whether an upgrade has no capabilities, and needs some.
fn is_lacking(upgrade: &Upgrade, least: Least) -> bool
    ensures none { IsTrue result → upgrade.now.caps ≡ 0 }
    ensures wanted { IsTrue result → IsWanting least }
{
    upgrade.caps() == 0 && least.caps != Some(0)
}

/// Whether some upgrade has no capabilities, and needs some.
fn lacks_caps(upgrades: &[Upgrade], least: &[Least]) -> bool
    ensures { (version : ℕ) (name : List ℕ) → counts_caps version ≡ true → IsTrue result
        → SomeOf (HasNoPlace UpgradeCaps name) (of_upgrades version name upgrades.now least.now) }
{
    let ([upgrade, more @ ..], [first, others @ ..]) = (upgrades, least) else {
        return false;
    };
    if is_lacking(upgrade, *first) {
        return true;
    }
    lacks_caps(more, others)
}

/// The least capabilities of upgrades have no place, since their key is not written.
fn no_place(name: &Name, upgrades: &[Upgrade], least: &[Least]) -> Misfit
    ensures { (version : ℕ) → counts_caps version ≡ true → IsDue result (of_upgrades version name.now upgrades.now least.now) }
{
    if lacks_caps(upgrades, least) {
        Misfit::NoPlace {
            key: Key::UpgradeCaps,
            name: name.copied(),
        }
    } else {
        Misfit::Differs
    }
}

/// The bytes of the least upgrades, of as many as there are upgrades.
fn least_bytes(alloc: Global, count: usize, least: &[Least]) -> Result<Vec<u64>, AllocError> {
    let mut numbers = Vec::new(alloc);
    for least in least.iter().take(count) {
        numbers.push(least.ram)?;
    }
    Ok(numbers)
}

/// The capabilities of the least upgrades, of as many as there are upgrades.
fn least_caps(alloc: Global, count: usize, least: &[Least]) -> Result<Vec<u64>, AllocError> {
    let mut numbers = Vec::new(alloc);
    for least in least.iter().take(count) {
        numbers.push(least.caps.unwrap_or(0))?;
    }
    Ok(numbers)
}

/// Collects what changes in a text.
#[derive(Drop)]
struct Collector<'t> {
    alloc: Global,
    text: &'t str,
    places: SourceMap<'t>,
    version: Version,
    edits: Vec<Edit>,
}

impl<'t> Collector<'t> {
    /// The value of a key, to whose table a way leads, and where it stands.
    fn value(&self, way: &[Step<'_>], key: Key) -> Result<Option<(usize, Value)>, AllocError> {
        let way = with_step(self.alloc, way, Step::Key(key.word()))?;
        if !self.places.knows(way.as_slice()) {
            return Ok(None);
        }
        let at = self.places.value(way.as_slice());
        let Some(rest) = self.text.get(at..) else {
            return Ok(None);
        };
        match value_of(self.alloc, rest)? {
            Some(value) => Ok(Some((at, value))),
            None => Ok(None),
        }
    }

    /// These bytes are to stand in the place of a value.
    fn replace(&mut self, at: usize, value: &Value, new: Vec<u8>) -> Result<(), AllocError>
        ensures { self.new.version ≡ self.old.version }
    {
        self.edits.push(Edit {
            at,
            end: at.saturating_add(value.length),
            new,
        })?;
        Ok(())
    }

    /// The least number is to stand in the place of a number, to whose table a way leads.
    fn number(
        &mut self,
        way: &[Step<'_>],
        name: &Name,
        key: Key,
        has: u64,
        least: Option<u64>,
    ) -> Result<(), MakeError>
        ensures version { self.new.version ≡ self.old.version }
        ensures due { IfErr result (λ e. IsDueError e (quantity key name.now has least ∷ [])) }
    {
        let number = taken(key, name, least)?;
        if number == has {
            return Ok(());
        }
        let Some((at, value)) = self.value(way, key)? else {
            return Err(MakeError::Misfit(Misfit::Differs));
        };
        let Some(form) = value.forms.first() else {
            return Err(MakeError::Misfit(Misfit::Differs));
        };
        let mut new = Vec::new(self.alloc);
        push_quantity(&mut new, *form, number)?;
        self.replace(at, &value, new)?;
        Ok(())
    }

    /// Numbers are to stand in the place of a list behind a key, to whose table a way leads. Returns whether the key is there.
    fn list(&mut self, way: &[Step<'_>], key: Key, numbers: &[u64]) -> Result<bool, AllocError>
        ensures { self.new.version ≡ self.old.version }
    {
        let Some((at, value)) = self.value(way, key)? else {
            return Ok(false);
        };
        let new = self.spelled_list(&value, numbers)?;
        self.replace(at, &value, new)?;
        Ok(true)
    }

    /// Numbers as a list, each in the form of the one that stands in its place.
    fn spelled_list(&self, value: &Value, numbers: &[u64]) -> Result<Vec<u8>, AllocError> {
        let mut new = Vec::new(self.alloc);
        new.extend_from_slice(b"[")?;
        for (place, (form, number)) in value.forms.iter().zip(numbers).enumerate() {
            if place > 0 {
                new.extend_from_slice(b", ")?;
            }
            push_quantity(&mut new, *form, *number)?;
        }
        new.extend_from_slice(b"]")?;
        Ok(new)
    }

    /// What changes of an amount behind two keys, to whose table a way leads.
    fn amount(
        &mut self,
        way: &[Step<'_>],
        name: &Name,
        key: Key,
        caps_key: Key,
        has: Amount,
        least: Least,
    ) -> Result<(), MakeError>
        ensures version { self.new.version ≡ self.old.version }
        ensures due { IfErr result (λ e. IsDueError e (both (version_number self.old.version) key caps_key name.now has least)) }
    {
        self.number(way, name, key, has.ram, Some(least.ram))?;
        if self.version.counts_caps() {
            self.number(way, name, caps_key, has.caps, least.caps)?;
        }
        Ok(())
    }

    /// What changes of the bytes of upgrades, to whose table a way leads.
    fn upgrade_bytes(
        &mut self,
        way: &[Step<'_>],
        upgrades: &[Upgrade],
        least: &[Least],
    ) -> Result<(), MakeError>
        ensures version { self.new.version ≡ self.old.version }
        ensures due { IfErr result (λ e. IsDueError e []) }
    {
        if !bytes_differ(upgrades, least) {
            return Ok(());
        }
        let numbers = least_bytes(self.alloc, upgrades.len(), least)?;
        if self.list(way, Key::Upgrades, numbers.as_slice())? {
            return Ok(());
        }
        Err(MakeError::Misfit(Misfit::Differs))
    }

    /// What changes of the capabilities of upgrades, to whose table a way leads.
    fn upgrade_caps(
        &mut self,
        way: &[Step<'_>],
        name: &Name,
        upgrades: &[Upgrade],
        least: &[Least],
    ) -> Result<(), MakeError>
        ensures version { self.new.version ≡ self.old.version }
        ensures due { IfErr result (λ e. (version : ℕ) → counts_caps version ≡ true
            → IsDueError e (of_upgrades version name.now upgrades.now least.now)) }
    {
        if !caps_differ(upgrades, least) {
            return Ok(());
        }
        let numbers = least_caps(self.alloc, upgrades.len(), least)?;
        if self.list(way, Key::UpgradeCaps, numbers.as_slice())? {
            return Ok(());
        }
        Err(MakeError::Misfit(no_place(name, upgrades, least)))
    }

    /// What changes of the upgrades of an interface, to whose table a way leads.
    fn upgrades(
        &mut self,
        way: &[Step<'_>],
        name: &Name,
        upgrades: &[Upgrade],
        least: &[Least],
    ) -> Result<(), MakeError>
        ensures version { self.new.version ≡ self.old.version }
        ensures due { IfErr result (λ e. IsDueError e (of_upgrades (version_number self.old.version) name.now upgrades.now least.now)) }
    {
        check_upgrades(self.version, name, upgrades, least)?;
        self.upgrade_bytes(way, upgrades, least)?;
        if self.version.counts_caps() {
            self.upgrade_caps(way, name, upgrades, least)?;
        }
        Ok(())
    }

    /// What changes of an interface, by what its need and its upgrades are at least.
    fn interface(
        &mut self,
        name: &Name,
        interface: &Interface,
        least: &[Least],
    ) -> Result<(), MakeError>
        ensures version { self.new.version ≡ self.old.version }
        ensures due { IfErr result (λ e. IsDueError e (of_interface (version_number self.old.version) name.now interface.now least.now)) }
    {
        let [need, upgrades @ ..] = least else {
            return Ok(());
        };
        let way = [Step::Key(Key::Interface.word()), Step::Key(name.as_str())];
        self.amount(
            &way,
            name,
            Key::Need,
            Key::NeedCaps,
            need_of(interface),
            *need,
        )?;
        self.upgrades(&way, name, interface.upgrades(), upgrades)
    }

    /// What changes of interfaces, by what their needs and upgrades are at least.
    fn interfaces(
        &mut self,
        interfaces: &[(Name, Interface)],
        least: &[[Least; LEVELS]],
    ) -> Result<(), MakeError>
        ensures version { self.new.version ≡ self.old.version }
        ensures due { IfErr result (λ e. IsDueError e (of_interfaces (version_number self.old.version) interfaces.now least.now)) }
    {
        let ([(name, interface), more @ ..], [first, others @ ..]) = (interfaces, least) else {
            return Ok(());
        };
        self.interface(name, interface, first)?;
        self.interfaces(more, others)
    }

    /// What changes of nodes and those in them, the first of which stands at this index of a list to which a way leads, by what they need at least in preorder.
    /// Returns what is left of that.
    #[cycle(nodes)]
    fn nodes<'l>(
        &mut self,
        list: &[Step<'_>],
        index: usize,
        nodes: &[Node],
        least: &'l [Least],
    ) -> Result<&'l [Least], MakeError>
        ensures version { self.new.version ≡ self.old.version }
        ensures due { IfErr result (λ e. IsDueError e (of_quanta (version_number self.old.version) (quanta (nodes_of nodes.now)) least.now)) }
        ensures left { IfOk result (λ left. left.now ≡ drop (length (quanta (nodes_of nodes.now))) least.now) }
    {
        let [node, others @ ..] = nodes else {
            return Ok(least);
        };
        let way = with_step(self.alloc, list, Step::Index(index))?;
        let left = self.node(way.as_slice(), node, least)?;
        self.nodes(list, index.saturating_add(1), others, left)
    }

    /// What changes of a node and those in it, to which a way leads, by what they need at least in preorder. Returns what is left of that.
    #[cycle(nodes)]
    fn node<'l>(
        &mut self,
        way: &[Step<'_>],
        node: &Node,
        least: &'l [Least],
    ) -> Result<&'l [Least], MakeError>
        ensures version { self.new.version ≡ self.old.version }
        ensures due { IfErr result (λ e. IsDueError e (of_quanta (version_number self.old.version) (quanta (nodes_of (node.now ∷ []))) least.now)) }
        ensures left { IfOk result (λ left. left.now ≡ drop (length (quanta (nodes_of (node.now ∷ [])))) least.now) }
    {
        match node {
            Node::Leaf(leaf) => self.quantum(way, leaf.name(), leaf.quantum(), least),
            Node::Init(init, children) => {
                let left = self.quantum(way, init.name(), init.quantum(), least)?;
                let list = with_step(self.alloc, way, Step::Key(Key::Start.word()))?;
                self.nodes(list.as_slice(), 0, children.nodes(), left)
            }
        }
    }

    /// What changes of the quantum of a node, to which a way leads, by what it needs at least, the first of these. Returns what is left of them.
    fn quantum<'l>(
        &mut self,
        way: &[Step<'_>],
        name: &Name,
        quantum: Quantum,
        least: &'l [Least],
    ) -> Result<&'l [Least], MakeError>
        ensures version { self.new.version ≡ self.old.version }
        ensures due { IfErr result (λ e. IsDueError e (of_quanta (version_number self.old.version) ((name.now, quantum) ∷ []) least.now)) }
        ensures left { IfOk result (λ left. left.now ≡ drop 1 least.now) }
    {
        let [first, left @ ..] = least else {
            return Ok(least);
        };
        self.amount(
            way,
            name,
            Key::Quantum,
            Key::Caps,
            amount_of(quantum),
            *first,
        )?;
        Ok(left)
    }

    /// What changes of all nodes, by what they need at least in preorder, the root first.
    fn tree(&mut self, scenario: &Scenario, least: &[Least]) -> Result<(), MakeError>
        requires { version_number self.old.version ≡ scenario.now.version }
        ensures { IfErr result (λ e. IsDueError e (of_tree scenario.now least.now)) }
    {
        let (Some(root), [first, left @ ..]) = (Name::new(b"init"), least) else {
            return Ok(());
        };
        let total = amount_of(scenario.total());
        self.amount(&[], &root, Key::Ram, Key::Caps, total, *first)?;
        let list = [Step::Key(Key::Start.word())];
        self.nodes(&list, 0, scenario.nodes().nodes(), left)?;
        Ok(())
    }
}

/// What changes in the text of a scenario so that it has its least quantities, at the end of other edits.
///
/// Fails with the first quantity, in the order of the lines of `size`, that has no place in the text, or is none that its key takes.
pub(crate) fn with_quantities(
    alloc: Global,
    edits: Vec<Edit>,
    text: &str,
    scenario: &Scenario,
    leasts: &Leasts,
) -> Result<Vec<Edit>, MakeError>
    ensures { IfErr result (λ e. IsDueError e (quantities_by scenario.now leasts.now.interfaces.items leasts.now.nodes.items)) }
{
    let mut collector = Collector {
        alloc,
        text,
        places: SourceMap::read(alloc, text)?,
        version: scenario.version(),
        edits,
    };
    collector.interfaces(
        scenario.interfaces().entries(),
        leasts.interfaces.as_slice(),
    )?;
    collector.tree(scenario, leasts.nodes.as_slice())?;
    Ok(collector.edits)
}
