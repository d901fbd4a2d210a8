// Scenarios in memory.
ghost use Rattle.std.specs.Prelude.{◌≡◌, ◌<◌, ◌≤◌, ◌+◌, Some, length, slice_get, option_map};
ghost use Rattle.gq_model.specs.machine.Accounts.{leaf_count};
ghost use Rattle.gq_model.specs.machine.Amounts.{amount, counts_caps};
ghost use Rattle.gq_model.specs.texts.Sources.{program_from};
ghost use Rattle.gq_scenario.specs.Given.{source_of};
ghost use Rattle.gq_model.specs.machine.Scenario.{components};
ghost use Rattle.gq_scenario.specs.Scenario_parts.{scenario_made, IsScenario};
ghost use Rattle.gq_scenario.specs.Sizes.{IsQuantum, node_count};
ghost use Rattle.gq_scenario.specs.Targets.{target_of};
ghost use Rattle.gq_scenario.specs.Component_trees.{version_number, nodes_of};

use crate::component_tree::{count_leaves, leaf_from};
use crate::source::Source;
use arrayvec::ArrayVec;
use gq_model::limits::INPUTS;
use gq_model::program::Name;
use gq_program::interface::Interfaces;
use std::marker::Model;

/// The place of a leaf among a scenario's leaves in preorder, from 0.
#[derive(Clone, Copy, PartialEq, Eq)]
pub struct LeafNo {
    place: u32,
}

impl Model for LeafNo {
    ghost use Rattle.std.specs.Prelude.{ℕ};

    ghost Value = { ℕ };

    ghost view = { λ a. a.place };

    ghost inverse = { λ n. record { place = n } };
}

impl LeafNo {
    /// The leaf at this place.
    pub fn new(place: u32) -> LeafNo
        ensures { result ≡ place }
    {
        LeafNo { place }
    }

    /// Its place.
    pub fn number(self) -> u32
        ensures { result ≡ self }
    {
        self.place
    }

    /// Its place, as an index.
    pub fn index(self) -> usize
        ensures { result ≡ self }
    {
        self.number() as usize
    }
}

/// The version of a scenario.
#[derive(Clone, Copy)]
pub enum Version {
    /// RAM alone is counted.
    One,
    /// Capabilities are counted beside RAM.
    Two,
    /// The same as version 2; leaves may have inputs, and inits may offer services.
    Three,
    /// The same as version 3; leaves may have signals.
    Four,
}

impl Version {
    /// Its number.
    pub fn number(self) -> u32
        ensures { result ≡ version_number self }
    {
        match self {
            Version::One => 1,
            Version::Two => 2,
            Version::Three => 3,
            Version::Four => 4,
        }
    }

    /// Whether it counts capabilities.
    pub fn counts_caps(self) -> bool
        ensures { result ≡ counts_caps (version_number self) }
    {
        match self {
            Version::One => false,
            Version::Two | Version::Three | Version::Four => true,
        }
    }
}

/// What a component is given: bytes of RAM, at most 2 to the 40, and capabilities, at most 65536 (0 in version 1).
#[derive(Clone, Copy)]
pub struct Quantum {
    ram: u64,
    caps: u32,
}

impl Model for Quantum {
    ghost use Rattle.gq_model.specs.machine.Amounts.{Amount, amount};
    ghost use Rattle.gq_scenario.specs.Sizes.{IsQuantum, node_count};

    ghost Value = { Amount };

    ghost view = { λ q. amount q.ram q.caps };

    ghost invariant = { λ q. IsQuantum q.ram q.caps };

    ghost inverse = { λ a. record { ram = a.ram; caps = a.caps } };
}

impl Quantum {
    /// So many bytes, and so many capabilities.
    pub fn new(ram: u64, caps: u32) -> Quantum
        requires { IsQuantum ram caps }
        ensures { result ≡ amount ram caps }
    {
        Quantum { ram, caps }
    }

    /// The bytes.
    pub fn ram(self) -> u64
        ensures ram { result ≡ self.ram }
        ensures small { result ≤ 1099511627776 }
    {
        self.ram
    }

    /// The capabilities.
    pub fn caps(self) -> u32
        ensures caps { result ≡ self.caps }
        ensures few { result ≤ 65536 }
    {
        self.caps
    }
}

/// Where a route leads.
#[derive(Drop)]
pub enum Target {
    /// To the child of this name.
    Child(Name),
    /// To the only child that serves the service.
    AnyChild,
    /// Where the route of the init itself leads, at its own init.
    Parent,
}

/// A service, or any, and where it leads.
#[derive(Drop)]
pub struct Route {
    service: Option<Name>,
    target: Target,
}

impl Model for Route {
    ghost use Rattle.gq_model.specs.machine.Scenario.{Route};

    ghost Value = { Route };

    ghost use Rattle.gq_scenario.specs.Targets.{target_of};

    ghost view = { λ r. record { service = r.service; target = target_of r.target } };
}

impl Route {
    /// A route for a service, or for any.
    pub fn new(service: Option<Name>, target: Target) -> Route
        ensures { result ≡ record { service = service; target = target_of target } }
    {
        Route { service, target }
    }

    /// The service; none is any.
    pub fn service(&self) -> Option<&Name>
        ensures { option_map (λ s. s.now) result ≡ self.now.service }
    {
        self.service.as_ref()
    }

    /// Where it leads.
    pub fn target(&self) -> &Target
        ensures { target_of result.now ≡ self.now.target }
    {
        &self.target
    }
}

/// Routes that may be reported.
pub fn reported(routes: &Option<Vec<Route>>) -> Option<&[Route]>
    ensures { option_map (λ r. r.now) result ≡ option_map (λ r. r.items) routes.now }
{
    match routes {
        Some(routes) => Some(routes.as_slice()),
        None => None,
    }
}

/// The greatest value of each input of a leaf, from input 0 on.
pub type Inputs = ArrayVec<u32, INPUTS>;

/// A component with a program.
#[derive(Drop)]
pub struct Leaf {
    name: Name,
    quantum: Quantum,
    source: Source,
    provides: Option<Name>,
    after: Option<Name>,
    inputs: Inputs,
    signals: u8,
    routes: Option<Vec<Route>>,
}

impl Model for Leaf {
    ghost use Rattle.std.specs.Prelude.{◌≤◌, length, option_map};
    ghost use Rattle.std.specs.Coded.{codes};
    ghost use Rattle.gq_model.specs.machine.Scenario.{LeafNode};
    ghost use Rattle.gq_model.specs.texts.Sources.{program_from};
    ghost use Rattle.gq_model.specs.internal.Stored.{statements_code};
    ghost use Rattle.gq_scenario.specs.Given.{source_of};

    ghost Value = { LeafNode };

    ghost coded = { Prim.hlevel (codes, statements_code (Prim.hlevel codes)) };

    ghost view = { λ l. record {
      name = l.name;
      quantum = l.quantum;
      source = source_of l.source;
      program = program_from (source_of l.source);
      provides = l.provides;
      after = l.after;
      inputs = l.inputs.items;
      signals = l.signals;
      routes = option_map (λ r. r.items) l.routes;
    } };

    ghost invariant = { λ l. (length l.inputs.items ≤ 8) × (l.signals ≤ 3) };
}

impl Leaf {
    /// A leaf of these parts.
    pub fn new(
        name: Name,
        quantum: Quantum,
        source: Source,
        provides: Option<Name>,
        after: Option<Name>,
        inputs: Inputs,
        signals: u8,
        routes: Option<Vec<Route>>,
    ) -> Leaf
        requires { signals ≤ 3 }
        ensures { result ≡ record {
          name = name;
          quantum = quantum;
          source = source_of source;
          program = program_from (source_of source);
          provides = provides;
          after = after;
          inputs = inputs.items;
          signals = signals;
          routes = option_map (λ r. r.items) routes;
        } }
    {
        Leaf {
            name,
            quantum,
            source,
            provides,
            after,
            inputs,
            signals,
            routes,
        }
    }

    /// Its name.
    pub fn name(&self) -> &Name
        ensures { result.now ≡ self.now.name }
    {
        &self.name
    }

    /// What it is given.
    pub fn quantum(&self) -> Quantum
        ensures { result ≡ self.now.quantum }
    {
        self.quantum
    }

    /// How its program is given.
    pub fn source(&self) -> &Source
        ensures source { source_of result.now ≡ self.now.source }
        ensures program { self.now.program ≡ program_from self.now.source }
    {
        &self.source
    }

    /// The service that it provides.
    pub fn provides(&self) -> Option<&Name>
        ensures { option_map (λ s. s.now) result ≡ self.now.provides }
    {
        self.provides.as_ref()
    }

    /// The leaf that it starts after.
    pub fn after(&self) -> Option<&Name>
        ensures { option_map (λ s. s.now) result ≡ self.now.after }
    {
        self.after.as_ref()
    }

    /// The greatest values of its inputs, from input 0 on, at most 8. In versions 1 and 2 it has none.
    pub fn inputs(&self) -> &[u32]
        ensures inputs { result.now ≡ self.now.inputs }
        ensures few { length result.now ≤ 8 }
    {
        self.inputs.as_slice()
    }

    /// The same values.
    pub fn copied_inputs(&self) -> Inputs
        ensures { result.items ≡ self.now.inputs }
    {
        let mut copied = ArrayVec::new();
        match copied.try_extend_from_slice(self.inputs()) {
            Ok(()) => copied,
            Err(_) => unreachable!(),
        }
    }

    /// The number of its signals, at most 3. In versions 1 to 3 it has none.
    pub fn signals(&self) -> u8
        ensures signals { result ≡ self.now.signals }
        ensures few { result ≤ 3 }
    {
        self.signals
    }

    /// Its own routes; none are those of its init.
    pub fn routes(&self) -> Option<&[Route]>
        ensures { option_map (λ r. r.now) result ≡ self.now.routes }
    {
        reported(&self.routes)
    }
}

/// The services that an init offers, each with the name of the child that serves it.
pub type Offers = Vec<(Name, Name)>;

/// A component with components below it.
#[derive(Drop)]
pub struct Init {
    name: Name,
    quantum: Quantum,
    routes: Option<Vec<Route>>,
    default_routes: Option<Vec<Route>>,
    offers: Offers,
}

impl Model for Init {
    ghost use Rattle.std.specs.Prelude.{option_map};
    ghost use Rattle.gq_model.specs.machine.Scenario.{InitNode};

    ghost Value = { InitNode };

    ghost view = { λ i. record {
      name = i.name;
      quantum = i.quantum;
      routes = option_map (λ r. r.items) i.routes;
      default_routes = option_map (λ r. r.items) i.default_routes;
      offers = i.offers.items;
    } };
}

impl Init {
    /// An init of these parts.
    pub fn new(
        name: Name,
        quantum: Quantum,
        routes: Option<Vec<Route>>,
        default_routes: Option<Vec<Route>>,
        offers: Offers,
    ) -> Init
        ensures { result ≡ record {
          name = name;
          quantum = quantum;
          routes = option_map (λ r. r.items) routes;
          default_routes = option_map (λ r. r.items) default_routes;
          offers = offers.items;
        } }
    {
        Init {
            name,
            quantum,
            routes,
            default_routes,
            offers,
        }
    }

    /// Its name.
    pub fn name(&self) -> &Name
        ensures { result.now ≡ self.now.name }
    {
        &self.name
    }

    /// What it is given.
    pub fn quantum(&self) -> Quantum
        ensures { result ≡ self.now.quantum }
    {
        self.quantum
    }

    /// Its own routes; none are those of its init.
    pub fn routes(&self) -> Option<&[Route]>
        ensures { option_map (λ r. r.now) result ≡ self.now.routes }
    {
        reported(&self.routes)
    }

    /// The routes of its children that have none of their own.
    pub fn default_routes(&self) -> Option<&[Route]>
        ensures { option_map (λ r. r.now) result ≡ self.now.default_routes }
    {
        reported(&self.default_routes)
    }

    /// The services that it offers, each with the name of the child that serves it. In versions 1 and 2 it has none.
    pub fn offers(&self) -> &[(Name, Name)]
        ensures { result.now ≡ self.now.offers }
    {
        self.offers.as_slice()
    }
}

/// A component.
#[cycle(tree)]
#[derive(Drop)]
pub enum Node {
    /// One with a program.
    Leaf(Leaf),
    /// One with these below it.
    Init(Init, Nodes),
}

/// Components next to one another, with those below them.
#[cycle(tree)]
#[derive(Drop)]
pub struct Nodes {
    nodes: Vec<Node>,
}

impl Model for Nodes {
    ghost use Rattle.std.specs.Coded.{codes};
    ghost use Rattle.gq_model.specs.machine.Scenario.{Nodes};
    ghost use Rattle.gq_model.specs.internal.Stored.{statements_code, nodes_code};
    ghost use Rattle.gq_scenario.specs.Sizes.{node_count};

    ghost Value = { Nodes };

    ghost coded = { nodes_code (Prim.hlevel (codes, statements_code (Prim.hlevel codes))) (Prim.hlevel codes) };

    ghost use Rattle.gq_scenario.specs.Component_trees.{nodes_of};

    ghost view = { λ n. nodes_of n.nodes.items };

    ghost size = { node_count };

    ghost use Rattle.std.proofs.Common.{arith};
    ghost use Rattle.gq_scenario.specs.internal.Smaller_children.{falls};

    ghost size_decreases = { λ n h. omega (arith, falls n.nodes.items) };
}

impl Nodes {
    /// These, in their order.
    pub fn new(nodes: Vec<Node>) -> Nodes
        ensures { result ≡ nodes_of nodes.items }
    {
        Nodes { nodes }
    }

    /// Each, in their order.
    pub fn nodes(&self) -> &[Node]
        ensures { nodes_of result.now ≡ self.now }
    {
        self.nodes.as_slice()
    }
}

/// The parts of a scenario.
#[derive(Drop)]
pub struct Parts {
    pub version: Version,
    pub total: Quantum,
    pub default_routes: Option<Vec<Route>>,
    pub interfaces: Interfaces,
    pub nodes: Nodes,
}

/// A tree of components, with the interfaces of their services. It has at most 64 leaves, 64 inits below the root, 64
/// interfaces and 64 routes in a list, and each name stands once; `init` is the root's. No node is deeper than 4, no leaf has more than 3 signals,
/// and the whole system has whole pages, at most 64 MiB.
#[derive(Drop)]
pub struct Scenario {
    version: Version,
    total: Quantum,
    default_routes: Option<Vec<Route>>,
    interfaces: Interfaces,
    nodes: Nodes,
}

impl Model for Scenario {
    ghost use Rattle.std.specs.Coded.{codes};
    ghost use Rattle.gq_model.specs.machine.Scenario.{Scenario};
    ghost use Rattle.gq_model.specs.internal.Stored.{statements_code, nodes_code};
    ghost use Rattle.gq_scenario.specs.Scenario_parts.{scenario_made, IsScenario};

    ghost Value = { Scenario };

    ghost coded = { Prim.hlevel (codes, nodes_code (Prim.hlevel (codes, statements_code (Prim.hlevel codes))) (Prim.hlevel codes)) };

    ghost view = { λ s. scenario_made s.version s.total s.default_routes s.interfaces s.nodes };

    ghost invariant = { λ s. IsScenario (scenario_made s.version s.total s.default_routes s.interfaces s.nodes) };
}

impl Scenario {
    /// The scenario of these parts.
    pub fn new(parts: Parts) -> Scenario
        requires { IsScenario (scenario_made parts.version parts.total parts.default_routes parts.interfaces parts.nodes) }
        ensures { result ≡ scenario_made parts.version parts.total parts.default_routes parts.interfaces parts.nodes }
    {
        Scenario {
            version: parts.version,
            total: parts.total,
            default_routes: parts.default_routes,
            interfaces: parts.interfaces,
            nodes: parts.nodes,
        }
    }

    /// What every scenario is. It has at most 64 leaves, 64 inits below the root, 64 interfaces and 64 routes in a list. No name stands twice or is the root's,
    /// and no node is deeper than 4. No leaf has more than 3 signals. The whole system has whole pages. It does nothing.
    pub fn laws(&self)
        ensures { IsScenario self.now }
    {
        let _version = self.version;
    }

    /// How many leaves and nodes, the root among them, every scenario has at most. It does nothing.
    pub fn bounds(&self)
        ensures leaves { length (components self.now) ≤ 64 }
        ensures count { leaf_count self.now.nodes ≤ 64 }
        ensures nodes { 1 + node_count self.now.nodes ≤ 129 }
    {
        self.laws();
    }

    /// The number of its leaves, at most 64.
    pub fn leaf_count(&self) -> usize
        ensures count { result ≡ length (components self.now) }
        ensures few { result ≤ 64 }
    {
        match count_leaves(&self.nodes, 0) {
            Some(count) => count,
            None => unreachable!(),
        }
    }

    /// The leaf at a place among the leaves in preorder.
    pub fn leaf(&self, leaf: LeafNo) -> &Leaf
        requires { leaf < length (components self.now) }
        ensures { option_map (λ c. c.node) (slice_get (components self.now) leaf) ≡ Some result.now }
    {
        match leaf_from(&self.nodes, leaf.index()) {
            Ok(leaf) => leaf,
            Err(_) => unreachable!(),
        }
    }

    /// Its version.
    pub fn version(&self) -> Version
        ensures { version_number result ≡ self.now.version }
    {
        self.version
    }

    /// What the whole system has.
    pub fn total(&self) -> Quantum
        ensures { result ≡ self.now.total }
    {
        self.total
    }

    /// The routes of the root's children that have none of their own.
    pub fn default_routes(&self) -> Option<&[Route]>
        ensures { option_map (λ r. r.now) result ≡ self.now.default_routes }
    {
        reported(&self.default_routes)
    }

    /// What services ask of their clients, and give them.
    pub fn interfaces(&self) -> &Interfaces
        ensures { result.now ≡ self.now.interfaces }
    {
        &self.interfaces
    }

    /// The children of the root.
    pub fn nodes(&self) -> &Nodes
        ensures { result.now ≡ self.now.nodes }
    {
        &self.nodes
    }
}
