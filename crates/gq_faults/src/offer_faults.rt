// Services that inits offer though they may not.
ghost use Rattle.std.specs.Prelude.{◌≡◌, ◌∷◌, [], ◌++◌, not, OnOk, map};
ghost use Rattle.gq_model.specs.rules.Resolve.{Bad_offer};
ghost use Rattle.gq_model.specs.rules.Resolve as model;
ghost use Rattle.gq_model.specs.texts.Fault_texts.{unresolved_text};
ghost use Rattle.gq_scenario.specs.Component_trees.{nodes_of};
ghost use Rattle.gq_faults.specs.Found_lists.{when};
ghost use Rattle.gq_faults.specs.Scenario_faults.{all_bad_offers, offers_bad};
ghost use Rattle.gq_faults.specs.Found_lines.{lines_found};

use crate::fault_value::{Detail, FaultPart, FoundFault, OfferCause, push_fault};
use crate::hops::{child, near_children, offered};
use crate::meant::near_interfaces;
use crate::path::with_step;
use gq_load::load_fault::LoadFault;
use gq_model::program::Name;
use gq_program::Interfaces;
use gq_resolve::offers::is_offer;
use gq_resolve::resolve_fault::ResolveFault;
use gq_scenario::key::Key;
use gq_scenario::scenario::{Init, Node, Nodes, Scenario};
use gq_toml_places::Step;
use std::alloc::{AllocError, Global};

// Why a child of this name may not be offered for a service: the first reason.
fn cause(
    alloc: Global,
    interfaces: &Interfaces,
    children: &Nodes,
    service: &Name,
    name: &Name,
) -> Result<OfferCause, AllocError> {
    if interfaces.named(service.as_bytes()).is_none() {
        let near = near_interfaces(alloc, interfaces, service.as_bytes())?;
        return Ok(OfferCause::NoInterface(near));
    }
    let copy = name.copied();
    match child(children, name) {
        None => Ok(OfferCause::NoChild(copy, near_children(alloc, children, name)?)),
        Some(Node::Leaf(leaf)) => Ok(OfferCause::Leaf(copy, copied(leaf.provides()))),
        Some(Node::Init(init, _)) => Ok(OfferCause::Init(copy, offered(alloc, init)?)),
    }
}

// The same name, where there is one.
fn copied(name: Option<&Name>) -> Option<Name> {
    match name {
        Some(name) => Some(name.copied()),
        None => None,
    }
}

// An offer of an init, where it is none, at the end of what was found. The way leads to the init.
fn push_offer<'s>(
    alloc: Global,
    found: &mut Vec<FoundFault<'s>>,
    interfaces: &Interfaces,
    init: &Init,
    children: &Nodes,
    offer: &'s (Name, Name),
    way: &[Step<'static>],
) -> Result<(), AllocError>
    ensures { OnOk result (lines_found found.new.items ≡ lines_found found.old.items
        ++ map unresolved_text (when (not (model.is_offer interfaces.now children.now offer.now.0 offer.now.1)) (Bad_offer init.now.name))) }
{
    let (service, name) = offer;
    if is_offer(interfaces, children, service, name) {
        return Ok(());
    }
    let fault = LoadFault::Resolve(ResolveFault::BadOffer(init.name().copied()));
    let offers = with_step(alloc, way, Step::Key(Key::Offers.word()))?;
    let way = with_step(alloc, offers.as_slice(), Step::Key(service.as_str()))?;
    let why = cause(alloc, interfaces, children, service, name)?;
    let detail = Detail::Offer(service.copied(), why);
    push_fault(alloc, found, &fault, way, FaultPart::Key, detail)
}

// Each offer of an init that is none. The way leads to the init.
fn push_offers<'s>(
    alloc: Global,
    found: &mut Vec<FoundFault<'s>>,
    interfaces: &Interfaces,
    init: &'s Init,
    children: &Nodes,
    way: &[Step<'static>],
) -> Result<(), AllocError>
    ensures { OnOk result (lines_found found.new.items ≡ lines_found found.old.items
        ++ map unresolved_text (offers_bad interfaces.now init.now.name children.now init.now.offers)) }
{
    for offer in init.offers() {
        push_offer(alloc, found, interfaces, init, children, offer, way)?;
    }
    Ok(())
}

// The same of each init among these nodes and below them, in preorder. The way leads to their list.
#[cycle(below)]
fn push_below<'s>(
    alloc: Global,
    found: &mut Vec<FoundFault<'s>>,
    interfaces: &Interfaces,
    nodes: &'s [Node],
    list: &[Step<'static>],
) -> Result<(), AllocError>
    ensures { OnOk result (lines_found found.new.items
        ≡ lines_found found.old.items ++ map unresolved_text (all_bad_offers interfaces.now (nodes_of nodes.now))) }
{
    for (index, node) in nodes.iter().enumerate() {
        push_node(alloc, found, interfaces, node, index, list)?;
    }
    Ok(())
}

// The same of a node, which has this number in its list, and of those below it.
#[cycle(below)]
fn push_node<'s>(
    alloc: Global,
    found: &mut Vec<FoundFault<'s>>,
    interfaces: &Interfaces,
    node: &'s Node,
    index: usize,
    list: &[Step<'static>],
) -> Result<(), AllocError>
    ensures { OnOk result (lines_found found.new.items
        ≡ lines_found found.old.items ++ map unresolved_text (all_bad_offers interfaces.now (nodes_of (node.now ∷ [])))) }
{
    match node {
        Node::Leaf(_) => Ok(()),
        Node::Init(init, children) => {
            let way = with_step(alloc, list, Step::Index(index))?;
            push_offers(alloc, found, interfaces, init, children, way.as_slice())?;
            let below = with_step(alloc, way.as_slice(), Step::Key(Key::Start.word()))?;
            push_below(alloc, found, interfaces, children.nodes(), below.as_slice())
        }
    }
}

/// Each offer, inits in preorder, the services of each in the order of their names, that is none.
pub(crate) fn push_bad_offers<'s>(
    alloc: Global,
    found: &mut Vec<FoundFault<'s>>,
    scenario: &'s Scenario,
) -> Result<(), AllocError>
    ensures { OnOk result (lines_found found.new.items
        ≡ lines_found found.old.items ++ map unresolved_text (all_bad_offers scenario.now.interfaces scenario.now.nodes)) }
{
    let list = [Step::Key(Key::Start.word())];
    let nodes = scenario.nodes().nodes();
    push_below(alloc, found, scenario.interfaces(), nodes, &list)
}
