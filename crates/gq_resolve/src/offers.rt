// Services that inits offer.
ghost use Rattle.std.specs.Prelude.{◌≡◌};
ghost use Rattle.gq_model.specs.rules.Resolve.{child_serves, is_offer, offers_fault, first_bad_offer, offer_fault};
ghost use Rattle.gq_resolve.specs.Resolve_faults.{refused};

use crate::resolve_fault::ResolveFault;
use crate::routing::{is_service, offer_of};
use gq_model::program::Name;
use gq_model::spelling::same_text;
use gq_program::interface::Interfaces;
use gq_scenario::component_tree::copied;
use gq_scenario::scenario::{Init, Node, Nodes, Scenario};

// Whether the child of this name serves a service: it is a leaf that provides it, or an init that offers it.
fn child_serves(name: &Name, service: &Name, children: &Nodes) -> bool
    ensures { result ≡ child_serves name.now service.now children.now }
{
    for node in children.nodes() {
        match node {
            Node::Leaf(leaf) => {
                if same_text(name.as_bytes(), leaf.name().as_bytes()) {
                    return is_service(leaf.provides(), service);
                }
            }
            Node::Init(init, _) => {
                if same_text(name.as_bytes(), init.name().as_bytes()) {
                    return offer_of(init.offers(), service).is_some();
                }
            }
        }
    }
    false
}

/// Whether one of these children may be offered for a service: there is an interface of the service, and the child of this name serves it.
pub fn is_offer(interfaces: &Interfaces, children: &Nodes, service: &Name, child: &Name) -> bool
    ensures { result ≡ is_offer interfaces.now children.now service.now child.now }
{
    interfaces.named(service.as_bytes()).is_some() && child_serves(child, service, children)
}

// Refuses an init with an offer that may not be.
fn check_init(interfaces: &Interfaces, init: &Init, children: &Nodes) -> Result<(), ResolveFault>
    ensures { refused result ≡ offers_fault interfaces.now init.now.name children.now init.now.offers }
{
    for (service, child) in init.offers() {
        if !is_offer(interfaces, children, service, child) {
            return Err(ResolveFault::BadOffer(copied(init.name())));
        }
    }
    Ok(())
}

// Refuses the first of these inits, and of those below them, in preorder that has such an offer.
fn check_below(interfaces: &Interfaces, nodes: &Nodes) -> Result<(), ResolveFault>
    ensures { refused result ≡ first_bad_offer interfaces.now nodes.now }
{
    for node in nodes.nodes() {
        if let Node::Init(init, children) = node {
            check_init(interfaces, init, children)?;
            check_below(interfaces, children)?;
        }
    }
    Ok(())
}

/// Whether each offer of each init is one. There has to be an interface of the service, and the child that is named serves it, as a leaf that provides it or as
/// an init that offers it.
///
/// Refuses the first init in preorder of which that does not hold, `BadOffer`.
pub fn check_offers(scenario: &Scenario) -> Result<(), ResolveFault>
    ensures { refused result ≡ offer_fault scenario.now }
{
    check_below(scenario.interfaces(), scenario.nodes())
}
