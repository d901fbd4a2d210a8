// Numbers that are made of names: names with other numbers are other ones, so that a search among many goes over numbers.
ghost use Rattle.std.specs.Prelude.{◌≡◌};
ghost use Rattle.gq_model.specs.machine.Program.{text_eq};
ghost use Rattle.gq_program.specs.Name_keys.{AreWithin, key_of};
ghost use Rattle.gq_resolve.specs.internal.Search_keys.{node_key, keys_of, are_silent};

use gq_model::program::Name;
use gq_model::spelling::same_text;
use gq_program::key_index::KeyIndex;
use gq_program::name_keys::key_of;
use gq_scenario::scenario::{Node, Nodes};

// The number of the service that a node provides; 0 where it provides none.
fn node_key(node: &Node) -> u64
    ensures { result ≡ node_key node.now }
{
    let provided = match node {
        Node::Leaf(leaf) => leaf.provides(),
        Node::Init(..) => None,
    };
    match provided {
        Some(service) => key_of(service.as_bytes()),
        None => 0,
    }
}

// Whether no init among these offers anything.
pub(crate) fn are_silent(siblings: &Nodes) -> bool
    ensures { result ≡ are_silent siblings.now }
{
    for node in siblings.nodes() {
        if let Node::Init(init, _) = node {
            if !init.offers().is_empty() {
                return false;
            }
        }
    }
    true
}

// Where services may stand among these, by the numbers of their names.
pub(crate) fn places_of(siblings: &Nodes) -> KeyIndex
    ensures { AreWithin result (keys_of siblings.now) }
{
    let mut places = KeyIndex::new();
    for (place, node) in siblings.nodes().iter().enumerate() {
        places.put(node_key(node), place);
    }
    places
}
