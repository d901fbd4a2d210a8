// The numbers of leaves by their names, of which many are asked for.
ghost use Rattle.std.specs.Prelude.{◌≡◌, ◌<◌, ◌^◌, length};
ghost use Rattle.gq_model.specs.machine.Routes.{numbered};
ghost use Rattle.gq_program.specs.Name_keys.{AreWithin};
ghost use Rattle.gq_resolve.specs.internal.Search_keys.{name_keys};

use crate::component::Component;
use gq_model::program::Name;
use gq_model::spelling::same_text;
use gq_program::key_index::KeyIndex;
use gq_program::name_keys::key_of;
use gq_scenario::scenario::LeafNo;
use std::marker::Model;

// Where leaves may stand among these, by the numbers of their names.
fn places_of(components: &[Component<'_>]) -> KeyIndex
    ensures { AreWithin result (name_keys components.now) }
{
    let mut places = KeyIndex::new();
    for (place, component) in components.iter().enumerate() {
        places.put(key_of(component.leaf().name().as_bytes()), place);
    }
    places
}

/// The leaves of a scenario, in preorder, to be found by their names; where they may stand is given by numbers that are made of these.
#[derive(Drop)]
pub struct LeafNames<'l, 'a> {
    components: &'l [Component<'a>],
    places: KeyIndex,
}

impl<'l, 'a> Model for LeafNames<'l, 'a> {
    ghost use Rattle.std.specs.Prelude.{List};
    ghost use Rattle.std.specs.Coded.{codes};
    ghost use Rattle.gq_model.specs.machine.Scenario.{Component};
    ghost use Rattle.gq_model.specs.internal.Stored.{statements_code, nodes_code};
    ghost use Rattle.gq_program.specs.Name_keys.{AreWithin};
    ghost use Rattle.gq_resolve.specs.internal.Search_keys.{name_keys};

    ghost Value = { List Component };

    ghost coded = { Prim.hlevel (
      codes,
      statements_code (Prim.hlevel codes),
      nodes_code (Prim.hlevel (codes, statements_code (Prim.hlevel codes))) (Prim.hlevel codes),
    ) };

    ghost view = { λ n. n.components.now };

    ghost invariant = { λ n. AreWithin n.places (name_keys n.components.now) };
}

impl<'l, 'a> LeafNames<'l, 'a> {
    /// These leaves. It allocates no host memory.
    pub fn new(components: &'l [Component<'a>]) -> LeafNames<'l, 'a>
        ensures { result ≡ components.now }
    {
        LeafNames {
            components,
            places: places_of(components),
        }
    }

    /// The number of the leaf of this name.
    pub fn numbered(&self, name: &Name) -> Option<LeafNo>
        requires { length self.now < 2 ^ 32 }
        ensures { result ≡ numbered 0 name.now self.now }
    {
        let key = key_of(name.as_bytes());
        let (first, end) = self.places.range(key, self.components.len());
        for place in first..end {
            if same_text(
                name.as_bytes(),
                self.components[place].leaf().name().as_bytes(),
            ) {
                return Some(LeafNo::new(place as u32));
            }
        }
        None
    }
}
