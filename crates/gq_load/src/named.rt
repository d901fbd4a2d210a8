// Leaves by their names.
ghost use Rattle.std.specs.Prelude.{◌≡◌, option_map};
ghost use Rattle.gq_load.specs.Named.{leaf_named};

use gq_model::spelling::same_text;
use gq_resolve::component::Component;
use gq_scenario::scenario::Leaf;

/// The leaf of this name.
pub fn leaf_named<'a>(components: &[Component<'a>], name: &[u8]) -> Option<&'a Leaf>
    ensures { option_map (λ l. l.now) result ≡ leaf_named name.now components.now }
{
    for component in components {
        if same_text(name, component.leaf().name().as_bytes()) {
            return Some(component.leaf());
        }
    }
    None
}
