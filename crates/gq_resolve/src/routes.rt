// Which leaf serves each service that a leaf opens.
ghost use Rattle.std.specs.Prelude.{◌≡◌, ◌<◌, ◌^◌, ◌++◌, ◌∷◌, [], OnOk, IfOk, length, map};
ghost use Rattle.gq_model.specs.machine.Routes.{route, numbered, leaf_routed};
ghost use Rattle.gq_resolve.specs.Served.{servers, server_in, server_at};

use crate::component::Component;
use crate::routing::route;
use gq_model::program::Name;
use gq_model::spelling::same_text;
use gq_program::key_index::KeyIndex;
use gq_program::name_keys::key_of;
use gq_scenario::scenario::LeafNo;
use std::alloc::{AllocError, Global};
use std::marker::Model;

/// The number of the leaf of this name.
pub fn numbered(name: &Name, components: &[Component<'_>]) -> Option<LeafNo>
    requires { length components.now < 2 ^ 32 }
    ensures { result ≡ numbered 0 name.now components.now }
{
    for (place, component) in components.iter().enumerate() {
        if same_text(name.as_bytes(), component.leaf().name().as_bytes()) {
            return Some(LeafNo::new(place as u32));
        }
    }
    None
}

/// The leaf that serves a component's sessions of a service: the one to which its route leads. The components are those of
/// a scenario, in preorder.
pub fn server_of(
    components: &[Component<'_>],
    component: &Component<'_>,
    service: &Name,
) -> Option<LeafNo>
    requires { length components.now < 2 ^ 32 }
    ensures { result ≡ leaf_routed (route component.now.levels service.now) components.now }
{
    match route(component.levels(), service) {
        Ok(name) => numbered(name, components),
        Err(_) => None,
    }
}

/// Services of a leaf, each with the leaf that serves it. Where a service may stand is given by the number of its name.
#[derive(Drop)]
pub struct LeafRoutes {
    entries: Vec<(Name, LeafNo)>,
    places: KeyIndex,
}

impl Model for LeafRoutes {
    ghost use Rattle.std.specs.Prelude.{ℕ, List};

    ghost Value = { List (List ℕ × ℕ) };

    ghost use Rattle.gq_program.specs.Name_keys.{AreWithin};
    ghost use Rattle.gq_resolve.specs.internal.Search_keys.{route_keys};

    ghost view = { λ r. r.entries.items };

    ghost invariant = { λ r. AreWithin r.places (route_keys r.entries.items) };
}

impl LeafRoutes {
    /// None. It takes no memory.
    pub fn new(alloc: Global) -> LeafRoutes
        ensures { result ≡ [] }
    {
        LeafRoutes {
            entries: Vec::new(alloc),
            places: KeyIndex::new(),
        }
    }

    /// Puts a service with the leaf that serves it at the end. Refused only if the host refuses memory.
    pub fn push(&mut self, service: Name, server: LeafNo) -> Result<(), AllocError>
        ensures { OnOk result (self.new ≡ self.old ++ (service, server) ∷ []) }
    {
        let key = key_of(service.as_bytes());
        self.entries.reserve(1)?;
        self.places.put(key, self.entries.len());
        self.entries.push_reserved((service, server));
        Ok(())
    }

    // The server of a service.
    fn server(&self, service: &Name) -> Option<LeafNo>
        ensures { result ≡ server_in service.now self.now }
    {
        let key = key_of(service.as_bytes());
        let (first, end) = self.places.range(key, self.entries.len());
        for place in first..end {
            let (name, server) = &self.entries[place];
            if same_text(service.as_bytes(), name.as_bytes()) {
                return Some(*server);
            }
        }
        None
    }

    // The numbers of the servers.
    fn numbers(&self, alloc: Global) -> Result<Vec<u32>, AllocError>
        ensures { IfOk result (λ l. l.items ≡ servers self.now) }
    {
        let mut numbers = Vec::new(alloc);
        for (_service, server) in &self.entries {
            numbers.push(server.number())?;
        }
        Ok(numbers)
    }
}

/// Which leaf serves each service that a leaf opens.
#[derive(Drop)]
pub struct Routes {
    leaves: Vec<LeafRoutes>,
}

impl Model for Routes {
    ghost use Rattle.std.specs.Prelude.{ℕ, List};

    ghost Value = { List (List (List ℕ × ℕ)) };

    ghost view = { λ r. r.leaves.items };
}

impl Routes {
    /// These services of each leaf, in preorder.
    pub fn new(leaves: Vec<LeafRoutes>) -> Routes
        ensures { result ≡ leaves.items }
    {
        Routes { leaves }
    }

    /// The leaf that serves the sessions of a service that a leaf opens; none where no statement of that leaf opens the
    /// service.
    pub fn server(&self, leaf: LeafNo, service: &Name) -> Option<LeafNo>
        ensures { result ≡ server_at leaf service.now self.now }
    {
        match self.leaves.get(leaf.index()) {
            Some(routes) => routes.server(service),
            None => None,
        }
    }

    /// For each leaf the numbers of the leaves that serve it. Refused only if the host refuses memory.
    pub fn numbers(&self, alloc: Global) -> Result<Vec<Vec<u32>>, AllocError>
        ensures { IfOk result (λ used. map (λ l. l.items) used.items ≡ map servers self.now) }
    {
        let mut used = Vec::new(alloc);
        for leaf in &self.leaves {
            used.push(leaf.numbers(alloc)?)?;
        }
        Ok(used)
    }
}
