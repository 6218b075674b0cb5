ghost use Rattle.std.specs.Prelude.{◌≢◌, ◌+◌, ◌≤◌, unwrap_or};
ghost use Rattle.st_model.specs.Network.{IsVertex, amount, link};
ghost use Rattle.graph_store.specs.Changes.{RemovesVertex};
ghost use Rattle.graph_store.specs.Graph.{IsGraph};

use graph_store::Store;

// Removes a vertex and its links, of which one leads to a neighbour, if there is one.
pub fn remove_leaf(store: &mut Store, vertex: u32, neighbour: u32)
    requires vertex { IsVertex store.old.network.n vertex }
    requires neighbour { IsVertex store.old.network.n neighbour }
    ensures removes { RemovesVertex store.old store.new vertex }
    ensures graph { IsGraph store.new }
    ensures amount { amount store.new.network + unwrap_or (link store.old.network.links vertex neighbour) 0
        ≤ amount store.old.network }
{
    store.remove_link(vertex, neighbour);
    store.remove_vertex(vertex);
}

// The same where two of its links lead to two neighbours.
pub fn remove_middle(store: &mut Store, vertex: u32, a: u32, b: u32)
    requires vertex { IsVertex store.old.network.n vertex }
    requires a { IsVertex store.old.network.n a }
    requires b { IsVertex store.old.network.n b }
    requires different { a ≢ b }
    ensures removes { RemovesVertex store.old store.new vertex }
    ensures graph { IsGraph store.new }
    ensures amount { amount store.new.network + unwrap_or (link store.old.network.links vertex a) 0
        + unwrap_or (link store.old.network.links vertex b) 0 ≤ amount store.old.network }
{
    store.remove_link(vertex, a);
    remove_leaf(store, vertex, b);
}
