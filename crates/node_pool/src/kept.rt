ghost use Rattle.std.specs.Prelude.{◌≡◌};
ghost use Rattle.branching.specs.declared.node.Node.{Node as NodeSpec};

use branching::Node;
use std::marker::{Model, PhantomData};

/// What makes a node sound. The caller of a pool picks it.
pub trait Sound {
    ghost use Rattle.branching.specs.declared.node.Node.{Node as NodeSpec};

    ghost sound: { NodeSpec → Type 0 };
}

// A node that is sound. Contracts see it as the node.
#[derive(Drop)]
pub struct Kept<S: Sound> {
    node: Node,
    of: PhantomData<S>,
}

impl<S: Sound> Model for Kept<S> {
    ghost use Rattle.branching.specs.declared.node.Node.{Node as NodeSpec};

    ghost Value = { NodeSpec };

    ghost view = { λ k. k.node };

    ghost invariant = { λ k. S.sound k.node };
}

impl<S: Sound> Kept<S> {
    pub fn of(node: Node) -> Kept<S>
        requires { S.sound node }
        ensures { result ≡ node }
    {
        Kept {
            node,
            of: PhantomData,
        }
    }

    pub fn into_node(self) -> Node
        ensures same { result ≡ self }
        ensures sound { S.sound result }
    {
        let Kept { node, of: _ } = self;
        node
    }
}
