ghost use Rattle.std.specs.Prelude.{◌≡◌, [], ◌∷◌, OnOk, MatchOption};

use crate::open_node::OpenNode;
use std::alloc::{AllocError, Global};
use std::marker::Model;

// Nodes that wait, of which the last that came is the next. They are seen as a list of them, the next first.
#[derive(Drop)]
pub struct Stack {
    nodes: Vec<OpenNode>,
}

impl Model for Stack {
    ghost use Rattle.std.specs.Prelude.{List, reverse};
    ghost use Rattle.directed_search.specs.declared.open_node.OpenNode.{OpenNode};

    ghost Value = { List OpenNode };

    ghost view = { λ s. reverse s.nodes.items };
}

impl Stack {
    // No node.
    pub fn new(alloc: Global) -> Stack
        ensures { result ≡ [] }
    {
        Stack {
            nodes: Vec::new(alloc),
        }
    }

    // Puts a node in front.
    pub fn push(&mut self, node: OpenNode) -> Result<(), AllocError>
        ensures { OnOk result (self.new ≡ node ∷ self.old) }
    {
        self.nodes.push(node)?;
        Ok(())
    }

    // Takes the next node.
    pub fn pop(&mut self) -> Option<OpenNode>
        ensures { MatchOption result (self.old ≡ []) (λ node. self.old ≡ node ∷ self.new) }
    {
        self.nodes.pop()
    }
}
