ghost use Rattle.std.specs.Prelude.{◌≡◌, [], ◌∷◌, OnOk};
ghost use Rattle.st_model.specs.Branch.{all_trees};
ghost use Rattle.directed_search.specs.Searching.{HasLines, IsOpen, IsSearching, nodes_left};

use crate::expanding::work;
use crate::open_node::OpenNode;
use crate::progress::Progress;
use crate::stack::Stack;
use arborescence::DiInstance;
use cut_packing::Packing;
use st_model::{Branch, Listed};
use std::alloc::{AllocError, Global};

// Works on one node after another until none waits.
pub fn run(alloc: Global, instance: &DiInstance, progress: &mut Progress) -> Result<(), AllocError>
    requires searching { IsSearching instance.now progress.old (nodes_left instance.now (all_trees ∷ [])) (all_trees ∷ []) }
    requires worked { HasLines progress.old 0 }
    ensures searching { OnOk result (IsSearching instance.now progress.new 0 []) }
    ensures worked { OnOk result (HasLines progress.new 0) }
    ensures budget { OnOk result (progress.new.budget ≡ progress.old.budget) }
{
    let mut waiting = Stack::new(alloc);
    waiting.push(whole(alloc, instance))?;
    while let Some(node) = waiting.pop() {
        work(alloc, instance, progress, &mut waiting, node)?;
    }
    Ok(())
}

// The node of all trees, without cuts.
fn whole(alloc: Global, instance: &DiInstance) -> OpenNode
    ensures open { IsOpen instance.now result }
    ensures branch { result.branch ≡ all_trees }
{
    OpenNode {
        branch: Branch::all(alloc),
        packing: Packing {
            root: Some(instance.root()),
            cuts: Listed::of(Vec::new(alloc)),
        },
    }
}
