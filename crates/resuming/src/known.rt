ghost use Rattle.std.specs.Prelude.{◌≡◌, ◌∷◌, [], All, IfOk, IfSome};
ghost use Rattle.st_model.specs.Arborescence.{IsTree};
ghost use Rattle.search_core.specs.Complete.{least_found, less_found};
ghost use Rattle.resuming.specs.Finding.{IsKept};

use better_trees::Incumbent;
use search_core::Segment;
use st_model::{Instance, Tree, tree_cost};
use std::alloc::{AllocError, Global};

/// What is known of trees: the least cost of one, and one of that cost, unless it is a tree of
/// another instance. Where it is, workers look at the guide, of which nothing has to hold.
#[derive(Debug, Drop)]
pub struct Known {
    pub least: u64,
    pub tree: Option<Tree>,
    pub guide: Tree,
}

impl Known {
    // The tree that workers look at first, and the least cost known.
    pub(crate) fn incumbent(&self) -> Incumbent<'_>
        ensures { result.cost ≡ self.now.least }
    {
        let tree = match &self.tree {
            Some(tree) => tree,
            None => &self.guide,
        };
        Incumbent {
            tree,
            cost: self.least,
        }
    }

    // What is known after a search, of which these are the segments.
    pub(crate) fn after(
        self,
        alloc: Global,
        instance: &Instance,
        segments: &[Segment],
    ) -> Result<Known, AllocError>
        requires { All (λ s. IfSome s.best (IsTree instance.now)) segments.now }
        ensures least { IfOk result
            (λ known. known.least ≡ least_found instance.now self.least segments.now) }
        ensures tree { IfOk result (λ known. IsKept instance.now segments.now self.least self.tree
            known.least known.tree) }
    {
        let mut known = self;
        for segment in segments {
            known = known.with(alloc, instance, segment)?;
        }
        Ok(known)
    }

    // What is known with the tree that one worker found.
    fn with(
        self,
        alloc: Global,
        instance: &Instance,
        segment: &Segment,
    ) -> Result<Known, AllocError>
        requires { IfSome segment.now.best (IsTree instance.now) }
        ensures least { IfOk result
            (λ known. known.least ≡ less_found instance.now segment.now.best self.least) }
        ensures tree { IfOk result
            (λ known. IsKept instance.now (segment.now ∷ []) self.least self.tree known.least
            known.tree) }
    {
        let Some(tree) = &segment.best else {
            return Ok(self);
        };
        let cost = tree_cost(instance, tree);
        if self.least <= cost {
            return Ok(self);
        }
        let tree = tree.copied(alloc)?;
        Ok(Known {
            least: cost,
            tree: Some(tree),
            guide: self.guide,
        })
    }
}
