use crate::processors::Processors;
use better_trees::{Priced, least_after, tree_of};
use branching::Node;
use graph_store::Store;
use node_work::{Plan, is_whole};
use st_model::Tree;
use std::alloc::{AllocError, Global};
use std::sync::Mutex;
use std::sync::atomic::{AtomicUsize, Ordering};

/// What the workers of a team let each other know: the cheapest tree that was found, which they take a copy
/// of to see where trees branch, how many of them look for a node, and whether one of them has all processors
/// at work. Nothing is claimed of it, and nobody waits for it: who finds the tree in another's hands goes on
/// without.
#[derive(Drop)]
pub struct Hint {
    cheapest: Mutex<Option<Priced>>,
    looks: AtomicUsize,
    pub(crate) processors: Processors,
}

impl Hint {
    /// No tree yet.
    pub fn none() -> Hint {
        Hint {
            cheapest: Mutex::new(None),
            looks: AtomicUsize::new(0),
            processors: Processors::free(),
        }
    }

    // One worker more looks for a node.
    pub(crate) fn begin_look(&self) {
        self.looks.fetch_add(1, Ordering::SeqCst);
    }

    // One worker less looks for a node. Only one that began calls this.
    pub(crate) fn end_look(&self) {
        self.looks.fetch_sub(1, Ordering::SeqCst);
    }

    // How many workers look for a node.
    pub(crate) fn looks(&self) -> usize {
        self.looks.load(Ordering::SeqCst)
    }

    // Keeps a copy of a tree, unless one is kept that costs no more, or another worker looks at it.
    fn keep(&self, alloc: Global, found: &Priced) -> Result<(), AllocError> {
        let copy = found.copied(alloc)?;
        let Some(mut cheapest) = self.cheapest.try_lock() else {
            return Ok(());
        };
        let is_cheaper = match &*cheapest {
            Some(kept) => copy.price < kept.price,
            None => true,
        };
        if is_cheaper {
            *cheapest = Some(copy);
        }
        Ok(())
    }

    // A copy of the tree that is kept, if it costs less than a price, and no other worker looks at it.
    fn below(&self, alloc: Global, price: u64) -> Result<Option<Priced>, AllocError> {
        let Some(cheapest) = self.cheapest.try_lock() else {
            return Ok(None);
        };
        match &*cheapest {
            Some(kept) => {
                if kept.price < price {
                    Ok(Some(kept.copied(alloc)?))
                } else {
                    Ok(None)
                }
            }
            None => Ok(None),
        }
    }
}

/// What a worker knows beside its node: the best tree, its own or another's, and a plan. Nothing is copied
/// before a tree is found, so that a worker that waits for its first node takes no memory.
#[derive(Drop)]
pub struct Known<'a> {
    hint: &'a Hint,
    // The first tree of the search.
    start: &'a Tree,
    // A better one, if one was found.
    better: Option<Priced>,
    // The plan for the node in hand, if there is one.
    pub plan: Option<Plan>,
}

impl<'a> Known<'a> {
    /// Of a worker that has found none, in a search from a first tree.
    pub fn first(hint: &'a Hint, start: &'a Tree) -> Known<'a> {
        Known {
            hint,
            start,
            better: None,
            plan: None,
        }
    }

    /// Takes all processors for a node that gets the effort of a whole search, unless another worker has them: whether
    /// it did.
    pub fn take_processors(&self, store: &Store, node: &Node) -> bool {
        is_whole(store, node) && self.hint.processors.take()
    }

    /// Gives the processors back, if they were taken.
    pub fn give_back(&self, were_taken: bool) {
        if were_taken {
            self.hint.processors.give_back();
        }
    }

    /// The tree.
    pub fn tree(&self) -> &Tree {
        tree_of(self.start, &self.better)
    }

    /// Looks for a tree of others, where some tree is known to cost less. All that others show cost less
    /// than the first tree, whose price isn't asked for.
    pub fn catch_up(&mut self, alloc: Global, least: u64) -> Result<(), AllocError> {
        let price = least_after(u64::MAX, &self.better);
        if least >= price {
            return Ok(());
        }
        if let Some(found) = self.hint.below(alloc, price)? {
            self.better = Some(found);
        }
        Ok(())
    }

    /// Shows others a better tree, if one was found.
    pub fn show(&mut self, alloc: Global, found: &Option<Priced>) -> Result<(), AllocError> {
        if let Some(found) = found {
            self.better = Some(found.copied(alloc)?);
            self.hint.keep(alloc, found)?;
        }
        Ok(())
    }
}
