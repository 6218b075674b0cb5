ghost use Rattle.st_model.specs.Arborescence.{IsTree};

use crate::by_vertex::{at, put};
use crate::draws::Draws;
use st_model::{Instance, Tree, tree_cost};
use std::alloc::{AllocError, Global};

// How many trees are kept.
const KEPT: usize = 10;

// After how many times in a row that walks came to no cheaper tree there are no more.
const PATIENCE: u32 = 2;

// What a vertex weighs, in hundredths, that both of two trees reach, that one of them does, and that
// none does; the second up to so much more.
const IN_BOTH: u64 = 10;

const IN_ONE: (u64, u64) = (20, 30);

const IN_NONE: u64 = 200;

// A tree that is kept, its vertices, and what it costs.
#[derive(Drop)]
struct Kept {
    tree: Tree,
    reached: Vec<bool>,
    price: u64,
}

/// The cheapest trees that were found so far, and which vertices they reach. Nothing is claimed of them:
/// they say where to look.
#[derive(Drop)]
pub struct Elite {
    trees: Vec<Kept>,
    // How many times in a row walks from there came to no cheaper tree.
    idle: u32,
}

impl Elite {
    /// No tree yet.
    pub fn new(alloc: Global) -> Elite {
        Elite {
            trees: Vec::new(alloc),
            idle: 0,
        }
    }

    /// Whether walks from these trees are worth their time.
    pub fn is_worth_walks(&self) -> bool {
        self.idle < PATIENCE
    }

    /// Tells whether walks came to a cheaper tree.
    pub fn walked(&mut self, has_gained: bool) {
        self.idle = if has_gained {
            0
        } else {
            self.idle.saturating_add(1)
        };
    }

    /// How many trees are kept.
    pub fn len(&self) -> usize {
        self.trees.len()
    }

    /// Keeps a tree, in place of the dearest one that costs no less where there are enough; not one like
    /// another.
    pub fn keep(
        &mut self,
        alloc: Global,
        instance: &Instance,
        tree: &Tree,
    ) -> Result<(), AllocError>
        requires { IsTree instance.now tree.now }
    {
        let new = Kept::of(alloc, instance, tree)?;
        if self.trees.iter().any(|kept| kept.is_like(&new)) {
            return Ok(());
        }
        if self.trees.len() < KEPT {
            self.trees.push(new)?;
            return Ok(());
        }
        let dearest = self.dearest();
        if let Some(kept) = self.trees.get_mut(dearest) {
            if new.price <= kept.price {
                *kept = new;
            }
        }
        Ok(())
    }

    // The place of the dearest tree.
    fn dearest(&self) -> usize {
        let mut dearest = 0;
        let mut most = 0;
        for (place, kept) in self.trees.iter().enumerate() {
            if kept.price > most {
                dearest = place;
                most = kept.price;
            }
        }
        dearest
    }

    /// One of the cheapest trees that is drawn, if there are any that cost no more than a price.
    pub fn cheapest(&self, price: u64, draws: &mut Draws) -> Option<&Tree> {
        let mut found = None;
        let mut least = price;
        let mut count: u64 = 0;
        for kept in self.trees.iter() {
            if kept.price > least {
                continue;
            }
            count = if kept.price < least {
                1
            } else {
                count.saturating_add(1)
            };
            least = kept.price;
            if draws.below(count) == 0 {
                found = Some(&kept.tree);
            }
        }
        found
    }

    /// By vertex, weights for which paths keep to two of the trees that are drawn.
    pub fn between(
        &self,
        alloc: Global,
        vertices: u32,
        draws: &mut Draws,
    ) -> Result<Vec<u64>, AllocError> {
        let one = draws.below(self.trees.len() as u64) as usize;
        let other = draws.below(self.trees.len() as u64) as usize;
        let mut weights = vec![in alloc; IN_NONE; vertices as usize + 1]?;
        for before in 0..vertices {
            let vertex = before + 1;
            let weight = match (self.reaches(one, vertex), self.reaches(other, vertex)) {
                (true, true) => IN_BOTH,
                (false, false) => IN_NONE,
                _ => IN_ONE.0.saturating_add(draws.below(IN_ONE.1)),
            };
            put(&mut weights, vertex, weight);
        }
        Ok(weights)
    }

    // Whether the tree at a place reaches a vertex.
    fn reaches(&self, place: usize, vertex: u32) -> bool {
        match self.trees.get(place) {
            Some(kept) => at(&kept.reached, vertex, false),
            None => false,
        }
    }
}

impl Kept {
    fn of(alloc: Global, instance: &Instance, tree: &Tree) -> Result<Kept, AllocError>
        requires { IsTree instance.now tree.now }
    {
        let mut reached = vec![in alloc; false; instance.vertices() as usize + 1]?;
        put(&mut reached, tree.start, true);
        for (_, head) in tree.arcs.as_slice() {
            put(&mut reached, *head, true);
        }
        Ok(Kept {
            tree: tree.copied(alloc)?,
            reached,
            price: tree_cost(instance, tree),
        })
    }

    // Whether a tree costs the same and reaches the same vertices.
    fn is_like(&self, other: &Kept) -> bool {
        self.price == other.price && self.reached.as_slice() == other.reached.as_slice()
    }
}
