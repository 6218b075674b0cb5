ghost use Rattle.worker_loop.specs.Sound.{IsSound};

use node_pool::Sound;
use std::marker::{Brand, PhantomData};

/// What is searched: an instance, the branch whose trees are asked for, and the cost of the first tree.
/// Contracts alone speak of it; the caller of a team picks it.
pub trait Aim {
    ghost use Rattle.std.specs.Prelude.{ℕ};
    ghost use Rattle.st_model.specs.declared.branch.Branch.{Branch};
    ghost use Rattle.st_model.specs.Network.{Network};

    ghost instance: { Network };

    ghost branch: { Branch };

    ghost start: { ℕ };
}

impl Aim for Brand {
    ghost use Rattle.std.specs.Prelude.{[]};
    ghost use Rattle.st_model.specs.Branch.{all_trees};
    ghost use Rattle.st_model.specs.Network.{Network};

    ghost instance = { record { n = 0; links = []; needs = [] } };

    ghost branch = { all_trees };

    ghost start = { 0 };
}

/// What a pool keeps of its nodes: a log can hold each, and it is of a part of the branch.
pub struct SoundFor<Q: Aim> {
    of: PhantomData<Q>,
}

impl<Q: Aim> Sound for SoundFor<Q> {
    ghost use Rattle.worker_loop.specs.Sound.{IsSound};

    ghost sound = { IsSound Q.instance Q.branch };
}
