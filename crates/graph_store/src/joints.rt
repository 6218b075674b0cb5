ghost use Rattle.std.specs.Prelude.{◌≡◌, ◌≢◌, ◌<◌, ℕ, ◌∷◌, [], ◌++◌, min, max, ◌&&◌, ◌==◌, None, Some, IfOk, IfSome, IfNone, IsSome, OnOk, OnErr, if◌then◌else◌, IsPermutation};
ghost use Rattle.std.specs.Map.{set_value};
ghost use Rattle.std.specs.Option.{option_map};
ghost use Rattle.graph_store.specs.Changes.{are_ends};
ghost use Rattle.graph_store.specs.Joined.{joint_of, place_of, links_of, is_pair, ArePairs};

use indexmap::IndexMap;
use st_model::Link;
use std::alloc::{AllocError, Global};

// Of a link: its cost, and where its halves are in the lists of its lower and its higher end.
#[derive(Clone, Copy, Debug)]
pub struct Joint {
    pub cost: u64,
    pub low: usize,
    pub high: usize,
}

// The links, by their pairs, the lower vertex first.
pub type Joints = IndexMap<(u32, u32), Joint>;

// Where the halves between two vertices are, if they are linked.
pub fn joint_between(joints: &Joints, u: u32, w: u32) -> Option<Joint>
    ensures { result ≡ joint_of joints.now.entries u w }
{
    joints.get(&(u.min(w), u.max(w))).copied()
}

// All links.
pub fn links_from(alloc: Global, joints: &Joints) -> Result<Vec<Link>, AllocError>
    ensures { IfOk result (λ links. links.items ≡ links_of joints.now.entries) }
{
    joints
        .iter()
        .map(|(pair, joint)| Link {
            a: pair.0,
            b: pair.1,
            cost: joint.cost,
        })
        .collect(alloc)
}

// Takes out the link between two vertices, if there is one.
pub fn take_joint(joints: &mut Joints, u: u32, w: u32) -> Option<Joint>
    requires { ArePairs joints.old.entries }
    ensures value { result ≡ joint_of joints.old.entries u w }
    ensures others { (x y : ℕ) → joint_of joints.new.entries x y
        ≡ (if are_ends u w x y then None else joint_of joints.old.entries x y) }
    ensures moved { IfSome result (λ joint. IsPermutation joints.old.entries
        (((min u w, max u w), joint) ∷ joints.new.entries)) }
    ensures unchanged { IfNone result (joints.new.entries ≡ joints.old.entries) }
    ensures pairs { ArePairs joints.new.entries }
{
    joints.swap_remove(&(u.min(w), u.max(w)))
}

// Puts in a link that wasn't there.
pub fn insert_joint(
    joints: &mut Joints,
    low: u32,
    high: u32,
    joint: Joint,
) -> Result<(), AllocError>
    requires pairs { ArePairs joints.old.entries }
    requires ordered { low < high }
    requires absent { joint_of joints.old.entries low high ≡ None }
    ensures ok { OnOk result (joints.new.entries ≡ joints.old.entries ++ ((low, high), joint) ∷ []) }
    ensures pairs { ArePairs joints.new.entries }
    ensures err { OnErr result (joints.new.entries ≡ joints.old.entries) }
{
    joints.insert((low, high), joint)?;
    Ok(())
}

// Says that the half from one vertex to the other is at this place now.
pub fn put_place(joints: &mut Joints, from: u32, to: u32, place: usize)
    requires pairs { ArePairs joints.old.entries }
    requires linked { IsSome (joint_of joints.old.entries from to) }
    requires different { from ≢ to }
    ensures places { (x y : ℕ) → place_of joints.new.entries x y
        ≡ (if (x == from) && (y == to) then option_map (λ p. (place, p.1)) (place_of joints.old.entries x y)
        else place_of joints.old.entries x y) }
    ensures links { links_of joints.new.entries ≡ links_of joints.old.entries }
    ensures pairs { ArePairs joints.new.entries }
{
    if let Some(joint) = joints.get_mut(&(from.min(to), from.max(to))) {
        if from < to {
            joint.low = place;
        } else {
            joint.high = place;
        }
    }
}

// Says that a link has this cost now, its halves where they are.
pub fn put_cost(joints: &mut Joints, low: u32, high: u32, joint: Joint, cost: u64)
    requires pairs { ArePairs joints.old.entries }
    requires joint { joint_of joints.old.entries low high ≡ Some joint }
    requires ordered { low < high }
    ensures entries { joints.new.entries
        ≡ set_value (is_pair low high) joints.old.entries (record joint { cost = cost }) }
    ensures pairs { ArePairs joints.new.entries }
{
    if let Some(known) = joints.get_mut(&(low, high)) {
        *known = Joint { cost, ..joint };
    }
}
