ghost use Rattle.std.specs.Prelude.{◌≡◌, ◌≢◌, ℕ, ◌+◌, ◌<◌, ◌≤◌, ◌++◌, ◌∷◌, [], List, All, None, IfOk, OnOk, OnErr, vec_len, length};
ghost use Rattle.std.specs.Bool.{OnTrue, OnFalse};
ghost use Rattle.st_model.specs.declared.need.Need.{Need};
ghost use Rattle.st_model.specs.Network.{IsVertex, IsLinkBetween, link};
ghost use Rattle.st_model.specs.Steps.{put_link};
ghost use Rattle.graph_store.specs.Changes.{set_cost};
ghost use Rattle.graph_store.specs.Joined.{place_of, halves_at, links_of, AreHalves, AreHalvesBut, ArePairs};

use crate::Half;
use crate::joints::{
    Joint, Joints, insert_joint, joint_between, links_from, put_cost, put_place, take_joint,
};
use crate::lists::{no_halves, pop_half, push_half, put_half_cost, take_half};
use indexmap::IndexMap;
use st_model::Link;
use std::alloc::{AllocError, Global};
use std::marker::Model;

// The links between vertices 1 to n, each kept by its pair and as a half at each of its ends.
#[derive(Drop)]
pub struct Links {
    vertices: u32,
    // The halves that begin at vertex 1, 2, .. n, after an empty list.
    lists: Vec<Vec<Half>>,
    joints: Joints,
}

impl Model for Links {
    ghost use Rattle.graph_store.specs.Joined.{AreJoined, Linked, links_of};

    ghost Value = { Linked };

    ghost view = { λ s. record { n = s.vertices; links = links_of s.joints.entries } };

    ghost invariant = { λ s. AreJoined s.vertices s.lists.items s.joints.entries };
}

impl Links {
    ghost use Rattle.graph_store.specs.Joined.{AreOnce, TakesOut};
    ghost use Rattle.graph_store.specs.Neighbours.{AreNeighbours};

    // Vertices without links.
    pub fn none(alloc: Global, vertices: u32) -> Result<Links, AllocError>
        ensures { IfOk result (λ made. made ≡ record { n = vertices; links = [] }) }
    {
        let lists = no_halves(alloc, vertices)?;
        Ok(Links {
            vertices,
            lists,
            joints: IndexMap::new(alloc),
        })
    }

    // How many vertices there are.
    pub fn vertices(&self) -> u32
        ensures { result ≡ self.now.n }
    {
        self.vertices
    }

    // What the link between two vertices costs, if there is one.
    pub fn cost(&self, a: u32, b: u32) -> Option<u64>
        ensures cost { result ≡ link self.now.links a b }
        ensures once { AreOnce self.now.links }
    {
        Some(joint_between(&self.joints, a, b)?.cost)
    }

    // The halves that begin at a vertex.
    pub fn halves(&self, vertex: u32) -> &[Half]
        requires vertex { IsVertex self.now.n vertex }
        requires ends { All (IsLinkBetween self.now.n) self.now.links }
        ensures { (needs : List Need) → AreNeighbours
            (record { n = self.now.n; links = self.now.links; needs = needs }) vertex result.now }
    {
        &self.lists[vertex as usize]
    }

    // All links.
    pub fn all(&self, alloc: Global) -> Result<Vec<Link>, AllocError>
        ensures { IfOk result (λ links. links.items ≡ self.now.links) }
    {
        links_from(alloc, &self.joints)
    }

    // Takes out the link between two vertices, if there is one.
    pub fn remove(&mut self, a: u32, b: u32)
        requires a { IsVertex self.old.n a }
        requires b { IsVertex self.old.n b }
        ensures out { TakesOut self.old self.new a b }
        ensures once { AreOnce self.new.links }
    {
        if let Some(joint) = take_joint(&mut self.joints, a, b) {
            detach(&mut self.lists, &mut self.joints, a.min(b), joint.low);
            detach(&mut self.lists, &mut self.joints, a.max(b), joint.high);
        }
    }

    // Links two vertices that are not linked so far.
    pub fn attach(&mut self, low: u32, high: u32, cost: u64) -> Result<(), AllocError>
        requires ordered { low < high }
        requires high { high ≤ self.old.n }
        requires absent { link self.old.links low high ≡ None }
        ensures ok { OnOk result (self.new
            ≡ record self.old { links = self.old.links ++ record { a = low; b = high; cost = cost } ∷ [] }) }
        ensures err { OnErr result (self.new ≡ self.old) }
        ensures once { AreOnce self.new.links }
    {
        let joint = Joint {
            cost,
            low: self.lists[low as usize].len(),
            high: self.lists[high as usize].len(),
        };
        push_half(&mut self.lists, low, Half { to: high, cost })?;
        if push_half(&mut self.lists, high, Half { to: low, cost }).is_err() {
            pop_half(&mut self.lists, low);
            return Err(AllocError);
        }
        if insert_joint(&mut self.joints, low, high, joint).is_err() {
            pop_half(&mut self.lists, high);
            pop_half(&mut self.lists, low);
            return Err(AllocError);
        }
        Ok(())
    }

    // Whether two vertices are linked; their link costs no more than this from now on.
    pub fn cheapen(&mut self, low: u32, high: u32, cost: u64) -> bool
        requires ordered { low < high }
        requires high { high ≤ self.old.n }
        ensures yes { OnTrue result (self.new
            ≡ record self.old { links = put_link self.old.links (record { a = low; b = high; cost = cost }) }) }
        ensures no { OnFalse result ((self.new ≡ self.old) × (link self.old.links low high ≡ None)) }
        ensures once { AreOnce self.new.links }
    {
        let Some(known) = self.cost(low, high) else {
            return false;
        };
        if cost < known {
            self.set_cost(low, high, cost);
        }
        true
    }

    // Says that the link between two vertices, if there is one, has this cost now.
    pub fn set_cost(&mut self, low: u32, high: u32, cost: u64)
        requires ordered { low < high }
        requires high { high ≤ self.old.n }
        ensures cost { self.new ≡ record self.old { links = set_cost self.old.links low high cost } }
        ensures once { AreOnce self.new.links }
    {
        if let Some(joint) = joint_between(&self.joints, low, high) {
            put_half_cost(&mut self.lists, low, joint.low, cost);
            put_half_cost(&mut self.lists, high, joint.high, cost);
            put_cost(&mut self.joints, low, high, joint, cost);
        }
    }
}

// Takes out the half at a place, which no link tells of any more.
fn detach(lists: &mut Vec<Vec<Half>>, joints: &mut Joints, from: u32, place: usize)
    requires from { from < vec_len lists.old }
    requires place { place < length (halves_at lists.old.items from) }
    requires pairs { ArePairs joints.old.entries }
    requires halves { AreHalvesBut place (halves_at lists.old.items from) (place_of joints.old.entries from) }
    ensures length { vec_len lists.new ≡ vec_len lists.old }
    ensures pairs { ArePairs joints.new.entries }
    ensures links { links_of joints.new.entries ≡ links_of joints.old.entries }
    ensures halves { AreHalves (halves_at lists.new.items from) (place_of joints.new.entries from) }
    ensures other_halves { (v : ℕ) → (v ≡ from → ⊥) → halves_at lists.new.items v ≡ halves_at lists.old.items v }
    ensures other_places { (v w : ℕ) → (v ≡ from → ⊥) →
        place_of joints.new.entries v w ≡ place_of joints.old.entries v w }
{
    if let Some(moved) = take_half(lists, from, place) {
        put_place(joints, from, moved.to, place);
    }
}
