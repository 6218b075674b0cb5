ghost use Rattle.std.specs.Prelude.{◌≡◌, ◌≢◌, ◌≤◌, ◌<◌, ◌∷◌, ◌+◌, ℕ, IfOk, OnOk, All, drop, length, slice_index_or, map, [], ◌-◌, ◌^◌, if◌then◌else◌, ◌⊎◌, ◌++◌, slice_set};
ghost use Rattle.std.specs.List.Sorted.{IsNonDecreasingBy};
ghost use Rattle.st_model.specs.Lists.{has};
ghost use Rattle.level_packing.specs.Forest.{IsGrown, IsPresentLink, groups, lists, members_of};
ghost use Rattle.level_packing.specs.Growing.{IsAlone, IsRaised, IsJoinedBy, IsMerged, IsMergedInto};

use crate::ascending::ascending;
use cut_packing::{Cut, SharedSet};
use st_model::{Instance, Link, Sides};
use std::alloc::{AllocError, Global};
use std::mem;

/// Clusters of vertices, the links that joined them, and the cuts round them so far.
#[derive(Drop)]
pub struct Forest {
    /// For each vertex the one that stands for its cluster.
    pub cluster: Vec<u32>,
    /// The vertices of each cluster, by the vertex that stands for it.
    pub members: Vec<Vec<u32>>,
    /// The cost up to which the cuts round a cluster count, by the vertex that stands for it.
    pub formed: Vec<u64>,
    pub chosen: Vec<(u32, u32)>,
    pub cuts: Vec<Cut>,
}

// Every vertex alone, and no cut.
pub fn alone(alloc: Global, vertices: u32) -> Result<Forest, AllocError>
    requires { vertices < 2 ^ 32 - 1 }
    ensures { IfOk result (λ forest. IsAlone vertices (groups forest)) }
{
    let mut cluster = Vec::new(alloc);
    let mut members = Vec::new(alloc);
    for vertex in 0..vertices + 1 {
        cluster.push(vertex)?;
        members.push(vec![in alloc; vertex]?)?;
    }
    Ok(Forest {
        cluster,
        members,
        formed: vec![in alloc; 0; vertices as usize + 1]?,
        chosen: Vec::new(alloc),
        cuts: Vec::new(alloc),
    })
}

impl Forest {
    // Takes one more link: it joins two clusters, which are first cut off up to its cost.
    pub fn take(
        &mut self,
        alloc: Global,
        instance: &Instance,
        branch: &Sides,
        root: u32,
        links: &[Link],
        at: usize,
    ) -> Result<(), AllocError>
        requires at { at < length links.now }
        requires links { All (IsPresentLink instance.now branch.now) links.now }
        requires ascending { IsNonDecreasingBy (λ l. l.cost) links.now }
        requires grown { IsGrown instance.now branch.now root (drop at links.now) (groups self.old) }
        ensures { OnOk result (IsGrown instance.now branch.now root (drop (at + 1) links.now) (groups self.new)) }
    {
        let link = links[at];
        let first = self.cluster[link.a as usize];
        let second = self.cluster[link.b as usize];
        if first != second {
            let of_root = self.cluster[root as usize];
            self.join(alloc, of_root, first, second, link)?;
        }
        Ok(())
    }

    // Cuts two clusters off up to the link's cost, and makes them one.
    fn join(
        &mut self,
        alloc: Global,
        of_root: u32,
        first: u32,
        second: u32,
        link: Link,
    ) -> Result<(), AllocError>
        requires first { first < length self.old.members.items }
        requires second { second < length self.old.members.items }
        requires formed { length self.old.formed.items ≡ length self.old.members.items }
        requires in_range { (i : ℕ) → i ≡ first ⊎ i ≡ second
            → All (λ v. v < length self.old.cluster.items) (members_of (groups self.old) i) }
        requires two { first ≢ second }
        ensures { OnOk result (IsJoinedBy of_root first second link (groups self.old) (groups self.new)) }
    {
        self.raise(alloc, of_root, first, link.cost)?;
        self.raise(alloc, of_root, second, link.cost)?;
        self.merge(alloc, first, second, link)
    }

    // Cuts a cluster off from the root up to a cost, unless it is the root's own.
    fn raise(&mut self, alloc: Global, of_root: u32, name: u32, cost: u64) -> Result<(), AllocError>
        requires formed { name < length self.old.formed.items }
        requires members { name < length self.old.members.items }
        ensures { OnOk result (IsRaised (groups self.old) of_root name cost (groups self.new)) }
    {
        let formed = self.formed[name as usize];
        if name != of_root && formed < cost {
            let set = ascending(alloc, &self.members[name as usize])?;
            self.cuts.push(Cut {
                set: SharedSet::of(set)?,
                q: name,
                y: cost - formed,
            })?;
            self.formed[name as usize] = cost;
        }
        Ok(())
    }

    // Makes two clusters one, under the name of the larger.
    fn merge(
        &mut self,
        alloc: Global,
        first: u32,
        second: u32,
        link: Link,
    ) -> Result<(), AllocError>
        requires first { first < length self.old.members.items }
        requires second { second < length self.old.members.items }
        requires formed { length self.old.formed.items ≡ length self.old.members.items }
        requires in_range { (i : ℕ) → i ≡ first ⊎ i ≡ second
            → All (λ v. v < length self.old.cluster.items) (members_of (groups self.old) i) }
        requires two { first ≢ second }
        ensures { OnOk result (IsMerged first second link (groups self.old) (groups self.new)) }
    {
        if self.members[first as usize].len() < self.members[second as usize].len() {
            self.merge_into(alloc, second, first, link)
        } else {
            self.merge_into(alloc, first, second, link)
        }
    }

    // Makes the cluster named gone a part of the one named keep.
    fn merge_into(
        &mut self,
        alloc: Global,
        keep: u32,
        gone: u32,
        link: Link,
    ) -> Result<(), AllocError>
        requires keep { keep < length self.old.members.items }
        requires gone { gone < length self.old.members.items }
        requires formed { length self.old.formed.items ≡ length self.old.members.items }
        requires in_range { All (λ v. v < length self.old.cluster.items) (members_of (groups self.old) gone) }
        requires two { keep ≢ gone }
        ensures { OnOk result (IsMergedInto keep gone link (groups self.old) (groups self.new)) }
    {
        self.chosen.push((link.a, link.b))?;
        relabel(&mut self.cluster, &self.members[gone as usize], keep);
        pour(alloc, &mut self.members, gone, keep)?;
        self.formed[keep as usize] = link.cost;
        self.formed[gone as usize] = 0;
        Ok(())
    }
}

// Moves all of one list to the end of another.
fn pour(alloc: Global, members: &mut Vec<Vec<u32>>, from: u32, to: u32) -> Result<(), AllocError>
    requires from { from < length members.old.items }
    requires to { to < length members.old.items }
    requires two { to ≢ from }
    ensures { OnOk result (lists members.new.items ≡ slice_set (slice_set (lists members.old.items) from []) to
        (slice_index_or (lists members.old.items) to [] ++ slice_index_or (lists members.old.items) from [])) }
{
    let moved = mem::replace(&mut members[from as usize], Vec::new(alloc));
    members[to as usize].extend_from_slice(&moved)?;
    Ok(())
}

// Names the cluster of each of the vertices.
fn relabel(cluster: &mut Vec<u32>, vertices: &[u32], name: u32)
    requires { All (λ v. v < length cluster.old.items) vertices.now }
    ensures len { length cluster.new.items ≡ length cluster.old.items }
    ensures labels { (v : ℕ) → v < length cluster.old.items
        → slice_index_or cluster.new.items v 0
        ≡ (if has vertices.now v then name else slice_index_or cluster.old.items v 0) }
{
    for vertex in vertices {
        cluster[*vertex as usize] = name;
    }
}
