ghost use Rattle.std.specs.Prelude.{◌≡◌, ℕ, ◌+◌, ◌^◌, ◌<◌, ◌≤◌, ◌++◌, ◌∷◌, [], List, None, Some, min, IfOk};
ghost use Rattle.cut_packing.specs.ProofTree.{ProofTree, Proves};
ghost use Rattle.log_format.specs.Accepts.{left_over};
ghost use Rattle.log_format.specs.Preorder.{preorder};
ghost use Rattle.search_core.specs.Complete.{IsComplete};
ghost use Rattle.cert_checker.specs.declared.turn.Turn.{Turn};
ghost use Rattle.cert_checker.specs.Path.{branch_of};
ghost use Rattle.log_resume.specs.Closes.{closes_of};
ghost use Rattle.log_resume.specs.Grafted.{AreSearchesOf};
ghost use Rattle.log_resume.specs.Growing.{Goes, IsDue, IsFound, IsGrown, IsReadyFor, WritesClose, WritesSplit, growth};
ghost use Rattle.log_resume.specs.Lines.{standing};
ghost use Rattle.log_resume.specs.Growing.{MayPass, MayWalk, least_after, walked, weight_at};

use crate::open::OpenBranches;
use crate::written::Written;
use certificate_log::proof_lines;
use cut_packing::{Packing, weight};
use lift_back::Reduced;
use log_format::{Proof, ProofLine};
use search_core::{Searched, complete_counts, complete_is_proof};
use st_model::SplitAt;
use std::alloc::{AllocError, Global};

// What a graft makes of a proof: the lines, unless each close stays, and the less of a bound and of what its closes weigh.
#[derive(Drop)]
pub struct Graft {
    pub lines: Option<Vec<ProofLine>>,
    pub least: u64,
}

// A graft in the making: a walk over the old proof, the searches of its closes that are still to come,
// the number of the next close, and what is written so far.
#[derive(Drop)]
pub struct Growing<'a> {
    walk: OpenBranches<'a>,
    searches: &'a [Searched],
    number: u64,
    written: Written<'a>,
}

// The lines of the graft of a proof of what steps left, and the less of `top` and of its least close.
pub fn grown(
    alloc: Global,
    reduced: &Reduced,
    proof: &Proof,
    searches: &[Searched],
    top: u64,
) -> Result<Graft, AllocError>
    requires proves { (p : ProofTree) × (x : ℕ) × (proof.now ≡ preorder p)
        × Proves reduced.now.state.instance (left_over reduced.now.state) x p }
    requires searches { (p : ProofTree) → proof.now ≡ preorder p
        → AreSearchesOf reduced.now.state.instance (closes_of (left_over reduced.now.state) p)
        searches.now }
    ensures { IfOk result (λ grown. (p : ProofTree) → proof.now ≡ preorder p
        → IsGrown reduced.now.state.instance searches.now (left_over reduced.now.state) p top
        (standing proof.now grown.lines) grown.least) }
{
    let rest = reduced.instance(alloc)?;
    let walk = OpenBranches::of(alloc, reduced, &rest)?;
    let lines = proof.lines();
    prove!(lines.len() <= usize::MAX);
    let mut growing = Growing::of(walk, searches, &lines[..0], top);
    for (place, line) in lines.iter().enumerate() {
        growing = growing.after(alloc, &lines[..place + 1], line)?;
    }
    Ok(growing.grown())
}

impl<'a> Growing<'a> {
    // The graft before any line.
    fn of(
        walk: OpenBranches<'a>,
        searches: &'a [Searched],
        front: &'a [ProofLine],
        top: u64,
    ) -> Growing<'a>
        requires { front.now ≡ [] }
        ensures front { result.written.front ≡ [] }
        ensures growth { growth result ≡ record {
          instance = walk.entry.instance;
          path = walk.entry.path;
          searches = searches.now;
          number = 0;
          lines = [];
          least = top;
        } }
    {
        Growing {
            walk,
            searches,
            number: 0,
            written: Written::over(front, top),
        }
    }

    // What is written.
    fn grown(self) -> Graft
        ensures lines { standing self.entry.written.front result.lines ≡ self.entry.written.lines }
        ensures least { result.least ≡ self.entry.written.least }
    {
        let Growing { written, .. } = self;
        written.grown()
    }

    // The graft after the next line of the old proof, where this is the front of that up to the line.
    fn after(
        self,
        alloc: Global,
        front: &'a [ProofLine],
        line: &ProofLine,
    ) -> Result<Growing<'a>, AllocError>
        requires front { front.now ≡ self.written.front ++ line.now ∷ [] }
        requires ready { IsReadyFor (growth self) line.now }
        requires room { self.number + 1 < 2 ^ 64 }
        ensures goes { IfOk result (λ next. Goes (growth self.entry) line.now (growth next)) }
        ensures front { IfOk result (λ next. next.written.front ≡ front.now) }
    {
        match line {
            ProofLine::Split(at) => self.split(front, line, *at),
            ProofLine::Close(packing) => self.close(alloc, front, line, packing),
        }
    }

    // The graft after a split.
    fn split(
        self,
        front: &'a [ProofLine],
        line: &ProofLine,
        at: SplitAt,
    ) -> Result<Growing<'a>, AllocError>
        requires line { line.now ≡ ProofLine.Split at }
        requires front { front.now ≡ self.written.front ++ ProofLine.Split at ∷ [] }
        requires may { MayPass self.walk.instance self.walk.path (ProofLine.Split at) }
        ensures goes { IfOk result (λ next. WritesSplit (growth self.entry) at (growth next)) }
        ensures front { IfOk result (λ next. next.written.front ≡ front.now) }
    {
        let Growing {
            walk,
            searches,
            number,
            written,
        } = self;
        let walk = walk.after(line)?;
        let written = written.with_split(front, at)?;
        Ok(Growing {
            walk,
            searches,
            number,
            written,
        })
    }

    // The graft after a close.
    fn close(
        self,
        alloc: Global,
        front: &'a [ProofLine],
        line: &ProofLine,
        packing: &Packing,
    ) -> Result<Growing<'a>, AllocError>
        requires line { line.now ≡ ProofLine.Close packing.now }
        requires front { front.now ≡ self.written.front ++ ProofLine.Close packing.now ∷ [] }
        requires ready { IsReadyFor (growth self) (ProofLine.Close packing.now) }
        requires room { self.number + 1 < 2 ^ 64 }
        ensures goes { IfOk result (λ next. WritesClose (growth self.entry) packing.now (growth next)) }
        ensures front { IfOk result (λ next. next.written.front ≡ front.now) }
    {
        let Some((search, left)) = self.searches.split_first() else {
            return self.kept(alloc, front, line, packing);
        };
        if search.close != self.number {
            return self.kept(alloc, front, line, packing);
        }
        self.searched(alloc, front, packing, search, left)
    }

    // The graft after a close that no search went on from.
    fn kept(
        self,
        alloc: Global,
        front: &'a [ProofLine],
        line: &ProofLine,
        packing: &Packing,
    ) -> Result<Growing<'a>, AllocError>
        requires line { line.now ≡ ProofLine.Close packing.now }
        requires front { front.now ≡ self.written.front ++ ProofLine.Close packing.now ∷ [] }
        requires ready { IsReadyFor (growth self) (ProofLine.Close packing.now) }
        requires due { IsDue self.number self.searches.now None self.searches.now }
        requires room { self.number + 1 < 2 ^ 64 }
        ensures goes { IfOk result (λ next. WritesClose (growth self.entry) packing.now (growth next)) }
        ensures front { IfOk result (λ next. next.written.front ≡ front.now) }
    {
        let Growing {
            walk,
            searches,
            number,
            written,
        } = self;
        let weight = weighed(&walk, packing);
        let walk = walk.after(line)?;
        let written = written.with_close(alloc, front, packing, weight)?;
        Ok(Growing {
            walk,
            searches,
            number: number + 1,
            written,
        })
    }

    // The graft after a close that the first search went on from, where these are left.
    fn searched(
        self,
        alloc: Global,
        front: &'a [ProofLine],
        packing: &Packing,
        search: &'a Searched,
        left: &'a [Searched],
    ) -> Result<Growing<'a>, AllocError>
        requires front { front.now ≡ self.written.front ++ ProofLine.Close packing.now ∷ [] }
        requires ready { IsReadyFor (growth self) (ProofLine.Close packing.now) }
        requires first { self.searches.now ≡ search.now ∷ left.now }
        requires due { search.now.close ≡ self.number }
        requires room { self.number + 1 < 2 ^ 64 }
        ensures goes { IfOk result (λ next. WritesClose (growth self.entry) packing.now (growth next)) }
        ensures front { IfOk result (λ next. next.written.front ≡ front.now) }
    {
        let Growing {
            walk,
            number,
            written,
            ..
        } = self;
        let weight = weighed(&walk, packing);
        let proof = lines_of(alloc, &walk, search)?;
        let bound = written.least();
        let top = weight.max(u128::from(bound));
        let (walk, least) = after_all(walk, &proof, top)?;
        let written = written.with_tree(alloc, front, packing, (weight, least), proof)?;
        Ok(Growing {
            walk,
            searches: left,
            number: number + 1,
            written,
        })
    }
}

// The lines of the proof tree that is read off a search of the first branch that is open.
fn lines_of(
    alloc: Global,
    walk: &OpenBranches<'_>,
    search: &Searched,
) -> Result<Vec<ProofLine>, AllocError>
    requires { (path : List Turn) × (walk.now.path ≡ Some path)
        × IsComplete search.now.gathered walk.now.instance (branch_of path)
        search.now.start search.now.budget }
    ensures { IfOk result (λ proof. IsFound walk.now.instance walk.now.path search.now proof.items) }
{
    complete_is_proof();
    complete_counts();
    prove!(walk.first().is_some());
    let proof = proof_lines(alloc, &search.gathered)?;
    Ok(proof)
}

// The walk after some lines, and the least of `top` and of what their closes weigh.
fn after_all<'a>(
    walk: OpenBranches<'a>,
    lines: &[ProofLine],
    top: u128,
) -> Result<(OpenBranches<'a>, u128), AllocError>
    requires { MayWalk walk.instance walk.path lines.now }
    ensures same { IfOk result (λ end. end.0.instance ≡ walk.entry.instance) }
    ensures end { IfOk result (λ end. (end.0.path, end.1)
        ≡ walked walk.entry.instance walk.entry.path top lines.now) }
{
    let mut walk = walk;
    let mut least = top;
    for line in lines {
        least = least_of(&walk, line, least);
        walk = walk.after(line)?;
    }
    Ok((walk, least))
}

// The less of `top` and of what a line's close weighs.
fn least_of(walk: &OpenBranches<'_>, line: &ProofLine, top: u128) -> u128
    ensures { result ≡ least_after walk.now.instance walk.now.path top line.now }
{
    match line {
        ProofLine::Split(_) => top,
        ProofLine::Close(packing) => top.min(weighed(walk, packing)),
    }
}

// What a packing weighs in the first branch that is open.
fn weighed(walk: &OpenBranches<'_>, packing: &Packing) -> u128
    ensures { result ≡ weight_at walk.now.instance walk.now.path packing.now }
{
    let Some(branch) = walk.first() else {
        return 0;
    };
    weight(walk.instance(), branch, packing)
}
