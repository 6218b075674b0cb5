ghost use Rattle.std.specs.Prelude.{◌≡◌, ℕ, All, IfOk, IfSome, filter};
ghost use Rattle.std.specs.Option.{option_map};
ghost use Rattle.cut_packing.specs.ProofTree.{ProofTree, Proves};
ghost use Rattle.branching.specs.Node.{IsNode};
ghost use Rattle.log_format.specs.Accepts.{left_over};
ghost use Rattle.log_format.specs.Preorder.{preorder};
ghost use Rattle.log_format.specs.declared.log.Version.TheVariants.{Two};
ghost use Rattle.log_format.specs.Text.{IsWritableLine, IsWritablePacking};
ghost use Rattle.log_resume.specs.Closes.{IsNextBelow, closes_of, is_light};
ghost use Rattle.log_resume.specs.Open.{IsLightOf, IsOpened, closed_by, closes_in};

use crate::open::OpenBranches;
use branching::Node;
use cut_packing::weight;
use lift_back::Reduced;
use log_format::{Proof, ProofLine};
use st_model::Instance;
use std::alloc::{AllocError, Global};
use std::marker::Model;

/// The closes of a log's proof that are still to come, in the order of its lines. They are numbered
/// from 0 on. It holds one branch, however many closes there are.
#[derive(Drop)]
pub struct Closes<'a> {
    open: OpenBranches<'a>,
    lines: &'a [ProofLine],
    number: u64,
}

impl<'a> Model for Closes<'a> {
    ghost use Rattle.std.specs.Prelude.{◌+◌, ◌^◌, ◌<◌, length};
    ghost use Rattle.log_resume.specs.Closes.{ToCome};
    ghost use Rattle.log_resume.specs.Open.{AreRightFrom, closes_along};

    ghost Value = { ToCome };

    ghost view = { λ c. record {
      instance = c.open.instance;
      nodes = closes_along c.open.path c.number c.lines.now;
    } };

    ghost invariant = { λ c. AreRightFrom c.open.instance c.open.path c.lines.now
        × (c.number + length c.lines.now < 2 ^ 64) };
}

impl<'a> Closes<'a> {
    /// All closes of a proof of what steps left, which is this instance.
    pub fn of(
        alloc: Global,
        reduced: &Reduced,
        instance: &'a Instance,
        proof: &'a Proof,
    ) -> Result<Closes<'a>, AllocError>
        requires same { instance.now ≡ reduced.now.state.instance }
        requires proves { (p : ProofTree) × (x : ℕ) × (proof.now ≡ preorder p)
            × Proves instance.now (left_over reduced.now.state) x p }
        requires writable { All (IsWritableLine Two) proof.now }
        ensures instance { IfOk result (λ closes. closes.instance ≡ instance.now) }
        ensures nodes { IfOk result (λ closes. (p : ProofTree) → proof.now ≡ preorder p
            → closes.nodes ≡ closes_of (left_over reduced.now.state) p) }
    {
        let open = OpenBranches::of(alloc, reduced, instance)?;
        Ok(Closes {
            open,
            lines: proof.lines(),
            number: 0,
        })
    }

    /// The next close that weighs less than `least`, as a node that a search can begin with, and those
    /// after it. None: no close that is still to come does. Takes time linear in the lines up to there,
    /// in their cuts and in how many vertices their branches name.
    pub fn next_below(
        self,
        alloc: Global,
        least: u64,
    ) -> Result<Option<(Node, Closes<'a>)>, AllocError>
        ensures next { IfOk result (λ found. IsNextBelow self.entry.instance least self.entry.nodes
            (option_map (λ next. (next.0, next.1.nodes)) found)) }
        ensures same { IfOk result (λ found. IfSome found (λ next. next.1.instance ≡ self.entry.instance)) }
        ensures node { IfOk result (λ found. IfSome found (λ next. IsNode self.entry.instance next.0)) }
        ensures writable { IfOk result (λ found. IfSome found (λ next. IsWritablePacking next.0.packing)) }
    {
        let Closes {
            mut open,
            mut lines,
            mut number,
        } = self;
        while let Some((line, rest)) = lines.split_first() {
            let found = light_node(alloc, &open, line, number, least)?;
            open = open.after(line)?;
            lines = rest;
            number += closes_in(line);
            if let Some(node) = found {
                let closes = Closes {
                    open,
                    lines,
                    number,
                };
                return Ok(Some((node, closes)));
            }
        }
        Ok(None)
    }
}

// How many closes a line is.
fn closes_in(line: &ProofLine) -> u64
    ensures { result ≡ closes_in line.now }
{
    match line {
        ProofLine::Split(_) => 0,
        ProofLine::Close(_) => 1,
    }
}

// The node of this number that a line closes, where it weighs less than `least`.
fn light_node(
    alloc: Global,
    walk: &OpenBranches<'_>,
    line: &ProofLine,
    number: u64,
    least: u64,
) -> Result<Option<Node>, AllocError>
    ensures light { IfOk result (IsLightOf walk.now.instance least
        (closed_by walk.now.path number line.now)) }
    ensures is_opened { IsOpened walk.now }
{
    let (Some(branch), ProofLine::Close(packing)) = (walk.first(), line) else {
        return Ok(None);
    };
    if weight(walk.instance(), branch, packing) >= u128::from(least) {
        return Ok(None);
    }
    Ok(Some(Node {
        id: number,
        branch: branch.copied(alloc)?,
        packing: packing.shared(alloc)?,
    }))
}

/// All closes that weigh less than `least`, as nodes that searches can begin with.
pub fn open_closes(alloc: Global, closes: Closes<'_>, least: u64) -> Result<Vec<Node>, AllocError>
    ensures light { IfOk result (λ nodes. nodes.items
        ≡ filter (is_light closes.entry.instance least) closes.entry.nodes) }
    ensures nodes { IfOk result (λ nodes. All (IsNode closes.entry.instance) nodes.items) }
    ensures writable { IfOk result (λ nodes. All (λ N. IsWritablePacking N.packing) nodes.items) }
{
    let mut nodes = Vec::new(alloc);
    let mut closes = closes;
    while let Some((node, rest)) = closes.next_below(alloc, least)? {
        nodes.push(node)?;
        closes = rest;
    }
    Ok(nodes)
}
