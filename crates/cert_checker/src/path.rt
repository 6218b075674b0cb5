ghost use Rattle.std.specs.Prelude.{◌≡◌, [], ◌∷◌, IfOk, MatchOption};
ghost use Rattle.st_model.specs.Lists.{has};
ghost use Rattle.cert_checker.specs.Path.{IsInOrder, TellEnds, branch_of, leaving_out, next_path, yes_path, turned, turned_back};

use crate::lists::{holds, joined, with, with_last, without, without_last, without_new};
use crate::turn::Turn;
use st_model::{Branch, SplitAt};
use std::alloc::{AllocError, Global};
use std::marker::Model;

/// The way from the branch of all trees to the one that is judged. It holds that one branch and no
/// other, so its memory is linear in the turns.
#[derive(Drop)]
pub struct Path {
    // The last turn comes last.
    turns: Vec<Turn>,
    branch: Branch,
}

impl Model for Path {
    ghost use Rattle.std.specs.Prelude.{◌≡◌, List, reverse};
    ghost use Rattle.cert_checker.specs.declared.turn.Turn.{Turn};
    ghost use Rattle.cert_checker.specs.Path.{branch_of};

    // The turns, the last one first.
    ghost Value = { List Turn };

    ghost view = { λ p. reverse p.turns.items };

    ghost invariant = { λ p. p.branch ≡ branch_of (reverse p.turns.items) };
}

impl Path {
    // The path to the branch of all trees.
    pub(crate) fn new(alloc: Global) -> Self
        ensures { result ≡ [] }
    {
        Path {
            turns: Vec::new(alloc),
            branch: Branch::all(alloc),
        }
    }

    /// The path to the branch of the trees that reach none of these.
    pub fn leaving_out(alloc: Global, vertices: &[u32]) -> Result<Self, AllocError>
        ensures { IfOk result (λ path. path ≡ leaving_out vertices.now) }
    {
        let mut path = Path::new(alloc);
        for vertex in vertices {
            path = path.push(Turn::Outside(*vertex))?;
        }
        Ok(path)
    }

    /// The branch that the path leads to.
    pub fn branch(&self) -> &Branch
        ensures { result.now ≡ branch_of self.now }
    {
        &self.branch
    }

    // The path with one more turn.
    fn push(self, turn: Turn) -> Result<Self, AllocError>
        ensures { IfOk result (λ longer. longer ≡ turn ∷ self) }
    {
        let mut turns = self.turns;
        turns.push(turn)?;
        Ok(Path {
            turns,
            branch: turned(self.branch, turn)?,
        })
    }

    /// The path to the half of its branch that says yes to a split.
    pub fn split(self, at: SplitAt) -> Result<Self, AllocError>
        ensures { IfOk result (λ next. next ≡ yes_path self at) }
    {
        match at {
            SplitAt::Vertex(vertex) => self.push(Turn::Inside(vertex)),
            SplitAt::Link(low, high) => {
                let low_came = !self.is_inside(low);
                let high_came = !self.is_inside(high);
                self.push(Turn::Used {
                    low,
                    high,
                    low_came,
                    high_came,
                })
            }
        }
    }

    // Whether a vertex is inside in the branch that the path leads to.
    fn is_inside(&self, vertex: u32) -> bool
        ensures { result ≡ has (branch_of self.now).inside vertex }
    {
        holds(self.branch.inside.as_slice(), vertex)
    }

    // The last turn, and the path before it.
    fn pop(self) -> Option<(Turn, Self)>
        requires { TellEnds self }
        ensures { MatchOption result (self ≡ []) (λ last. self ≡ last.0 ∷ last.1) }
    {
        let mut turns = self.turns;
        let turn = turns.pop()?;
        let branch = turned_back(self.branch, turn);
        Some((turn, Path { turns, branch }))
    }

    /// The path to the next branch that waits, where the one at its end is done with. None: none waits.
    pub fn close(self) -> Result<Option<Self>, AllocError>
        requires { TellEnds self }
        ensures { IfOk result (λ next. next ≡ next_path self) }
    {
        let mut path = self;
        while let Some((turn, before)) = path.pop() {
            path = before;
            match turn {
                Turn::Inside(vertex) => return Ok(Some(path.push(Turn::Outside(vertex))?)),
                Turn::Used { low, high, .. } => {
                    return Ok(Some(path.push(Turn::Barred(low, high))?));
                }
                Turn::Outside(_) | Turn::Barred(_, _) => {}
            }
        }
        Ok(None)
    }
}

// The half of a branch that a turn goes into.
fn turned(branch: Branch, turn: Turn) -> Result<Branch, AllocError>
    requires { IsInOrder branch }
    ensures { IfOk result (λ half. half ≡ turned branch turn) }
{
    Ok(match turn {
        Turn::Inside(vertex) => Branch {
            inside: with(branch.inside, vertex)?,
            ..branch
        },
        Turn::Outside(vertex) => Branch {
            outside: with(branch.outside, vertex)?,
            ..branch
        },
        Turn::Used { low, high, .. } => Branch {
            inside: joined(joined(branch.inside, low)?, high)?,
            must: with_last(branch.must, (low, high))?,
            ..branch
        },
        Turn::Barred(low, high) => Branch {
            barred: with_last(branch.barred, (low, high))?,
            ..branch
        },
    })
}

// The branch whose half a turn went into.
fn turned_back(branch: Branch, turn: Turn) -> Branch
    requires { IsInOrder branch }
    ensures { result ≡ turned_back branch turn }
{
    match turn {
        Turn::Inside(vertex) => Branch {
            inside: without(branch.inside, vertex),
            ..branch
        },
        Turn::Outside(vertex) => Branch {
            outside: without(branch.outside, vertex),
            ..branch
        },
        Turn::Used {
            low,
            high,
            low_came,
            high_came,
        } => Branch {
            inside: without_new(without_new(branch.inside, high, high_came), low, low_came),
            must: without_last(branch.must),
            ..branch
        },
        Turn::Barred(_, _) => Branch {
            barred: without_last(branch.barred),
            ..branch
        },
    }
}
