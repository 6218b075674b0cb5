ghost use Rattle.std.specs.Prelude.{◌≡◌, ◌++◌, ◌∷◌, [], ◌<◌, ◌≤◌, min, IfOk};
ghost use Rattle.log_resume.specs.Lines.{standing};

use crate::growing::Graft;
use cut_packing::Packing;
use log_format::ProofLine;
use st_model::SplitAt;
use std::alloc::{AllocError, Global};
use std::marker::Model;

// Lines of a graft, and the less of a bound and of what their closes weigh. As long as each close stays they are a
// front of the old proof, and none is copied.
#[derive(Drop)]
pub struct Written<'a> {
    front: &'a [ProofLine],
    // The lines, once another proof stands in the place of a close.
    lines: Option<Vec<ProofLine>>,
    least: u64,
}

impl<'a> Model for Written<'a> {
    ghost use Rattle.log_resume.specs.Lines.{Lines, standing};

    ghost Value = { Lines };

    ghost view = { λ w. record {
      front = w.front.now;
      lines = standing w.front.now w.lines;
      least = w.least;
    } };
}

impl<'a> Written<'a> {
    // The lines of a front of the old proof.
    pub fn over(front: &'a [ProofLine], least: u64) -> Written<'a>
        ensures { result ≡ record { front = front.now; lines = front.now; least = least } }
    {
        Written {
            front,
            lines: None,
            least,
        }
    }

    // The less of the bound and of what the closes so far weigh.
    pub fn least(&self) -> u64
        ensures { result ≡ self.now.least }
    {
        self.least
    }

    // What is written.
    pub fn grown(self) -> Graft
        ensures lines { standing self.entry.front result.lines ≡ self.entry.lines }
        ensures least { result.least ≡ self.entry.least }
    {
        let Written { lines, least, .. } = self;
        Graft { lines, least }
    }

    // A split more, which is the last line of the front.
    pub fn with_split(self, front: &'a [ProofLine], at: SplitAt) -> Result<Written<'a>, AllocError>
        requires { front.now ≡ self.front ++ ProofLine.Split at ∷ [] }
        ensures { IfOk result (λ w. w ≡ record {
          front = front.now;
          lines = self.entry.lines ++ ProofLine.Split at ∷ [];
          least = self.entry.least;
        }) }
    {
        let Written { lines, least, .. } = self;
        let lines = match lines {
            None => None,
            Some(lines) => Some(with_line(lines, ProofLine::Split(at))?),
        };
        Ok(Written {
            front,
            lines,
            least,
        })
    }

    // A close more, which weighs this and is the last line of the front.
    pub fn with_close(
        self,
        alloc: Global,
        front: &'a [ProofLine],
        packing: &Packing,
        weight: u128,
    ) -> Result<Written<'a>, AllocError>
        requires { front.now ≡ self.front ++ ProofLine.Close packing.now ∷ [] }
        ensures { IfOk result (λ w. w ≡ record {
          front = front.now;
          lines = self.entry.lines ++ ProofLine.Close packing.now ∷ [];
          least = min self.entry.least weight;
        }) }
    {
        let Written { lines, least, .. } = self;
        let lines = match lines {
            None => None,
            Some(lines) => Some(with_line(lines, ProofLine::Close(packing.shared(alloc)?))?),
        };
        Ok(Written {
            front,
            lines,
            least: lesser(least, weight),
        })
    }

    // The lines of a proof tree more in the place of the last line of the front, a close; unless the
    // least of these two weighs less than that: then the close.
    pub fn with_tree(
        self,
        alloc: Global,
        front: &'a [ProofLine],
        packing: &Packing,
        weights: (u128, u128),
        proof: Vec<ProofLine>,
    ) -> Result<Written<'a>, AllocError>
        requires { front.now ≡ self.front ++ ProofLine.Close packing.now ∷ [] }
        ensures front { IfOk result (λ w. w.front ≡ front.now) }
        ensures kept { IfOk result (λ w. weights.1 < weights.0
            → (w.lines ≡ self.entry.lines ++ ProofLine.Close packing.now ∷ [])
            × (w.least ≡ min self.entry.least weights.0)) }
        ensures grown { IfOk result (λ w. weights.0 ≤ weights.1
            → (w.lines ≡ self.entry.lines ++ proof.items)
            × (w.least ≡ min self.entry.least weights.1)) }
    {
        let (weight, least) = weights;
        if least < weight {
            return self.with_close(alloc, front, packing, weight);
        }
        let before = self.least;
        let mut lines = self.into_lines(alloc)?;
        let mut proof = proof;
        lines.append(&mut proof)?;
        Ok(Written {
            front,
            lines: Some(lines),
            least: lesser(before, least),
        })
    }

    // The lines, copied if none were yet.
    fn into_lines(self, alloc: Global) -> Result<Vec<ProofLine>, AllocError>
        ensures { IfOk result (λ lines. lines.items ≡ self.entry.lines) }
    {
        let Written { front, lines, .. } = self;
        match lines {
            Some(lines) => Ok(lines),
            None => copied_lines(alloc, front),
        }
    }
}

// The same lines again.
fn copied_lines(alloc: Global, lines: &[ProofLine]) -> Result<Vec<ProofLine>, AllocError>
    ensures { IfOk result (λ copies. copies.items ≡ lines.now) }
{
    let mut copies = Vec::new(alloc);
    for line in lines {
        copies.push(copied_line(alloc, line)?)?;
    }
    Ok(copies)
}

fn copied_line(alloc: Global, line: &ProofLine) -> Result<ProofLine, AllocError>
    ensures { IfOk result (λ copy. copy ≡ line.now) }
{
    match line {
        ProofLine::Split(at) => Ok(ProofLine::Split(*at)),
        ProofLine::Close(packing) => Ok(ProofLine::Close(packing.shared(alloc)?)),
    }
}

// Some lines and one more.
fn with_line(lines: Vec<ProofLine>, line: ProofLine) -> Result<Vec<ProofLine>, AllocError>
    ensures { IfOk result (λ more. more.items ≡ lines.items ++ line ∷ []) }
{
    let mut lines = lines;
    lines.push(line)?;
    Ok(lines)
}

// The lesser of two numbers.
fn lesser(bound: u64, weight: u128) -> u64
    ensures { result ≡ min bound weight }
{
    if weight < u128::from(bound) {
        weight as u64
    } else {
        bound
    }
}
