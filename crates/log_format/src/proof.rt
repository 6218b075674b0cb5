ghost use Rattle.std.specs.Prelude.{◌≡◌, ◌↔◌, IsSome, IfSome, IsTrue};
ghost use Rattle.log_format.specs.Preorder.{IsOneProof, are_proofs};

use crate::ProofLine;
use std::marker::Model;

/// The lines of exactly one proof tree: a split before its two halves, the one that says yes before
/// the other.
#[derive(Debug, Drop)]
pub struct Proof {
    lines: Vec<ProofLine>,
}

impl Model for Proof {
    ghost use Rattle.std.specs.Prelude.{List, IsTrue};
    ghost use Rattle.log_format.specs.declared.proof_line.ProofLine.{ProofLine};
    ghost use Rattle.log_format.specs.Preorder.{are_proofs};

    ghost Value = { List ProofLine };

    ghost view = { λ p. p.lines.items };

    ghost invariant = { λ p. IsTrue (are_proofs 1 p.lines.items) };
}

impl Proof {
    /// The proof of these lines, exactly where they are one proof tree.
    pub fn of(lines: Vec<ProofLine>) -> Option<Proof>
        ensures one { IsSome result ↔ IsOneProof lines.items }
        ensures lines { IfSome result (λ p. p ≡ lines.items) }
    {
        if is_one_proof(&lines) {
            Some(Proof { lines })
        } else {
            None
        }
    }

    // The proof of lines that are known to be one proof tree.
    pub(crate) fn whole(lines: Vec<ProofLine>) -> Proof
        requires { IsTrue (are_proofs 1 lines.items) }
        ensures { result ≡ lines.items }
    {
        Proof { lines }
    }

    /// The lines, which are one proof tree.
    pub fn lines(&self) -> &[ProofLine]
        ensures all { result.now ≡ self.now }
        ensures one { IsOneProof self.now }
    {
        &self.lines
    }
}

// Whether the lines are exactly one proof tree: a split opens a half more, and a close ends one.
fn is_one_proof(lines: &[ProofLine]) -> bool
    ensures { result ≡ are_proofs 1 lines.now }
{
    let mut open: u128 = 1;
    for line in lines {
        if open == 0 {
            return false;
        }
        match line {
            ProofLine::Split(_) => open += 1,
            ProofLine::Close(_) => open -= 1,
        }
    }
    open == 0
}
