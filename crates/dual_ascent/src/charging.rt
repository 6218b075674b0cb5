ghost use Rattle.std.specs.Prelude.{◌≡◌, ◌+◌, ◌^◌, ◌<◌, ◌≤◌, ◌∷◌, [], ◌↔◌, nat_lt, IsTrue, IsFalse, if◌then◌else◌};
ghost use Rattle.std.specs.Bool.{OnTrue};
ghost use Rattle.st_model.specs.Branch.{IsVertexSet};
ghost use Rattle.st_model.specs.Lists.{has};
ghost use Rattle.st_model.specs.Network.{IsVertex};
ghost use Rattle.bidirected_form.specs.Entering.{CanBear, HasRoom, Returns};
ghost use Rattle.prize_transform.specs.Twins.{left_of, prize_in, has_end, Alters};
ghost use Rattle.dual_ascent.specs.Left.{AreBorne, AreEndsOf, AreLowered, AreSpent};

use bidirected_form::{Arcs, VertexKind};
use cut_packing::Cut;
use prize_transform::Twins;

/// Takes from the arcs and the twins what cuts take that were found before. Takes no memory.
pub fn charge_cuts(arcs: &mut Arcs, twins: &mut Twins, cuts: &[Cut])
    requires ends { AreEndsOf arcs.old twins.old }
    requires borne { AreBorne arcs.old twins.old cuts.now }
    ensures arcs { AreLowered arcs.old arcs.new cuts.now }
    ensures ends { AreSpent twins.old twins.new cuts.now }
{
    for cut in cuts {
        charge_cut(arcs, twins, cut);
    }
}

// Takes the value of a cut from the arcs that enter its set, and from the prize of its vertex, if
// anything is left of that.
pub fn charge_cut(arcs: &mut Arcs, twins: &mut Twins, cut: &Cut)
    requires set { IsVertexSet arcs.old.n cut.now.set }
    requires root { IsFalse (has cut.now.set arcs.old.root) }
    requires enough { CanBear arcs.old cut.now.set cut.now.y }
    requires prize { 0 < left_of twins.old cut.now.q → cut.now.y ≤ left_of twins.old cut.now.q }
    ensures arcs { AreLowered arcs.old arcs.new (cut.now ∷ []) }
    ensures ends { AreSpent twins.old twins.new (cut.now ∷ []) }
{
    arcs.charge(cut.set.as_slice(), cut.y);
    if has_left(twins, cut.q) {
        twins.charge(cut.q, cut.y);
    }
}

// Gives the value of a cut back to the arcs that enter its set, and to the prize of its vertex, if
// that has one: the reverse of charging it.
pub fn give_back_cut(arcs: &mut Arcs, twins: &mut Twins, cut: &Cut)
    requires ends { AreEndsOf arcs.old twins.old }
    requires set { IsVertexSet arcs.old.n cut.now.set }
    requires vertex { IsVertex arcs.old.n cut.now.q }
    requires room { HasRoom arcs.old cut.now.set cut.now.y }
    requires prize { 0 < prize_in arcs.old cut.now.q → left_of twins.old cut.now.q + cut.now.y < 2 ^ 64 }
    ensures arcs { Returns arcs.old arcs.new cut.now.set cut.now.y }
    ensures ends { Alters twins.old twins.new cut.now.q
        (λ left. if nat_lt 0 (prize_in arcs.old cut.now.q) then left + cut.now.y else left) }
{
    let is_prized = has_prize(arcs, cut.q);
    arcs.give_back(cut.set.as_slice(), cut.y);
    if is_prized {
        twins.give_back(cut.q, cut.y);
    }
}

// Whether a vertex may be left out for more than 0.
fn has_prize(arcs: &Arcs, vertex: u32) -> bool
    requires { IsVertex arcs.now.n vertex }
    ensures { result ≡ nat_lt 0 (prize_in arcs.now vertex) }
{
    match arcs.kind(vertex) {
        VertexKind::May(prize) => prize > 0,
        VertexKind::Outside | VertexKind::Must => false,
    }
}

// Whether anything is left of a vertex's prize; then it has an end.
fn has_left(twins: &Twins, q: u32) -> bool
    ensures left { IsTrue result ↔ (0 < left_of twins.now q) }
    ensures end { OnTrue result (IsTrue (has_end twins.now.ends q)) }
{
    !twins.ends().is_empty() && twins.left(q) > 0
}
