ghost use Rattle.std.specs.Prelude.{◌≡◌, ◌<◌, ◌≤◌, IfOk, length, map};
ghost use Rattle.st_model.specs.Lists.{up_to};
ghost use Rattle.instance_gen.specs.Generated.{shuffled, with_exchange, all_exchanges};
ghost use Rattle.instance_gen.specs.Generated.{all_required, all_paying, all_needs};

use crate::draws::Draws;
use st_model::Need;
use std::alloc::{AllocError, Global};

// The vertices from 1 to n, of which the first t have changed places with drawn ones.
#[tactic(auto, using(crate::proofs::Drawing::exchange_more))]
pub fn shuffle(alloc: Global, draws: &mut Draws, n: u32, t: u32) -> Result<Vec<u32>, AllocError>
    requires few { n ≤ 1000000 }
    requires chosen { t ≤ n }
    ensures list { IfOk result (λ list. shuffled draws.new.last list.items ≡ all_exchanges draws.old.last n t) }
    ensures length { IfOk result (λ list. length list.items ≡ n) }
{
    let mut list = vertices(alloc, n)?;
    for index in 0..t {
        exchange(draws, &mut list, n, index);
    }
    Ok(list)
}

#[tactic(auto, using(crate::proofs::Drawing::up_to_more))]
fn vertices(alloc: Global, n: u32) -> Result<Vec<u32>, AllocError>
    requires { n ≤ 1000000 }
    ensures { IfOk result (λ list. list.items ≡ up_to n) }
{
    let mut list = Vec::new(alloc);
    for before in 0..n {
        list.push(before + 1)?;
    }
    Ok(list)
}

fn exchange(draws: &mut Draws, list: &mut Vec<u32>, n: u32, index: u32)
    requires inside { index < n }
    requires length { length list.old.items ≡ n }
    ensures list { shuffled draws.new.last list.new.items
        ≡ with_exchange n (shuffled draws.old.last list.old.items) index }
    ensures length { length list.new.items ≡ n }
{
    let other = index + draws.below(n - index);
    list.swap(index as usize, other as usize);
}

// What the chosen vertices need: all are required, or with `prizes` all pay.
pub fn draw_needs(
    alloc: Global,
    draws: &mut Draws,
    chosen: &[u32],
    prizes: bool,
) -> Result<Vec<(u32, Need)>, AllocError>
    ensures { IfOk result (λ needs. needs.items ≡ all_needs draws.old.last chosen.now prizes) }
{
    if prizes {
        pay_all(alloc, draws, chosen)
    } else {
        require_all(alloc, chosen)
    }
}

// What chosen vertices need that are all required.
fn require_all(alloc: Global, chosen: &[u32]) -> Result<Vec<(u32, Need)>, AllocError>
    ensures { IfOk result (λ needs. needs.items ≡ all_required chosen.now) }
{
    chosen
        .iter()
        .map(|vertex| (*vertex, Need::Required))
        .collect(alloc)
}

// What chosen vertices need of which each pays a drawn prize.
#[tactic(auto, using(crate::proofs::Drawing::paying_more))]
fn pay_all(alloc: Global, draws: &mut Draws, chosen: &[u32]) -> Result<Vec<(u32, Need)>, AllocError>
    ensures { IfOk result (λ needs. needs.items ≡ all_paying draws.old.last chosen.now) }
{
    let mut needs = Vec::new(alloc);
    for vertex in chosen {
        let prize = 1 + u64::from(draws.below(100));
        needs.push((*vertex, Need::Pays(prize)))?;
    }
    Ok(needs)
}
