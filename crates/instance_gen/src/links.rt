ghost use Rattle.std.specs.Prelude.{◌≡◌, ◌+◌, ◌-◌, ◌≤◌, [], IfOk, OnOk};
ghost use Rattle.instance_gen.specs.Generated.{drawn, with_tree_link, with_further_link};
ghost use Rattle.instance_gen.specs.Generated.{tree_links as tree_links_of, further_links, all_links};

use crate::draws::Draws;
use st_model::Link;
use std::alloc::{AllocError, Global};

// All links of an instance: those of a tree, and then further ones.
pub fn draw_links(alloc: Global, draws: &mut Draws, n: u32, m: u32) -> Result<Vec<Link>, AllocError>
    requires some { 1 ≤ n }
    requires enough { n ≤ m + 1 }
    requires few { n ≤ 1000000 }
    requires small { m ≤ 4000000 }
    ensures { IfOk result (λ links. drawn draws.new.last links.items ≡ all_links draws.old.last n m) }
{
    let mut links = draw_tree(alloc, draws, n)?;
    draw_further(draws, &mut links, n, m + 1 - n)?;
    Ok(links)
}

// A link from each vertex but the first to one that comes before it.
#[tactic(auto, using(crate::proofs::Drawing::tree_more))]
fn draw_tree(alloc: Global, draws: &mut Draws, n: u32) -> Result<Vec<Link>, AllocError>
    requires some { 1 ≤ n }
    requires few { n ≤ 1000000 }
    ensures { IfOk result (λ links. drawn draws.new.last links.items ≡ tree_links_of draws.old.last (n - 1)) }
{
    let mut links = Vec::new(alloc);
    for before in 0..n - 1 {
        put_tree_link(draws, &mut links, before + 2)?;
    }
    Ok(links)
}

fn put_tree_link(draws: &mut Draws, links: &mut Vec<Link>, vertex: u32) -> Result<(), AllocError>
    requires low { 2 ≤ vertex }
    requires high { vertex ≤ 1000000 }
    ensures { OnOk result (drawn draws.new.last links.new.items
        ≡ with_tree_link vertex (drawn draws.old.last links.old.items)) }
{
    let a = 1 + draws.below(vertex - 1);
    let cost = 1 + u64::from(draws.below(100));
    links.push(Link { a, b: vertex, cost })?;
    Ok(())
}

// So many links more, each between any two vertices.
#[tactic(auto, using(crate::proofs::Drawing::further_more))]
fn draw_further(
    draws: &mut Draws,
    links: &mut Vec<Link>,
    n: u32,
    count: u32,
) -> Result<(), AllocError>
    requires some { 1 ≤ n }
    requires few { n ≤ 1000000 }
    ensures { OnOk result (drawn draws.new.last links.new.items
        ≡ further_links n (drawn draws.old.last links.old.items) count) }
{
    for _more in 0..count {
        put_further_link(draws, links, n)?;
    }
    Ok(())
}

fn put_further_link(draws: &mut Draws, links: &mut Vec<Link>, n: u32) -> Result<(), AllocError>
    requires some { 1 ≤ n }
    requires few { n ≤ 1000000 }
    ensures { OnOk result (drawn draws.new.last links.new.items
        ≡ with_further_link n (drawn draws.old.last links.old.items)) }
{
    let a = 1 + draws.below(n);
    let b = 1 + draws.below(n);
    let cost = 1 + u64::from(draws.below(100));
    links.push(Link { a, b, cost })?;
    Ok(())
}
