ghost use Rattle.std.specs.Prelude.{◌≡◌, ◌≤◌, ◌+◌, ◌*◌, IfOk};
ghost use Rattle.st_model.specs.Network.{amount, prize};
ghost use Rattle.test_instances.specs.Named.{network_of_pair, network_of_triangle, triangle_links};

use st_model::{Instance, Link, Need};
use std::alloc::{AllocError, Global};

/// A link between two vertices.
pub fn link(a: u32, b: u32, cost: u64) -> Link
    ensures { result ≡ record { a = a; b = b; cost = cost } }
{
    Link { a, b, cost }
}

/// The links from 1, 2 and 3 to their centre 4 at 2 each, and the sides between any two of them.
pub fn links_of_triangle(side: u64) -> [Link; 6]
    ensures { result ≡ triangle_links side }
{
    [
        link(1, 4, 2),
        link(2, 4, 2),
        link(3, 4, 2),
        link(1, 2, side),
        link(2, 3, side),
        link(1, 3, side),
    ]
}

/// A triangle of required vertices 1, 2 and 3 with these sides, and its centre 4 at 2 from each. A
/// cheapest tree costs 6, or two sides where these cost less.
pub fn triangle_with_centre(alloc: Global, side: u64) -> Result<Instance, AllocError>
    requires { side ≤ 100 }
    ensures count { IfOk result (λ instance. instance.n ≡ 4) }
    ensures network { IfOk result (λ instance. instance ≡ network_of_triangle side) }
    ensures amount { IfOk result (λ instance. amount instance ≤ 6 + 3 * side) }
{
    let needs = [
        (1, Need::Required),
        (2, Need::Required),
        (3, Need::Required),
    ];
    Instance::build(alloc, 4, &links_of_triangle(side), &needs)
}

/// Two vertices with a link of 5 between them. A cheapest tree costs 5, or the least prize where
/// this is less.
pub fn pair(alloc: Global, first: Need, second: Need) -> Result<Instance, AllocError>
    requires first { prize first ≤ 100 }
    requires second { prize second ≤ 100 }
    ensures count { IfOk result (λ instance. instance.n ≡ 2) }
    ensures network { IfOk result (λ instance. instance ≡ network_of_pair first second) }
{
    Instance::build(alloc, 2, &[link(1, 2, 5)], &[(1, first), (2, second)])
}

/// A hub 1 with spokes to 2, 3 and 4, and a rim on which 5, 6 and 7 lie between two of these, each link at 2. The hub
/// and the last three are required, and a cheapest tree costs 10; cuts alone weigh at most 9, since half of each of the
/// nine links crosses every cut.
pub fn odd_wheel(alloc: Global) -> Result<Instance, AllocError>
    ensures count { IfOk result (λ instance. instance.n ≡ 7) }
{
    let links = [
        link(1, 2, 2),
        link(1, 3, 2),
        link(1, 4, 2),
        link(5, 2, 2),
        link(5, 3, 2),
        link(6, 3, 2),
        link(6, 4, 2),
        link(7, 2, 2),
        link(7, 4, 2),
    ];
    let needs = [
        (1, Need::Required),
        (5, Need::Required),
        (6, Need::Required),
        (7, Need::Required),
    ];
    Instance::build(alloc, 7, &links, &needs)
}
