use std::test::Fail;
use way_costs::Noise;

// A link of 7 costs as much in both directions, something else by another seed, and more than one of 6.
#[test]
fn breaks_ties_alone(rt: HostRuntime) -> Result<(), Fail> {
    assert_eq!(rt; Noise::none().cost(3, 5, 7), 7);
    let (one, other) = (Noise::of(1), Noise::of(2));
    let cost = one.cost(3, 5, 7);
    assert_eq!(rt; one.cost(5, 3, 7), cost);
    assert!(rt; other.cost(3, 5, 7) != cost);
    assert!(rt; one.scaled(6) < cost && cost <= one.scaled(7));
    Ok(())
}
