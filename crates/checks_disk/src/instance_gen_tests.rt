use amounts::Scale;
use instance_gen::{Draws, generate, write_stp};
use st_model::{Instance, Link, Need};
use std::alloc::{AllocError, Global};
use std::test::Fail;
use stp_reader::read_stp;

const DRAWN: &str = "33D32945 STP File, STP Format Version 1.0
SECTION Graph
Nodes 3
Edges 3
E 1 2 95
E 1 3 38
E 2 3 62
END
SECTION Terminals
Terminals 2
T 1
T 3
END
EOF
";

#[test]
fn draws_and_writes_three_links(rt: HostRuntime) -> Result<(), Fail> {
    let instance = generate(rt.alloc(), 1, 3, 3, 2, false)?;
    let text = write_stp(rt.alloc(), &instance, Scale::Whole)?;
    assert_eq!(rt; text.as_slice(), DRAWN.as_bytes());
    Ok(())
}

const PAYING: &str = "33D32945 STP File, STP Format Version 1.0
SECTION Graph
Nodes 3
Edges 3
E 1 2 95
E 1 3 38
E 2 3 62
END
SECTION Terminals
Terminals 2
TP 1 72
TP 3 32
END
EOF
";

#[test]
fn draws_and_writes_prizes(rt: HostRuntime) -> Result<(), Fail> {
    let instance = generate(rt.alloc(), 1, 3, 3, 2, true)?;
    let text = write_stp(rt.alloc(), &instance, Scale::Whole)?;
    assert_eq!(rt; text.as_slice(), PAYING.as_bytes());
    Ok(())
}

#[test]
fn draws_follow_the_seed(rt: HostRuntime) -> Result<(), Fail> {
    let mut draws = Draws::of(1);
    for expected in [
        48271u64, 182605794, 1291394886, 1914720637, 2078669041, 407355683, 1105902161, 854716505,
        564586691, 1596680831, 192302371,
    ] {
        let below = draws.below(100);
        assert_eq!(rt; draws.last, expected);
        assert_eq!(rt; u64::from(below), expected % 100);
    }
    Ok(())
}

// Whether two instances have the same vertices, links and needs.
fn is_same(one: &Instance, other: &Instance) -> bool {
    if one.vertices() != other.vertices() || one.links() != other.links() {
        return false;
    }
    for before in 0..one.vertices() {
        if one.need(before + 1) != other.need(before + 1) {
            return false;
        }
    }
    true
}

// Whether what is written of an instance at a scale is read as the same one, at this scale.
fn is_read_back(alloc: Global, instance: &Instance, scale: Scale) -> Result<bool, Fail> {
    let text = write_stp(alloc, instance, scale)?;
    let read = read_stp(alloc, &text)?;
    Ok(read.scale == scale && is_same(instance, &read.instance))
}

#[test]
fn what_is_written_is_read(rt: HostRuntime) -> Result<(), Fail> {
    for seed in 1..6 {
        for prizes in [false, true] {
            let drawn = generate(rt.alloc(), seed * 429496729, 40, 90, 7, prizes)?;
            assert!(rt; is_read_back(rt.alloc(), &drawn, Scale::Whole)?);
        }
    }
    Ok(())
}

const DECIMALS: &str = "33D32945 STP File, STP Format Version 1.0
SECTION Graph
Nodes 3
Edges 2
E 1 2 5.5
E 2 3 0.000001
END
SECTION Terminals
Terminals 2
T 1
TP 3 2
END
EOF
";

// Links and a prize that count millionths.
fn in_millionths(alloc: Global) -> Result<Instance, AllocError> {
    let links = [
        Link {
            a: 1,
            b: 2,
            cost: 5_500_000,
        },
        Link {
            a: 2,
            b: 3,
            cost: 1,
        },
    ];
    let needs = [(1, Need::Required), (3, Need::Pays(2_000_000))];
    Instance::build(alloc, 3, &links, &needs)
}

#[test]
fn writes_decimals_that_are_read(rt: HostRuntime) -> Result<(), Fail> {
    let instance = in_millionths(rt.alloc())?;
    let text = write_stp(rt.alloc(), &instance, Scale::Millionths)?;
    assert_eq!(rt; text.as_slice(), DECIMALS.as_bytes());
    assert!(rt; is_read_back(rt.alloc(), &instance, Scale::Millionths)?);
    Ok(())
}

const ALONE: &str = "33D32945 STP File, STP Format Version 1.0
SECTION Graph
Nodes 1
Edges 0
END
SECTION Terminals
Terminals 1
TP 1 0
END
EOF
";

#[test]
fn writes_an_instance_where_no_vertex_counts(rt: HostRuntime) -> Result<(), Fail> {
    let instance = Instance::build(rt.alloc(), 1, &[], &[])?;
    let text = write_stp(rt.alloc(), &instance, Scale::Whole)?;
    assert_eq!(rt; text.as_slice(), ALONE.as_bytes());
    Ok(())
}

// The least vertices and links, and the greatest seed.
#[test]
fn draws_one_vertex(rt: HostRuntime) -> Result<(), Fail> {
    let instance = generate(rt.alloc(), 2147483646, 1, 0, 1, false)?;
    assert_eq!(rt; instance.vertices(), 1);
    assert_eq!(rt; instance.links().len(), 0);
    assert!(rt; instance.need(1) == Need::Required);
    Ok(())
}
