ghost use Rattle.node_pool.specs.Laws.{PassesStayAPool};

/// Passes that only gave and took are still all passes of their pool.
pub fn passes_stay_a_pool()
    ensures { PassesStayAPool }
{}
