use st_model::Instance;
use test_instances::{bit, cost_of_set};

// The least over all sets of six vertices that have one vertex and haven't another one; u64::MAX
// where there is none.
pub fn least_over_sets(instance: &Instance, inside: u32, outside: u32) -> u64 {
    let mut least = u64::MAX;
    for half in 1..64u32 {
        let set = half * 2;
        if set & bit(inside) != 0 && set & bit(outside) == 0 {
            least = least.min(cost_of_set(instance, set).unwrap_or(u64::MAX));
        }
    }
    least
}
