//! Tests of the public calls, grouped by crate.
mod dicts;
mod of_best_rival;
mod of_lattice;
mod of_lattice_nodes;
mod of_rivals;
mod of_word_lookup;
mod sample;

/// Returns whether `found` and `wanted` have the same length and match item by item.
fn all_match<T, W, F: Fn(&T, &W) -> bool + Drop>(found: &[T], wanted: &[W], matches: F) -> bool
    requires { F.IsAlwaysCallable matches }
{
    let mut all = found.len() == wanted.len();
    for (one, other) in found.iter().zip(wanted.iter()) {
        all = all && matches(one, other);
    }
    all
}
