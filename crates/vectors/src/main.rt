// Writes the published DES vectors, the steps of 002 Annex B, session keys and units, as crates/vectors/stdout has them: an independent second program
// wrote that file (tests/reference).
#![tactic(auto)]

use crate::des_vectors::published;
use crate::unit_checks::{builds, checks, damaged};
use crate::unit_vectors::{annex_b, derived_keys, units};

mod des_vectors;
mod tables;
mod text;
mod unit_checks;
mod unit_vectors;

fn main() {
    published();
    annex_b();
    derived_keys();
    units();
    checks();
    damaged();
    builds();
}
