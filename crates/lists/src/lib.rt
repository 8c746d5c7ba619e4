// No code: what the volumes of the crates above share, as lists. `specs/` has the words, `proofs/`
// the laws of a buffer that is written place by place, or stretch by stretch.
#![tactic(auto)]
