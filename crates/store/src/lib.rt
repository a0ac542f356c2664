//! Labels in the places of a store: labelling on a store, step by step, goes beside labelling as
//! it is defined, whatever place each label has. `specs/` has the steps as list functions of the
//! store, `proofs/` that they go beside the definition; the code is in crate `price`.
#![tactic(auto)]
