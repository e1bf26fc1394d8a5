//! What every legal history promises: definitions alone, in `specs/`. The proofs stand in `history_laws`.
#![tactic(auto)]
