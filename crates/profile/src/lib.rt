//! What the contracts of roombox mean: only definitions, in `specs/`, and no code that others call.
#![tactic(auto)]
