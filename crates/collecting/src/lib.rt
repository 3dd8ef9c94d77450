//! What a collection marks and dooms, by what its operations were told.
#![tactic(auto)]
