//! The page tables of address spaces.
#![tactic(auto)]
