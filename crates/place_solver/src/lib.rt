//! Where memory requests and jumps may go, and where drawn words make them go.
#![tactic(auto)]
