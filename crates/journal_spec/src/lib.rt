//! The lines of the journal, format 1, in which each event has one spelling: definitions alone.
#![tactic(auto)]
