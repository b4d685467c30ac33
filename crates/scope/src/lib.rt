// Document 01 as definitions, in specs/. This crate has no code: the crates above it cite what stands there.
#![tactic(auto)]
