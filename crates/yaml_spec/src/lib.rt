//! The definitions of the YAML profile, with the sections of YAML 1.2.2 that they restate. They stand in `specs/`; a list of the
//! modules is in `docs/yaml.md`. One law of its own: the decimal text of an integer of 128 bits is typed as an integer and reads
//! as it (`proofs/IntegersBack`).
#![tactic(auto)]
