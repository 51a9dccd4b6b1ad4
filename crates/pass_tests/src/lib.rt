//! Tests of the passes over a source: trees, types, bodies and verdicts.
#![tactic(auto)]

#[cfg(test)]
mod cast_bodies;
#[cfg(test)]
mod depth;
#[cfg(test)]
mod flat_matches;
#[cfg(test)]
mod functions;
#[cfg(test)]
mod leaving_loops;
#[cfg(test)]
mod lowering;
#[cfg(test)]
mod printed;
#[cfg(test)]
mod struct_bodies;
#[cfg(test)]
mod tuple_bodies;
#[cfg(test)]
mod typing;
#[cfg(test)]
mod verdicts;
#[cfg(test)]
mod walks;
