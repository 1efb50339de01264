//! Cases of the analysis of flow, worked by hand: what the rules of a point come to, joins, the least table as it is and as bytes.
#![tactic(auto)]

#[cfg(test)]
mod checks;
#[cfg(test)]
mod joins;
#[cfg(test)]
mod long_tables;
#[cfg(test)]
mod point_tables;
#[cfg(test)]
mod rules_at_points;
#[cfg(test)]
mod table_bytes;
pub mod worked_texts;
