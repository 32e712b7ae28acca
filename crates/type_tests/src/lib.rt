//! Tests of `icb_types`: row lines, schema words, single values, and lists of rows.
#![tactic(auto)]

#[cfg(test)]
mod helpers;
#[cfg(test)]
mod row_lines;
#[cfg(test)]
mod rows;
#[cfg(test)]
mod schema_words;
#[cfg(test)]
mod single_values;
