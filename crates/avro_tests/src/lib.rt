//! Tests of the crates of Avro schemas and values, one file a subject. It has no code of the product.
#![tactic(auto)]

#[cfg(test)]
mod avro_calls;
#[cfg(test)]
mod avro_helpers;
#[cfg(test)]
mod avro_hostile;
#[cfg(test)]
mod avro_rows;
#[cfg(test)]
mod schema_limits;
#[cfg(test)]
mod schema_lists;
#[cfg(test)]
mod schema_many_names;
#[cfg(test)]
mod schema_names;
#[cfg(test)]
mod schema_refusals;
#[cfg(test)]
mod schema_rows;
#[cfg(test)]
mod schema_texts;
