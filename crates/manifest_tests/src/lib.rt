//! Tests of manifests, manifest lists and their readers, one file a subject. It has no code of the
//! product.
#![tactic(auto)]

#[cfg(test)]
mod gaps;
#[cfg(test)]
mod lists;
#[cfg(test)]
mod made;
#[cfg(test)]
mod manifests;
#[cfg(test)]
mod other_list;
#[cfg(test)]
mod other_manifest;
