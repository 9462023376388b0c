//! Rows of DER and what is made of it: elements and values of X.690, attributes of RFC 5652, names
//! and attributes of RFC 4108, certificates and their extensions of RFC 5280, and signed data.
//!
//! The crate has nothing but tests, and nothing stands above it: so the crates below are proved
//! once, and a new row proves no older code again. What is proved of these calls for all octets
//! stands in their crates; the rows say what no clause can: vectors from outside, octets worked by
//! hand, and that with ample memory a call comes to its end.
#![tactic(auto)]

#[cfg(test)]
mod attribute_sets;
#[cfg(test)]
mod attributes_written;
#[cfg(test)]
mod certificates;
#[cfg(test)]
mod elements;
#[cfg(test)]
mod extensions;
#[cfg(test)]
mod identifiers;
#[cfg(test)]
mod package_attributes;
#[cfg(test)]
mod signed_data;
#[cfg(test)]
mod signer_infos;
#[cfg(test)]
mod writing;
