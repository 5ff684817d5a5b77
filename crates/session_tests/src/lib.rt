//! Tests of `upload_session`: worked examples, random sessions compared with a simple model, and the hashes that are
//! kept.
#![tactic(auto)]

#[cfg(test)]
mod drawn;
#[cfg(test)]
mod kept_hashes;
#[cfg(test)]
mod parts;
#[cfg(test)]
mod sessions;
#[cfg(test)]
mod texts;
