//! Calls that use the global allocator, since the JSON values of the toolchain support no other. `tests/hostile/refusals`
//! runs these tests with each request refused in turn. A test with a refused request must end out of memory.
#![tactic(auto)]

#[cfg(test)]
mod tests;
