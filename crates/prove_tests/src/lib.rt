//! Tests of IC3 on small models from text: what is answered of each specification, with ample effort and with too
//! little.
#![tactic(auto)]

#[cfg(test)]
mod answers;
