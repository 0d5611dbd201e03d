//! Worked delay files, with the timings that they give small designs: tests alone.
#![tactic(auto)]

#[cfg(test)]
mod tests;
