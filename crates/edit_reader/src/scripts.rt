use bud_base::Listed;
use bud_design::Edit;

/// A line of a script, with its number among all lines of the text, from 1 on.
#[derive(Debug, Drop)]
pub enum ScriptLine {
    /// The design's timing or its policy changes.
    Change(u32, Edit),
    /// A plan is asked for.
    Plan(u32),
}

pub type Script = Listed<ScriptLine>;
