//! The text of the output: notices, the head, steps and the end, the counts of lists, and the line of a drill.
//!
//! `specs/Texts.antt` says what each part is, `Names.antt` and `Answers.antt` how kinds, causes and answers are printed, and
//! `Reported.antt` what each writer promises of its sink. `specs/Example.antt` computes reports.
#![tactic(auto)]

mod answer;
mod counts;
mod names;
mod texts;
mod writing;

pub use counts::DrillCounts;
pub use mutation_script::Answer;
pub use writing::{
    ReportError, write_brief_step, write_counts, write_drill, write_end, write_head, write_notices,
    write_step,
};
