//! The law that a trace has one grade. There is no code here.
ghost use Rattle.std.specs.Prelude.{◌≡◌, List};
ghost use Rattle.vm_facts.specs.declared.entry.Entry.{Entry};
ghost use Rattle.grade_command.specs.declared.grading.Grade.{Grade};
ghost use Rattle.grade_command.specs.Grading.{IsGradeOf};

/// Of no two grades the same journal and entries are so: entries that are the journal are no strict front of it, and neither parts from it;
/// and they part from it at one line.
pub fn traces_have_one_grade()
    ensures { (journal entries : List Entry) (grade other : Grade) → IsGradeOf journal entries grade → IsGradeOf journal entries other → grade ≡ other }
{}
