//! What `replay` says of what `run` wrote, over images of the same names. There is no code here.
ghost use Rattle.command_edge.specs.declared.fault.Fault.{Fault};
ghost use Rattle.command_edge.specs.Ending.{fault_line};
ghost use Rattle.replay_command.specs.Accepting.{IsLastLine, HasPlainLine, AreAccepted, AreSameImages};

/// The text of a run of the flat machine, with nothing or the line of a fault after it, is judged to be a run of just the entries
/// that it shows, wherever it is read whole with the images of that run; unless a file fails or memory lacks.
pub fn texts_are_accepted()
    ensures { AreAccepted }
{}

/// The line of a fault that names no file is one line, and begins as such lines do; so a replay leaves it out.
pub fn faults_have_one_line()
    ensures { (fault : Fault) → HasPlainLine fault → IsLastLine (fault_line fault) }
{}

/// Where a run has images of its names in files, a replay reads files of the same names there, whose images are those.
pub fn same_images()
    ensures { AreSameImages }
{}
