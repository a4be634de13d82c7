//! The law that one process alone is determined by its image, whatever the frames. There is no code here.
ghost use Rattle.flat_laws.specs.Agreement.{OneGoesOn, VisibleAgrees, OverIsAll, BothOverAreSame, EndIsLast};

/// Of two runs of one image, whose process has no child and is refused no swap space, what is done in one is the beginning of what
/// is done in the other. So are the outputs, the replies and the end that are seen. Where both went on until the process could
/// step no more, all of it is the same, and so is the state that they leave. A process whose end is seen can step no more.
pub fn one_process_is_determined()
    ensures acts { OneGoesOn }
    ensures visible { VisibleAgrees }
    ensures over { OverIsAll }
    ensures same { BothOverAreSame }
    ensures end { EndIsLast }
{}
