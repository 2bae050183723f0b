//! Laws of the formulas, each as the contract of a function that does nothing.
ghost use Rattle.fx_time.specs.Worked.{WorkedTime};

/// Examples that were worked by hand, computed by the definitions.
pub fn worked_time()
    ensures { WorkedTime }
{}
