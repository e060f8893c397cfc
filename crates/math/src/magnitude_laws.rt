// The laws of magnitude, which the bounds of features and contacts rest on.
ghost use Rattle.math.specs.MagnitudeLaws.{OperationLaws, VectorLaws, AcceptedLaws};

// Nothing is done: that the laws hold is all that the call says.
pub fn laws_of_magnitude()
    ensures operations { OperationLaws }
    ensures vectors { VectorLaws }
    ensures accepted { AcceptedLaws }
{}
