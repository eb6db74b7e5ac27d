//! The planned offsets between sites. A law is carried by a function with an empty body, whose one clause states it.
ghost use Rattle.helios_model.specs.Offset.{OffsetsAreTested};

/// The tests of an offset without a subtraction say what the signed number says.
pub fn offsets_are_tested()
    ensures { OffsetsAreTested }
{}
