//! The limits of this project's profile in numbers. Definitions and code share each as a constant, so by itself a wrong one
//! would be proved everywhere; here it isn't.
#![tactic(auto)]

ghost use Rattle.stated_limits.specs.Limits.{AreApplicationLimits, AreBufferSizes, AreByteLimits, AreCodeLimits};

/// A law. It does nothing.
pub fn limits_are_as_stated()
    ensures of_applications { AreApplicationLimits }
    ensures of_code { AreCodeLimits }
    ensures of_bytes { AreByteLimits }
    ensures of_buffers { AreBufferSizes }
{}
