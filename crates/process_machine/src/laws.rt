ghost use Rattle.process_machine.specs.Limits.{CallsAreWithinLimits, NextCallsAreWithinLimits};

/// A law: the system call at which an image stands is within its limits, and so is the first call of a run, whatever the
/// program and the image (this project).
///
/// Data and room for an answer have at most 16,384 bytes, room for an ask of a pseudo-device at most 16,392, and a text has
/// 1 to 255; an exit's code is under 256; and a refused call has one of three errors, Invalid, BadName and BadAddress.
pub fn calls_are_within_limits()
    ensures calls { CallsAreWithinLimits }
    ensures next { NextCallsAreWithinLimits }
{}
