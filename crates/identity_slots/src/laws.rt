//! Why octets and IMSIs may be compared as numbers.

ghost use Rattle.identity_slots.specs.Provisioned.{EightOctetsApart, FourOctetsApart, ImsisApart};

/// No two strings of eight octets, and none of four, are one number.
pub fn octets_apart()
    ensures eight { EightOctetsApart }
    ensures four { FourOctetsApart }
{}

/// No two IMSIs have one number.
pub fn imsis_apart()
    ensures { ImsisApart }
{}
