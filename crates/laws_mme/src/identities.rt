//! M-TMSIs, GUTIs and IPv4 addresses are apart, over every run of the MME, and after how many grants one comes again. Each law is
//! the contract of a function that does nothing.

ghost use Rattle.laws_mme.specs.Addresses.{NoTwoHaveOneAddress};
ghost use Rattle.laws_mme.specs.Again.{IdsAreNew, IdsComeAgain, TmsisAreCounted};
ghost use Rattle.laws_mme.specs.Tmsis.{NoTwoHaveOneGuti, NoTwoHaveOneTmsi, TmsisAreOwn, TmsisComeSo};

/// An M-TMSI is made of the slot, and at a step stays or goes, or the slot's next is given; so over every run no two subscribers of
/// an MME have one M-TMSI, or one GUTI (TS 23.003 clauses 2.4, 2.8; TS 24.301 clause 5.4.1).
pub fn tmsis_are_apart()
    ensures step { TmsisComeSo }
    ensures own { TmsisAreOwn }
    ensures two { NoTwoHaveOneTmsi }
    ensures guti { NoTwoHaveOneGuti }
{}

/// Of any 65,536 ids that a slot gives in a row, no two are the same, and the next is the first again. A phone's M-TMSI is
/// determined by the number of grants so far.
pub fn tmsis_come_again()
    ensures new { IdsAreNew }
    ensures again { IdsComeAgain }
    ensures given { TmsisAreCounted }
{}

/// No two subscribers of an MME have one IPv4 address, which is what an attach is granted, as no two are provisioned with one
/// (TS 24.301 clause 6.2.2).
pub fn addresses_are_apart()
    ensures { NoTwoHaveOneAddress }
{}
