//! The causes of S1AP (TS 36.413 clause 9.2.1.3): why something ended or failed, as values and as their spellings in aligned PER.
#![tactic(auto)]

mod cause;
mod element;

pub use cause::{Cause, MiscCause, NasCause, ProtocolCause, RadioNetworkCause, TransportCause};
