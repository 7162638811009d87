//! Causes read and written.

ghost use Rattle.std.specs.Prelude.{◌≡◌};
ghost use Rattle.per_bits.specs.per_streams.Bits.{Gives};
ghost use Rattle.per_bits.specs.Reading.{read_at};
ghost use Rattle.per_bits.specs.Formats.{enumerated};
ghost use Rattle.per_bits.specs.Writing.{write_at};
ghost use Rattle.per_bits.specs.per_streams.Writing.{Wrote};
ghost use Rattle.per_bits.specs.Names.{view_of_name, IsName};
ghost use Rattle.s1ap_causes.specs.Causes.{cause, typed_radio_network, typed_transport, typed_nas, typed_protocol, typed_misc, typed_cause};

use crate::cause::{Cause, MiscCause, NasCause, ProtocolCause, RadioNetworkCause, TransportCause};
use per_bits::{
    BitReader, BitWriter, Element, Enumerated, PerError, PerFault, take_choice, take_name,
    write_choice,
};
use std::alloc::Global;

// A cause by its name; the last number of a group is what no other is.
macro_rules! cause_of {
    ($name:expr, $group:ident: $($number:literal $cause:ident,)* last $last_number:literal $last:ident) => {
        match $name {
            Enumerated::Extended(number) => $group::Extended(number),
            $(Enumerated::Root($number) => $group::$cause,)*
            Enumerated::Root(_) => $group::$last,
        }
    };
}

// The name of a cause.
macro_rules! name_of {
    ($value:expr, $group:ident: $($number:literal $cause:ident,)* last $last_number:literal $last:ident) => {
        match $value {
            $($group::$cause => Enumerated::Root($number),)*
            $group::$last => Enumerated::Root($last_number),
            $group::Extended(number) => Enumerated::Extended(number),
        }
    };
}

// ---- each group's numbers (TS 36.413 clause 9.3.4), as one of the two macros takes them

macro_rules! radio_network_causes {
    ($table:ident, $value:expr) => {
        $table!($value, RadioNetworkCause:
            0 Unspecified, 1 Tx2RelocOverallExpiry, 2 SuccessfulHandover,
            3 ReleaseDueToEutranGeneratedReason, 4 HandoverCancelled, 5 PartialHandover,
            6 HandoverFailureInTarget, 7 HandoverTargetNotAllowed, 8 Ts1RelocOverallExpiry,
            9 Ts1RelocPrepExpiry, 10 CellNotAvailable, 11 UnknownTargetId,
            12 NoRadioResourcesInTargetCell, 13 UnknownMmeUeS1apId, 14 UnknownEnbUeS1apId,
            15 UnknownPairUeS1apId, 16 HandoverDesirableForRadioReason, 17 TimeCriticalHandover,
            18 ResourceOptimisationHandover, 19 ReduceLoadInServingCell, 20 UserInactivity,
            21 RadioConnectionWithUeLost, 22 LoadBalancingTauRequired, 23 CsFallbackTriggered,
            24 UeNotAvailableForPsService, 25 RadioResourcesNotAvailable,
            26 FailureInRadioInterfaceProcedure, 27 InvalidQosCombination, 28 InterRatRedirection,
            29 InteractionWithOtherProcedure, 30 UnknownErabId, 31 MultipleErabIdInstances,
            32 AlgorithmsNotSupported, 33 S1IntraSystemHandoverTriggered,
            34 S1InterSystemHandoverTriggered, last 35 X2HandoverTriggered)
    };
}

macro_rules! transport_causes {
    ($table:ident, $value:expr) => {
        $table!($value, TransportCause:
            0 TransportResourceUnavailable, last 1 Unspecified)
    };
}

macro_rules! nas_causes {
    ($table:ident, $value:expr) => {
        $table!($value, NasCause:
            0 NormalRelease, 1 AuthenticationFailure, 2 Detach, last 3 Unspecified)
    };
}

macro_rules! protocol_causes {
    ($table:ident, $value:expr) => {
        $table!($value, ProtocolCause:
            0 TransferSyntaxError, 1 AbstractSyntaxErrorReject,
            2 AbstractSyntaxErrorIgnoreAndNotify, 3 MessageNotCompatible, 4 SemanticError,
            5 FalselyConstructedMessage, last 6 Unspecified)
    };
}

macro_rules! misc_causes {
    ($table:ident, $value:expr) => {
        $table!($value, MiscCause:
            0 ControlProcessingOverload, 1 NotEnoughUserPlaneResources, 2 HardwareFailure,
            3 OmIntervention, 4 Unspecified, last 5 UnknownPlmn)
    };
}

/// The cause of a number of the group's names.
fn radio_network_of(name: Enumerated<35>) -> RadioNetworkCause
    requires { IsName name }
    ensures { typed_radio_network result ≡ view_of_name name }
{
    radio_network_causes!(cause_of, name)
}

fn name_of_radio_network(cause: RadioNetworkCause) -> Enumerated<35>
    ensures { view_of_name result ≡ typed_radio_network cause }
{
    radio_network_causes!(name_of, cause)
}

impl<'a> Element<'a> for RadioNetworkCause {
    ghost format = { enumerated 35 };

    ghost view = { typed_radio_network };

    fn read(_alloc: Global, reader: &mut BitReader<'a>) -> Result<Self, PerError> {
        match take_name::<35>(reader) {
            Ok(name) => Ok(radio_network_of(name)),
            Err(fault) => Err(PerError::Fault(fault)),
        }
    }

    fn write(&self, alloc: Global, writer: &mut BitWriter) -> Result<(), PerError> {
        name_of_radio_network(*self).write(alloc, writer)
    }
}

/// The cause of a number of the group's names.
fn transport_of(name: Enumerated<1>) -> TransportCause
    requires { IsName name }
    ensures { typed_transport result ≡ view_of_name name }
{
    transport_causes!(cause_of, name)
}

fn name_of_transport(cause: TransportCause) -> Enumerated<1>
    ensures { view_of_name result ≡ typed_transport cause }
{
    transport_causes!(name_of, cause)
}

impl<'a> Element<'a> for TransportCause {
    ghost format = { enumerated 1 };

    ghost view = { typed_transport };

    fn read(_alloc: Global, reader: &mut BitReader<'a>) -> Result<Self, PerError> {
        match take_name::<1>(reader) {
            Ok(name) => Ok(transport_of(name)),
            Err(fault) => Err(PerError::Fault(fault)),
        }
    }

    fn write(&self, alloc: Global, writer: &mut BitWriter) -> Result<(), PerError> {
        name_of_transport(*self).write(alloc, writer)
    }
}

/// The cause of a number of the group's names.
fn nas_of(name: Enumerated<3>) -> NasCause
    requires { IsName name }
    ensures { typed_nas result ≡ view_of_name name }
{
    nas_causes!(cause_of, name)
}

fn name_of_nas(cause: NasCause) -> Enumerated<3>
    ensures { view_of_name result ≡ typed_nas cause }
{
    nas_causes!(name_of, cause)
}

impl<'a> Element<'a> for NasCause {
    ghost format = { enumerated 3 };

    ghost view = { typed_nas };

    fn read(_alloc: Global, reader: &mut BitReader<'a>) -> Result<Self, PerError> {
        match take_name::<3>(reader) {
            Ok(name) => Ok(nas_of(name)),
            Err(fault) => Err(PerError::Fault(fault)),
        }
    }

    fn write(&self, alloc: Global, writer: &mut BitWriter) -> Result<(), PerError> {
        name_of_nas(*self).write(alloc, writer)
    }
}

/// The cause of a number of the group's names.
fn protocol_of(name: Enumerated<6>) -> ProtocolCause
    requires { IsName name }
    ensures { typed_protocol result ≡ view_of_name name }
{
    protocol_causes!(cause_of, name)
}

fn name_of_protocol(cause: ProtocolCause) -> Enumerated<6>
    ensures { view_of_name result ≡ typed_protocol cause }
{
    protocol_causes!(name_of, cause)
}

impl<'a> Element<'a> for ProtocolCause {
    ghost format = { enumerated 6 };

    ghost view = { typed_protocol };

    fn read(_alloc: Global, reader: &mut BitReader<'a>) -> Result<Self, PerError> {
        match take_name::<6>(reader) {
            Ok(name) => Ok(protocol_of(name)),
            Err(fault) => Err(PerError::Fault(fault)),
        }
    }

    fn write(&self, alloc: Global, writer: &mut BitWriter) -> Result<(), PerError> {
        name_of_protocol(*self).write(alloc, writer)
    }
}

/// The cause of a number of the group's names.
fn misc_of(name: Enumerated<5>) -> MiscCause
    requires { IsName name }
    ensures { typed_misc result ≡ view_of_name name }
{
    misc_causes!(cause_of, name)
}

fn name_of_misc(cause: MiscCause) -> Enumerated<5>
    ensures { view_of_name result ≡ typed_misc cause }
{
    misc_causes!(name_of, cause)
}

impl<'a> Element<'a> for MiscCause {
    ghost format = { enumerated 5 };

    ghost view = { typed_misc };

    fn read(_alloc: Global, reader: &mut BitReader<'a>) -> Result<Self, PerError> {
        match take_name::<5>(reader) {
            Ok(name) => Ok(misc_of(name)),
            Err(fault) => Err(PerError::Fault(fault)),
        }
    }

    fn write(&self, alloc: Global, writer: &mut BitWriter) -> Result<(), PerError> {
        name_of_misc(*self).write(alloc, writer)
    }
}

impl<'a> Element<'a> for Cause {
    ghost format = { cause };

    ghost view = { typed_cause };

    fn read(alloc: Global, reader: &mut BitReader<'a>) -> Result<Self, PerError> {
        match take_choice(4, reader)? {
            0 => Ok(Cause::RadioNetwork(RadioNetworkCause::read(alloc, reader)?)),
            1 => Ok(Cause::Transport(TransportCause::read(alloc, reader)?)),
            2 => Ok(Cause::Nas(NasCause::read(alloc, reader)?)),
            3 => Ok(Cause::Protocol(ProtocolCause::read(alloc, reader)?)),
            4 => Ok(Cause::Misc(MiscCause::read(alloc, reader)?)),
            _ => Err(PerError::Fault(PerFault::Range)),
        }
    }

    fn write(&self, alloc: Global, writer: &mut BitWriter) -> Result<(), PerError> {
        match self {
            Cause::RadioNetwork(cause) => write_choice(4, 0, cause, alloc, writer),
            Cause::Transport(cause) => write_choice(4, 1, cause, alloc, writer),
            Cause::Nas(cause) => write_choice(4, 2, cause, alloc, writer),
            Cause::Protocol(cause) => write_choice(4, 3, cause, alloc, writer),
            Cause::Misc(cause) => write_choice(4, 4, cause, alloc, writer),
        }
    }
}
