//! How far a trace has got: what is provisioned, and the MME that is made of it.

ghost use Rattle.std.specs.Prelude.{◌≡◌, ◌≢◌, [], Err, IfErr, OnErr};
ghost use Rattle.trace_progress.specs.Effects.{configured, running, states_of_imsi, subscriber_added, vector_given};
ghost use Rattle.trace_progress.specs.Acts.{Acts, IsIdle, IsUnmade, Runs};
ghost use Rattle.trace_progress.specs.Faults.{in_provision};

use crate::fault::PlayFault;
use emm_machine::States;
use identity_slots::{Profile, Provision, ProvisionFault, Vector};
use mme_core::{Config, Mme};
use mme_types::Network;
use nas_elements::Imsi;
use std::alloc::Global;
use std::mem;
use trace_words::TraceFault;

/// How far a trace has got.
#[derive(Drop)]
pub enum Progress {
    /// No MME is spoken of yet.
    Nothing,
    /// What the MME is to be made of.
    Provisioning(Config, Provision),
    /// The MME.
    Running(Mme),
}

/// Begins the provisioning, where nothing has begun; else the fault is Order, and the progress is as it was. Takes no memory.
pub fn start(
    alloc: Global,
    progress: &mut Progress,
    number: u64,
    network: Network,
) -> Result<(), PlayFault>
    ensures acts { Acts number (configured progress.old network) result progress.new [] }
    ensures fault { IfErr (configured progress.old network) (λ fault. result ≡ Err (PlayFault.Trace number fault)) }
    ensures memory { IfErr result (λ fault. fault ≢ PlayFault.NoMemory) }
    ensures err { OnErr result (progress.new ≡ progress.old) }
    ensures write { IfErr result (λ fault. fault ≢ PlayFault.Write) }
{
    match progress {
        Progress::Nothing => {
            let config = Config { network, clock: 0 };
            reach(
                progress,
                Progress::Provisioning(config, Provision::new(alloc)),
            );
            Ok(())
        }
        Progress::Provisioning(_, _) | Progress::Running(_) => {
            Err(PlayFault::Trace(number, TraceFault::Order))
        }
    }
}

/// Gets as far as that, and what was there is dropped.
fn reach(progress: &mut Progress, next: Progress)
    ensures { progress.new ≡ next }
{
    // (an assignment would end each part of what was there, which a proof pays for)
    drop(mem::replace(progress, next));
}

/// Provisions a subscriber. Order where that hasn't begun or is over, Provision where the subscriber is refused, and NoMemory
/// last; then the progress is as it was.
pub fn add(progress: &mut Progress, number: u64, profile: Profile) -> Result<(), PlayFault>
    ensures acts { Acts number (subscriber_added progress.old profile) result progress.new [] }
    ensures fault { IfErr (subscriber_added progress.old profile) (λ fault. result ≡ Err (PlayFault.Trace number fault)) }
    ensures err { OnErr result (progress.new ≡ progress.old) }
    ensures write { IfErr result (λ fault. fault ≢ PlayFault.Write) }
{
    match progress {
        Progress::Provisioning(_, provision) => match provision.add(profile) {
            Ok(_) => Ok(()),
            Err(fault) => Err(fault_in_provision(number, fault)),
        },
        Progress::Nothing | Progress::Running(_) => {
            Err(PlayFault::Trace(number, TraceFault::Order))
        }
    }
}

/// Gives a subscriber a vector. Order where provisioning hasn't begun or is over, Provision where nobody has the IMSI or the
/// subscriber has 64 vectors, and NoMemory last; then the progress is as it was.
pub fn give(
    progress: &mut Progress,
    number: u64,
    imsi: Imsi,
    vector: Vector,
) -> Result<(), PlayFault>
    ensures acts { Acts number (vector_given progress.old imsi vector) result progress.new [] }
    ensures fault { IfErr (vector_given progress.old imsi vector) (λ fault. result ≡ Err (PlayFault.Trace number fault)) }
    ensures err { OnErr result (progress.new ≡ progress.old) }
    ensures write { IfErr result (λ fault. fault ≢ PlayFault.Write) }
{
    match progress {
        Progress::Provisioning(_, provision) => match provision.slot_of_imsi(imsi) {
            Some(slot) => match provision.give(slot, vector) {
                Ok(()) => Ok(()),
                Err(fault) => Err(fault_in_provision(number, fault)),
            },
            None => Err(PlayFault::Trace(number, TraceFault::Provision)),
        },
        Progress::Nothing | Progress::Running(_) => {
            Err(PlayFault::Trace(number, TraceFault::Order))
        }
    }
}

/// The fault of the line of that number, whose subscriber or vector was not added.
fn fault_in_provision(line: u64, fault: ProvisionFault) -> PlayFault
    ensures { result ≡ in_provision line fault }
{
    match fault {
        ProvisionFault::RepeatedImsi | ProvisionFault::RepeatedAddress | ProvisionFault::Full => {
            PlayFault::Trace(line, TraceFault::Provision)
        }
        ProvisionFault::NoMemory => PlayFault::NoMemory,
    }
}

/// Makes the MME of what is provisioned, where it doesn't run yet. A line that has a fault has it whatever memory there is. Memory
/// is refused to `run` only if no MME runs yet, and then the provisioning is gone (`IsUnmade`).
///
/// Order where nothing is provisioned, and then the progress is as it was. `Mme::new` takes what was provisioned.
pub fn run(alloc: Global, progress: &mut Progress, number: u64) -> Result<(), PlayFault>
    ensures runs { Runs number (running progress.old) result progress.new }
    ensures fault { IfErr (running progress.old) (λ fault. result ≡ Err (PlayFault.Trace number fault)) }
    ensures err { IfErr result (λ fault. fault ≢ PlayFault.NoMemory → progress.new ≡ progress.old) }
    ensures unmade { IfErr result (λ fault. fault ≡ PlayFault.NoMemory → IsUnmade progress.old progress.new) }
{
    match progress {
        Progress::Running(_) => Ok(()),
        Progress::Nothing | Progress::Provisioning(_, _) => set_out(alloc, progress, number),
    }
}

/// Makes the MME of what is provisioned, where none runs; faults as in `run`. It stands apart, so that room for an MME is made
/// ready once, and not at each line.
fn set_out(alloc: Global, progress: &mut Progress, number: u64) -> Result<(), PlayFault>
    requires { IsIdle progress.old }
    ensures runs { Runs number (running progress.old) result progress.new }
    ensures fault { IfErr (running progress.old) (λ fault. result ≡ Err (PlayFault.Trace number fault)) }
    ensures err { IfErr result (λ fault. fault ≢ PlayFault.NoMemory → progress.new ≡ progress.old) }
{
    let (config, provision) = match mem::replace(progress, Progress::Nothing) {
        Progress::Provisioning(config, provision) => (config, provision),
        other => {
            drop(other);
            return Err(PlayFault::Trace(number, TraceFault::Order));
        }
    };
    match Mme::new(alloc, config, provision) {
        Ok(mme) => {
            reach(progress, Progress::Running(mme));
            Ok(())
        }
        Err(_) => Err(PlayFault::NoMemory),
    }
}

/// The states of the subscriber of that IMSI, if one is provisioned with it.
pub fn states_of_imsi(mme: &Mme, imsi: Imsi) -> Option<States>
    ensures { result ≡ states_of_imsi imsi mme.now }
{
    match mme.slot_of_imsi(imsi) {
        Some(slot) => mme.states(slot),
        None => None,
    }
}
