//! The actions of a step.

ghost use Rattle.std.specs.Prelude.{◌≡◌, ◌≢◌, ◌<◌, ◌^◌, IfOk, IsErrOf, OnErr, OnOk, Some, None, option_map};
ghost use Rattle.mme_types.specs.s1ap_pdus.Pdus.{encoded, lists};
ghost use Rattle.mme_types.specs.s1ap_causes.declared.cause.Cause.TheVariants as causes;
ghost use Rattle.mme_types.specs.s1ap_causes.declared.cause.NasCause.TheVariants as nas_causes;
ghost use Rattle.nas_security.specs.Accepting.{accepted, last_after};
ghost use Rattle.emm_state.specs.Actions.{connect, connect_on, association_counted, counting_from, disconnected, emit, ended, fall, is_registered, leave_old, lost, mac_of, next_id, protect, protect_and_await, refuse, release, resting, seal, sealed_under, seen_accepted, send, set_up, set_up_with, start, turn_away, unsealed, wipe, with_context};
ghost use Rattle.emm_state.specs.Does.{Does, Makes};
ghost use Rattle.emm_state.specs.declared.draft.Draft.{Draft};

use crate::draft::{Draft, Sealed, StepStop};
use crate::setting::Setting;
use crate::solo::{Context, Countdown, NasTimer, Phase, Protection, Repeat};
use eps_keys::Kenb;
use esm_machine::Bearer;
use identity_slots::{AssociationId, Slot};
use mme_types::s1ap::S1apPdu;
use mme_types::s1ap::elements::{Cause, EnbUeId, NasCause};
use mme_types::{
    Answer, Connection, Mark, NasOctets, SentOctets, StationNumber, context_setup, downlink,
    release_command,
};
use nas_messages::{SecurityHeader, timers};
use nas_security::{SecurityContext, SecurityFault};
use std::alloc::{AllocError, Global};

// The cause of an association that ends as it should.
fn normal_release() -> Cause
    ensures { result ≡ causes.Nas nas_causes.NormalRelease }
{
    Cause::Nas(NasCause::NormalRelease)
}

/// Whether the phone is registered, and stays so where its connection ends.
pub fn is_registered(phase: Phase) -> bool
    ensures { result ≡ is_registered phase }
{
    match phase {
        Phase::Registered | Phase::Updating => true,
        Phase::Deregistered
        | Phase::Authenticating
        | Phase::SecurityMode
        | Phase::EsmInformation
        | Phase::Accepting
        | Phase::Detaching => false,
    }
}

impl Context {
    /// What NAS octets in the protected form bring, where the context accepts them under one of the headers allowed (TS 24.301
    /// clause 4.4.4.3): the mark of its vector and their uplink NAS COUNT, under which it accepts nothing again, and the message.
    /// Where it doesn't, nothing changes. Takes no memory.
    #[inline(always)]
    pub fn accept<'a>(
        &mut self,
        nas: &'a [u8],
        allowed: &[SecurityHeader],
    ) -> Result<(Mark, &'a [u8]), SecurityFault>
        ensures answer { seen_accepted result ≡ accepted (mac_of self.old) self.old.security.up_last allowed.now nas.entry.now }
        ensures place { IfOk result (λ found. found.0.place ≡ self.old.place) }
        ensures state { self.new
            ≡ record self.old {
              security =
                  record self.old.security { up_last = last_after self.old.security.up_last (seen_accepted result) };
            } }
    {
        let place = self.place;
        let (count, message) = self.security.accept(nas, allowed)?;
        Ok((Mark { place, count }, message))
    }

    // The protected form of a NAS message under the next downlink count, which is counted where the context stands.
    fn seal(
        &mut self,
        alloc: Global,
        header: SecurityHeader,
        nas: &[u8],
    ) -> Result<Sealed, StepStop>
        ensures does { (d : Draft) → Makes result (with_context self.new d) (sealed_under header nas.now d self.old) }
        ensures due { (d : Draft) → IsErrOf result StepStop.NoMemory → sealed_under header nas.now d self.old ≢ None }
        ensures err { OnErr result (self.new ≡ self.old) }
    {
        let under = Mark {
            place: self.place,
            count: self.security.down_next(),
        };
        match self.security.protect(alloc, header, nas) {
            Ok(form) => Ok(Sealed {
                form: NasOctets::new(form),
                under: Some(under),
            }),
            Err(SecurityFault::NoMemory) => Err(StepStop::NoMemory),
            Err(_) => Err(StepStop::Spent),
        }
    }

    // The next downlink count is this one, whatever it was.
    fn count_from(&mut self, count: u32)
        ensures { self.new ≡ counting_from count self.old }
    {
        let security = &self.security;
        self.security = SecurityContext::new(
            *security.integrity(),
            security.ksi(),
            count,
            security.up_last(),
        );
    }
}

impl Draft {
    /// The message goes to the station, and its NAS message under a mark where it is protected. It is lent, so that it can go to
    /// several.
    #[tactic(auto, unfolding(crate::specs::Actions::emit))]
    #[inline(always)]
    pub fn emit_lent(
        &mut self,
        alloc: Global,
        station: StationNumber,
        message: &S1apPdu,
        under: Option<Mark>,
    ) -> Result<(), AllocError>
        ensures after { OnOk result (self.new ≡ emit station (lists message.now) under self.old) }
        ensures err { OnErr result (self.new ≡ self.old) }
    {
        let Some(octets) = SentOctets::of_message(alloc, message)? else {
            self.unwritten = true;
            return Ok(());
        };
        self.sent.push(Answer {
            station,
            octets,
            under,
        })
    }

    // The same, out of line.
    #[inline(never)]
    fn emit_from(
        &mut self,
        alloc: Global,
        station: StationNumber,
        message: &S1apPdu,
        under: Option<Mark>,
    ) -> Result<(), AllocError>
        ensures after { OnOk result (self.new ≡ emit station (lists message.now) under self.old) }
        ensures err { OnErr result (self.new ≡ self.old) }
    {
        self.emit_lent(alloc, station, message, under)
    }

    /// The same of a message that goes to one station, and ends here. It is inlined, so that the message isn't moved.
    #[inline(always)]
    pub fn emit(
        &mut self,
        alloc: Global,
        station: StationNumber,
        message: S1apPdu,
        under: Option<Mark>,
    ) -> Result<(), AllocError>
        ensures after { OnOk result (self.new ≡ emit station (lists message.entry) under self.old) }
        ensures err { OnErr result (self.new ≡ self.old) }
    {
        self.emit_from(alloc, station, &message, under)
    }

    // Two messages to one station, or neither.
    #[tactic(auto, unfolding(crate::specs::Actions::emit))]
    fn emit_both(
        &mut self,
        alloc: Global,
        station: StationNumber,
        first: S1apPdu,
        second: S1apPdu,
    ) -> Result<(), AllocError>
        ensures after { OnOk result (self.new
            ≡ emit station (lists second.entry) None (emit station (lists first.entry) None self.old)) }
        ensures err { OnErr result (self.new ≡ self.old) }
    {
        let count = self.sent.as_slice().len();
        let unwritten = self.unwritten;
        self.emit(alloc, station, first, None)?;
        let emitted = self.emit(alloc, station, second, None);
        if emitted.is_err() {
            self.sent.truncate(count);
            self.unwritten = unwritten;
        }
        emitted
    }

    /// NAS to the phone, plain, in DOWNLINK NAS TRANSPORT.
    #[tactic(auto, unfolding(crate::specs::Actions::send))]
    pub fn send(&mut self, alloc: Global, nas: &[u8]) -> Result<(), AllocError>
        ensures after { OnOk result (self.new ≡ send nas.now self.old) }
        ensures err { OnErr result (self.new ≡ self.old) }
    {
        let Some(connection) = self.solo.connection else {
            return Ok(());
        };
        let station = connection.station;
        let message = downlink(connection, nas);
        self.emit(alloc, station, message, None)
    }

    /// UE CONTEXT RELEASE COMMAND, and the connection is gone.
    #[tactic(auto, unfolding(crate::specs::Actions::release, crate::specs::Actions::disconnected))]
    pub fn release(&mut self, alloc: Global, cause: Cause) -> Result<(), AllocError>
        ensures after { OnOk result (self.new ≡ release cause self.old) }
        ensures err { OnErr result (self.new ≡ self.old) }
    {
        let Some(connection) = self.solo.connection else {
            return Ok(());
        };
        let message = release_command(connection.id, connection.enb_ue_id, cause);
        self.emit(alloc, connection.station, message, None)?;
        self.solo.connection = None;
        Ok(())
    }

    /// All of the registration is gone, and zeros stand where its keys were; counters and the next vector's place stay.
    #[tactic(auto, unfolding(crate::specs::Actions::wipe))]
    pub fn wipe(&mut self)
        ensures { self.new ≡ wipe self.old }
    {
        self.solo.phase = Phase::Deregistered;
        self.solo.forget();
        self.solo.tmsi = None;
        self.solo.bearer = Bearer::new();
        self.solo.repeat = None;
        self.solo.procedure = None;
        self.solo.reachable = None;
    }

    /// No procedure is under way.
    #[tactic(auto, unfolding(crate::specs::Actions::ended))]
    pub fn end_procedure(&mut self)
        ensures { self.new ≡ ended self.old }
    {
        self.solo.repeat = None;
        self.solo.procedure = None;
    }

    // Registered and idle, with no procedure, and reachable for so long.
    #[tactic(auto, unfolding(crate::specs::Actions::resting, crate::specs::Actions::ended))]
    fn rest(&mut self)
        ensures { self.new ≡ resting self.old }
    {
        self.end_procedure();
        self.solo.phase = Phase::Registered;
        self.solo.reachable = Some(timers::MOBILE_REACHABLE_TICKS);
    }

    /// The connection is gone without a message.
    #[tactic(auto, unfolding(crate::specs::Actions::lost, crate::specs::Actions::disconnected))]
    pub fn lose(&mut self)
        ensures { self.new ≡ lost self.old }
    {
        self.solo.connection = None;
        if is_registered(self.solo.phase) {
            self.rest();
        } else {
            self.wipe();
        }
    }

    /// The connection ends: a phone that is registered is idle, any other is forgotten.
    #[tactic(auto, unfolding(crate::specs::Actions::fall))]
    pub fn fall(&mut self, alloc: Global, cause: Cause) -> Result<(), AllocError>
        ensures after { OnOk result (self.new ≡ fall cause self.old) }
        ensures err { OnErr result (self.new ≡ self.old) }
    {
        self.release(alloc, cause)?;
        if is_registered(self.solo.phase) {
            self.rest();
        } else {
            self.wipe();
        }
        Ok(())
    }

    // An old connection elsewhere is released.
    #[tactic(auto, unfolding(crate::specs::Actions::leave_old))]
    fn leave_old(
        &mut self,
        alloc: Global,
        station: StationNumber,
        enb_ue_id: EnbUeId,
    ) -> Result<(), AllocError>
        ensures after { OnOk result (self.new ≡ leave_old station enb_ue_id self.old) }
        ensures err { OnErr result (self.new ≡ self.old) }
    {
        let Some(old) = self.solo.connection else {
            return Ok(());
        };
        if old.station == station && old.enb_ue_id == enb_ue_id {
            return Ok(());
        }
        let message = release_command(old.id, old.enb_ue_id, normal_release());
        self.emit(alloc, old.station, message, None)
    }

    /// The association with this id is the connection.
    #[tactic(auto, unfolding(crate::specs::Actions::connect_on))]
    pub fn connect_on(
        &mut self,
        alloc: Global,
        id: AssociationId,
        station: StationNumber,
        enb_ue_id: EnbUeId,
    ) -> Result<(), AllocError>
        ensures after { OnOk result (self.new ≡ connect_on id station enb_ue_id self.old) }
        ensures err { OnErr result (self.new ≡ self.old) }
    {
        self.leave_old(alloc, station, enb_ue_id)?;
        self.solo.connection = Some(Connection {
            id,
            station,
            enb_ue_id,
        });
        Ok(())
    }

    // The slot's next association id.
    #[tactic(auto, unfolding(crate::specs::Actions::association_counted))]
    fn next_id(&mut self, slot: Slot) -> AssociationId
        ensures id { result ≡ next_id slot self.old }
        ensures counted { self.new ≡ association_counted self.old }
    {
        let (id, counter) = self.solo.associations.association(slot);
        self.solo.associations = counter;
        id
    }

    /// An association with the slot's next id is the connection.
    #[tactic(auto, unfolding(crate::specs::Actions::connect, crate::specs::Actions::association_counted))]
    pub fn connect(
        &mut self,
        alloc: Global,
        slot: Slot,
        station: StationNumber,
        enb_ue_id: EnbUeId,
    ) -> Result<(), AllocError>
        ensures after { OnOk result (self.new ≡ connect slot station enb_ue_id self.old) }
        ensures err { OnErr result (self.new ≡ self.old) }
    {
        let before = self.solo.associations;
        let id = self.next_id(slot);
        let connected = self.connect_on(alloc, id, station, enb_ue_id);
        if connected.is_err() {
            self.solo.associations = before;
        }
        connected
    }

    /// A phone's request is answered by a release alone, on an association of its own; all else stays.
    #[tactic(auto, unfolding(crate::specs::Actions::turn_away, crate::specs::Actions::emit, crate::specs::Actions::association_counted))]
    pub fn turn_away(
        &mut self,
        alloc: Global,
        slot: Slot,
        station: StationNumber,
        enb_ue_id: EnbUeId,
    ) -> Result<(), AllocError>
        ensures after { OnOk result (self.new ≡ turn_away slot station enb_ue_id self.old) }
        ensures err { OnErr result (self.new ≡ self.old) }
    {
        let (id, counter) = self.solo.associations.association(slot);
        let message = release_command(id, enb_ue_id, normal_release());
        self.emit(alloc, station, message, None)?;
        self.solo.associations = counter;
        Ok(())
    }

    /// A phone's request is refused by a plain message and a release, on an association of its own; all else stays.
    #[tactic(auto, unfolding(crate::specs::Actions::refuse, crate::specs::Actions::emit, crate::specs::Actions::association_counted))]
    pub fn refuse(
        &mut self,
        alloc: Global,
        slot: Slot,
        station: StationNumber,
        enb_ue_id: EnbUeId,
        nas: &[u8],
    ) -> Result<(), AllocError>
        ensures after { OnOk result (self.new ≡ refuse slot station enb_ue_id nas.now self.old) }
        ensures err { OnErr result (self.new ≡ self.old) }
    {
        let (id, counter) = self.solo.associations.association(slot);
        let message = downlink(
            Connection {
                id,
                station,
                enb_ue_id,
            },
            nas,
        );
        let released = release_command(id, enb_ue_id, normal_release());
        self.emit_both(alloc, station, message, released)?;
        self.solo.associations = counter;
        Ok(())
    }

    /// The timer's countdown runs, and what is sent again is kept.
    #[tactic(auto, unfolding(crate::specs::Actions::start))]
    pub fn start(&mut self, timer: NasTimer, repeat: Repeat)
        ensures { self.new ≡ start timer repeat self.old }
    {
        self.solo.repeat = Some(repeat);
        self.solo.procedure = Some(Countdown {
            timer,
            left: timer.ticks(),
            repeats: timer.repeats(),
        });
    }

    // The protected form of a NAS message, under the next downlink count.
    #[tactic(auto, unfolding(crate::specs::Actions::seal))]
    fn seal(
        &mut self,
        alloc: Global,
        header: SecurityHeader,
        nas: &[u8],
    ) -> Result<Sealed, StepStop>
        ensures does { Makes result self.new (seal header nas.now self.old) }
        ensures due { IsErrOf result StepStop.NoMemory → seal header nas.now self.old ≢ None }
        ensures err { OnErr result (self.new ≡ self.old) }
    {
        match &mut self.solo.context {
            Some(context) => context.seal(alloc, header, nas),
            None => Ok(Sealed {
                form: NasOctets::new(Vec::new(alloc)),
                under: None,
            }),
        }
    }

    // What was sealed isn't sent: the count that it is under is the next one again.
    #[tactic(auto, unfolding(crate::specs::Actions::unsealed))]
    #[inline(never)]
    fn unseal(&mut self, under: Option<Mark>)
        ensures { self.new ≡ unsealed under self.old }
    {
        if let (Some(context), Some(mark)) = (&mut self.solo.context, under) {
            context.count_from(mark.count);
        }
    }

    /// NAS to the phone, protected, in DOWNLINK NAS TRANSPORT. Whether the counts are spent is looked at first, and a call that is
    /// refused spends none.
    #[tactic(auto, using(crate::proofs::Unsealing::unsealed_after), unfolding(crate::specs::Actions::protect))]
    pub fn protect(
        &mut self,
        alloc: Global,
        header: SecurityHeader,
        nas: &[u8],
    ) -> Result<(), StepStop>
        ensures does { Does result self.new (protect header nas.now self.old) }
        ensures due { IsErrOf result StepStop.NoMemory → protect header nas.now self.old ≢ None }
        ensures err { OnErr result (self.new ≡ self.old) }
    {
        let Sealed { form, under } = self.seal(alloc, header, nas)?;
        let Some(connection) = self.solo.connection else {
            return Ok(());
        };
        let station = connection.station;
        let message = downlink(connection, form.as_slice());
        let sent = self.emit(alloc, station, message, under);
        if sent.is_err() {
            self.unseal(under);
            return Err(StepStop::NoMemory);
        }
        Ok(())
    }

    /// The same, and it is sent again when the timer ends.
    pub fn protect_and_await(
        &mut self,
        alloc: Global,
        timer: NasTimer,
        header: SecurityHeader,
        nas: Vec<u8>,
    ) -> Result<(), StepStop>
        ensures does { Does result self.new (protect_and_await timer header nas.items self.old) }
        ensures due { IsErrOf result StepStop.NoMemory → protect_and_await timer header nas.items self.old ≢ None }
        ensures err { OnErr result (self.new ≡ self.old) }
    {
        self.protect(alloc, header, nas.as_slice())?;
        let repeat = Repeat::Nas(Protection::Under(header), NasOctets::new(nas));
        self.start(timer, repeat);
        Ok(())
    }

    // INITIAL CONTEXT SETUP REQUEST, with a protected NAS message where there is one.
    #[tactic(auto, unfolding(crate::specs::Actions::set_up))]
    fn set_up<'x>(
        &mut self,
        alloc: Global,
        setting: &'x Setting,
        kenb: Kenb,
        nas: Option<&'x [u8]>,
        under: Option<Mark>,
    ) -> Result<(), AllocError>
        ensures after { OnOk result (self.new ≡ set_up setting.now kenb (option_map (λ o. o.now) nas.entry) under self.old) }
        ensures err { OnErr result (self.new ≡ self.old) }
    {
        let Some(connection) = self.solo.connection else {
            return Ok(());
        };
        let station = connection.station;
        let message = context_setup(
            alloc,
            setting.network.get(),
            &setting.profile,
            &self.solo.asked.capability,
            connection,
            kenb,
            nas,
        )?;
        self.emit(alloc, station, message, under)
    }

    /// INITIAL CONTEXT SETUP REQUEST without a NAS message.
    #[tactic(auto, unfolding(crate::specs::Actions::set_up))]
    pub fn set_up_alone(
        &mut self,
        alloc: Global,
        setting: &Setting,
        kenb: Kenb,
    ) -> Result<(), AllocError>
        ensures after { OnOk result (self.new ≡ set_up setting.now kenb None None self.old) }
        ensures err { OnErr result (self.new ≡ self.old) }
    {
        self.set_up(alloc, setting, kenb, None, None)
    }

    /// INITIAL CONTEXT SETUP REQUEST with a NAS message that is protected here, and refused as by [`Draft::protect`].
    #[tactic(auto, using(crate::proofs::Unsealing::unsealed_after), unfolding(crate::specs::Actions::set_up_with))]
    pub fn set_up_with(
        &mut self,
        alloc: Global,
        setting: &Setting,
        kenb: Kenb,
        nas: &[u8],
    ) -> Result<(), StepStop>
        ensures does { Does result self.new (set_up_with setting.now kenb nas.now self.old) }
        ensures due { IsErrOf result StepStop.NoMemory → set_up_with setting.now kenb nas.now self.old ≢ None }
        ensures err { OnErr result (self.new ≡ self.old) }
    {
        let Sealed { form, under } = self.seal(
            alloc,
            SecurityHeader::IntegrityProtectedCiphered,
            nas,
        )?;
        let sent = self.set_up(alloc, setting, kenb, Some(form.as_slice()), under);
        if sent.is_err() {
            self.unseal(under);
            return Err(StepStop::NoMemory);
        }
        Ok(())
    }
}
