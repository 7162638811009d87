//! The default bearer of one subscriber.

ghost use Rattle.std.specs.Prelude.{◌≡◌, ◌<◌, ◌≤◌, ◌^◌, IfOk, OnOk, OnErr, length};
ghost use Rattle.nas_elements.specs.Seen.{octets_of};
ghost use Rattle.nas_messages.specs.EsmMessages.{body_lists, esm_lists};
ghost use Rattle.nas_messages.specs.declared.esm_types.EsmBody.TheVariants as bodies;
ghost use Rattle.esm_machine.specs.Reading.{is_accept};
ghost use Rattle.esm_machine.specs.Reactions.{informed, reaction, reaction_lists, reaction_to, reaction_to_fault};
ghost use Rattle.esm_machine.specs.Requests.{FitsElement, accepted_by, activated, after_request, inactive, requested, requested_lists};
ghost use Rattle.esm_machine.specs.Sent.{activation, disconnect_reject, information_request};
ghost use Rattle.esm_machine.specs.Sessions.{asks_information, is_dual, is_transaction_of, transaction_of};

use crate::cause::EsmCause;
use crate::reaction::Reaction;
use crate::reading::{asked, is_accept};
use crate::request::{Request, Requested};
use crate::sending::{connectivity_reject, disconnect_reject, status, written};
use nas_elements::NasFault;
use nas_messages::{ActivateRequest, EsmBody, EsmMessage, codes, decode_esm};
use std::alloc::{AllocError, Global};
use std::marker::Model;

/// Where the activation of a bearer stands (TS 24.301 clause 6.1.3.3).
#[derive(Clone, Copy, PartialEq, Eq, Debug)]
pub enum BearerState {
    Inactive,
    /// The phone was asked to activate it, and has not accepted.
    ActivePending,
    Active,
}

/// The default bearer of one subscriber. Each call is as defined; only those that write octets take memory.
///
/// It has the connectivity request that was taken.
#[derive(Clone, Copy)]
pub struct Bearer {
    state: BearerState,
    request: Option<Request>,
}

impl Model for Bearer {
    ghost use Rattle.esm_machine.specs.Sessions.{Session};

    ghost Value = { Session };

    ghost view = { λ b. record { state = b.state; request = b.request } };

    ghost inverse = { λ s. record { state = s.state; request = s.request } };
}

impl Bearer {
    /// No bearer, and no request.
    pub fn new() -> Bearer
        ensures { result ≡ inactive }
    {
        Bearer {
            state: BearerState::Inactive,
            request: None,
        }
    }

    /// A bearer whose activation stands there, and for which this request was taken.
    pub fn of(state: BearerState, request: Option<Request>) -> Bearer
        ensures { result ≡ record { state = state; request = request } }
    {
        Bearer { state, request }
    }

    /// The connectivity request that was taken, if one was.
    pub fn request(&self) -> Option<Request>
        ensures { result ≡ self.now.request }
    {
        self.request
    }

    /// Where the activation stands.
    pub fn state(&self) -> BearerState
        ensures { result ≡ self.now.state }
    {
        self.state
    }

    /// The octets that an ATTACH REQUEST has for session management (TS 24.301 clause 6.5.1). The first connectivity request is
    /// taken and kept, unless it asks for IPv6 alone; a further one is refused, and the first one stays.
    #[tactic(auto, unfolding(crate::specs::Requests::requested, crate::specs::Requests::after_request))]
    pub fn on_request(
        &mut self,
        alloc: Global,
        esm: &[u8],
    ) -> Result<Requested<Vec<u8>>, AllocError>
        ensures ok { IfOk result (λ answer. requested_lists answer ≡ requested self.old esm.now) }
        ensures short { IfOk result (λ answer. FitsElement (requested_lists answer)) }
        ensures state { OnOk result (self.new ≡ after_request self.old esm.now) }
        ensures err { OnErr result (self.new ≡ self.old) }
    {
        let Some(wanted) = asked(esm) else {
            return Ok(Requested::Unreadable);
        };
        if self.request.is_some() {
            let reject = connectivity_reject(alloc, EsmCause::RequestRejected, wanted.transaction)?;
            return Ok(Requested::Refused(reject));
        }
        if wanted.pdn_type == codes::PDN_TYPE_IPV6 {
            let reject = connectivity_reject(alloc, EsmCause::OnlyIpv4, wanted.transaction)?;
            return Ok(Requested::Refused(reject));
        }
        self.request = Some(Request {
            transaction: wanted.transaction,
            dual: wanted.pdn_type == codes::PDN_TYPE_IPV4V6,
            information: wanted.information,
        });
        Ok(Requested::Taken)
    }

    /// Whether the request that was taken has the ESM information transfer flag.
    pub fn asks_information(&self) -> bool
        ensures { result ≡ asks_information self.now.request }
    {
        match self.request {
            Some(request) => request.information,
            None => false,
        }
    }

    /// ESM INFORMATION REQUEST (TS 24.301 clause 6.6.1.2).
    #[tactic(auto, unfolding(crate::specs::Sent::information_request))]
    pub fn information_request(&self, alloc: Global) -> Result<Vec<u8>, AllocError>
        ensures { IfOk result (λ octets. octets.items ≡ information_request self.now) }
    {
        written(
            alloc,
            codes::NO_BEARER,
            transaction_of(self.request),
            EsmBody::InformationRequest,
        )
    }

    /// Whether an ESM INFORMATION RESPONSE in this transaction is that of the request that was taken.
    pub fn on_information(&self, transaction: u8) -> bool
        ensures { result ≡ is_transaction_of self.now.request transaction }
    {
        match self.request {
            Some(request) => request.transaction == transaction,
            None => false,
        }
    }

    /// ACTIVATE DEFAULT EPS BEARER CONTEXT REQUEST for bearer 5, with an APN of one label and an IPv4 address, and with the
    /// cause that says so where IPv4v6 was asked for (TS 24.301 clause 6.4.1.2).
    pub fn activate(
        &mut self,
        alloc: Global,
        apn: &[u8],
        address: [u8; 4],
    ) -> Result<Vec<u8>, AllocError>
        requires some { 1 ≤ length apn.now }
        requires label { length apn.now ≤ 63 }
        ensures ok { IfOk result (λ octets. octets.items ≡ activation self.old apn.now address) }
        ensures short { IfOk result (λ octets. length octets.items < 2 ^ 16) }
        ensures state { OnOk result (self.new ≡ activated self.old) }
        ensures err { OnErr result (self.new ≡ self.old) }
    {
        let octets = self.activation(alloc, apn, &address)?;
        self.state = BearerState::ActivePending;
        Ok(octets)
    }

    /// The octets that an ATTACH COMPLETE has for session management: whether they are an ACTIVATE DEFAULT EPS BEARER CONTEXT
    /// ACCEPT, for any bearer and transaction, which makes the bearer active (TS 24.301 clause 6.4.1.3). Takes no memory.
    pub fn on_accept(&mut self, esm: &[u8]) -> bool
        ensures answer { result ≡ is_accept esm.now }
        ensures state { self.new ≡ accepted_by self.old esm.now }
    {
        let accepted = is_accept(esm);
        if accepted {
            self.state = BearerState::Active;
        }
        accepted
    }

    /// PDN DISCONNECT REJECT in this transaction: the connection is the only one (TS 24.301 clause 6.5.2.4).
    pub fn on_disconnect(&self, alloc: Global, transaction: u8) -> Result<Vec<u8>, AllocError>
        ensures { IfOk result (λ octets. octets.items ≡ disconnect_reject transaction) }
    {
        disconnect_reject(alloc, transaction)
    }

    /// An ESM message that came after the attach, where ESM information was asked for and is awaited, or not (TS 24.301
    /// clauses 6.5.1.4, 6.5.2.4, 6.6.1.2, 6.7 and 7).
    #[tactic(auto, unfolding(crate::specs::Reactions::reaction))]
    pub fn on_message(
        &self,
        alloc: Global,
        octets: &[u8],
        waiting: bool,
    ) -> Result<Reaction<Vec<u8>>, AllocError>
        ensures { IfOk result (λ r. reaction_lists r ≡ reaction self.now waiting octets.now) }
    {
        if octets.len() < 3 {
            return Ok(Reaction::Nothing);
        }
        match decode_esm(octets) {
            Ok(message) => self.reaction_to(alloc, waiting, message),
            Err(fault) => reaction_to_fault(alloc, octets[0] / 16, octets[1], fault),
        }
    }

    #[tactic(auto, unfolding(crate::specs::Sent::activation, nas_elements::specs::Optionals::rule_of))]
    fn activation<'a>(
        &self,
        alloc: Global,
        apn: &'a [u8],
        address: &'a [u8; 4],
    ) -> Result<Vec<u8>, AllocError>
        requires some { 1 ≤ length apn.now }
        requires label { length apn.now ≤ 63 }
        ensures ok { IfOk result (λ octets. octets.items ≡ activation self.now apn.now address.now) }
        ensures short { IfOk result (λ octets. length octets.items < 2 ^ 16) }
    {
        let transaction = transaction_of(self.request);
        if !is_dual(self.request) {
            let body = activate_request(apn, address, None);
            return written(alloc, codes::DEFAULT_BEARER, transaction, body);
        }
        let only_ipv4 = [EsmCause::OnlyIpv4.code()];
        let body = activate_request(apn, address, Some(&only_ipv4));
        written(alloc, codes::DEFAULT_BEARER, transaction, body)
    }

    fn reaction_to(
        &self,
        alloc: Global,
        waiting: bool,
        message: EsmMessage,
    ) -> Result<Reaction<Vec<u8>>, AllocError>
        requires { message.bearer < 16 }
        ensures { IfOk result (λ r. reaction_lists r
            ≡ reaction_to self.now.request waiting message.entry.bearer message.entry.transaction (esm_lists message.entry).body) }
    {
        let (bearer, transaction) = (message.bearer, message.transaction);
        match message.body {
            EsmBody::ConnectivityRequest { .. } => {
                let reject = connectivity_reject(alloc, EsmCause::RequestRejected, transaction)?;
                Ok(Reaction::Answer(reject))
            }
            EsmBody::DisconnectRequest { .. } => {
                Ok(Reaction::Answer(self.on_disconnect(alloc, transaction)?))
            }
            EsmBody::InformationResponse => self.informed(alloc, waiting, bearer, transaction),
            EsmBody::EsmStatus { .. } => Ok(Reaction::Nothing),
            EsmBody::ActivateAccept => {
                let status = status(alloc, EsmCause::NotCompatible, bearer, transaction)?;
                Ok(Reaction::Answer(status))
            }
            EsmBody::ActivateRequest(_)
            | EsmBody::ActivateReject { .. }
            | EsmBody::ConnectivityReject { .. }
            | EsmBody::DisconnectReject { .. }
            | EsmBody::InformationRequest => {
                let status = status(alloc, EsmCause::UnknownType, bearer, transaction)?;
                Ok(Reaction::Answer(status))
            }
        }
    }

    fn informed(
        &self,
        alloc: Global,
        waiting: bool,
        bearer: u8,
        transaction: u8,
    ) -> Result<Reaction<Vec<u8>>, AllocError>
        requires { bearer < 16 }
        ensures { IfOk result (λ r. reaction_lists r ≡ informed self.now.request waiting bearer transaction) }
    {
        if !waiting {
            let status = status(alloc, EsmCause::NotCompatible, bearer, transaction)?;
            return Ok(Reaction::Answer(status));
        }
        if self.on_information(transaction) {
            Ok(Reaction::Informed)
        } else {
            Ok(Reaction::Nothing)
        }
    }
}

fn reaction_to_fault(
    alloc: Global,
    bearer: u8,
    transaction: u8,
    fault: NasFault,
) -> Result<Reaction<Vec<u8>>, AllocError>
    requires { bearer < 16 }
    ensures { IfOk result (λ r. reaction_lists r ≡ reaction_to_fault bearer transaction fault) }
{
    let cause = match fault {
        NasFault::TooShort | NasFault::NoMemory => return Ok(Reaction::Nothing),
        NasFault::Mandatory | NasFault::OptionalPart => EsmCause::InvalidMandatory,
        NasFault::UnknownType => EsmCause::UnknownType,
    };
    let status = status(alloc, cause, bearer, transaction)?;
    Ok(Reaction::Answer(status))
}

fn activate_request<'a>(
    apn: &'a [u8],
    address: &'a [u8; 4],
    cause: Option<&'a [u8]>,
) -> EsmBody<&'a [u8]>
    ensures { body_lists result
        ≡ bodies.ActivateRequest (record { apn = apn.entry.now; address = address.entry.now; cause = octets_of cause.entry }) }
{
    EsmBody::ActivateRequest(ActivateRequest {
        apn,
        address,
        cause,
    })
}

fn transaction_of(request: Option<Request>) -> u8
    ensures { result ≡ transaction_of request }
{
    match request {
        Some(request) => request.transaction,
        None => 0,
    }
}

fn is_dual(request: Option<Request>) -> bool
    ensures { result ≡ is_dual request }
{
    match request {
        Some(request) => request.dual,
        None => false,
    }
}
