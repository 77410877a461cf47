//! The requests of a link. Fields that say nothing are 0, false, null or empty.

ghost use Rattle.std.specs.Prelude.{◌≡◌, ◌∷◌, [], map, pos, IfOk, Some};
ghost use Rattle.ua_base.specs.Modes.{mode_number};
ghost use Rattle.link_rules.specs.Requests.{acknowledgement, activation_request, anonymous, channel_request};
ghost use Rattle.link_rules.specs.Requests.{client_description, item_request, item_requests, items_request};
ghost use Rattle.link_rules.specs.Requests.{level_request, mode_request, probe_request, publish_request, read_request};
ghost use Rattle.link_rules.specs.Requests.{republish_request, session_request_of, subscription_request};
ghost use Rattle.link_rules.specs.Requests.{transfer_request, value_id};

use crate::link::Link;
use link_rules::{LinkConfig, Monitored};
use std::alloc::Global;
use ua_base::{Mode, OutOfMemory};
use ua_services::Request;
use ua_session_msgs::{
    ActivateSessionRequest, AnonymousIdentityToken, ApplicationDescription, CreateSessionRequest,
    IdentityToken, OpenSecureChannelRequest, ReadRequest, SessionRequest, SignatureData,
    write_identity,
};
use ua_structures::{ReadValueId, UaArray, no_object};
use ua_sub_msgs::{
    CreateMonitoredItemsRequest, CreateSubscriptionRequest, MonitoredItemCreateRequest,
    MonitoringParameters, PublishRequest, RepublishRequest, SetMonitoringModeRequest, SubRequest,
    SubscriptionAcknowledgement, TransferSubscriptionsRequest,
};
use ua_values::{ExtensionObject, LocalizedText, NodeId, QualifiedName, UaBytes, UaText};

/// MessageSecurityMode None (OPC 10000-4, 7.20).
const NO_SECURITY: i32 = 1;

/// An ApplicationType: a client (OPC 10000-4, 7.4).
const CLIENT: i32 = 1;

/// The attribute Value (OPC 10000-6, annex A.1).
const VALUE: u32 = 13;

/// The text of these bytes.
fn text(alloc: Global, bytes: &[u8]) -> Result<UaText, OutOfMemory>
    ensures { IfOk result (λ text. text ≡ Some bytes.now) }
{
    Ok(UaText::new(Vec::from_slice(alloc, bytes)?))
}

/// An array of one element.
fn only<T: Drop>(alloc: Global, value: T) -> Result<UaArray<T>, OutOfMemory>
    ensures { IfOk result (λ array. array ≡ value ∷ []) }
{
    let mut list = Vec::new(alloc);
    list.push(value)?;
    Ok(UaArray::new(list))
}

/// An array of two elements.
fn both<T: Drop>(alloc: Global, first: T, second: T) -> Result<UaArray<T>, OutOfMemory>
    ensures { IfOk result (λ array. array ≡ first ∷ second ∷ []) }
{
    let mut list = Vec::new(alloc);
    list.push(first)?;
    list.push(second)?;
    Ok(UaArray::new(list))
}

/// The number of a mode on the wire.
fn mode_code(mode: Mode) -> i32
    ensures { result ≡ pos (mode_number mode) }
{
    match mode {
        Mode::Disabled => 0,
        Mode::Sampling => 1,
        Mode::Reporting => 2,
    }
}

/// The client, by its application type.
fn client_description(alloc: Global) -> Result<ApplicationDescription, OutOfMemory>
    ensures { IfOk result (λ one. one ≡ client_description) }
{
    Ok(ApplicationDescription {
        application_uri: text(alloc, b"urn:uaset:client")?,
        product_uri: UaText::null(),
        application_name: LocalizedText {
            locale: UaText::null(),
            text: UaText::null(),
        },
        application_type: CLIENT,
        gateway_server_uri: UaText::null(),
        discovery_profile_uri: UaText::null(),
        discovery_urls: UaArray::empty(alloc),
    })
}

/// The identity of who tells none.
fn anonymous(alloc: Global) -> Result<ExtensionObject, OutOfMemory>
    ensures { IfOk result (λ object. object ≡ anonymous) }
{
    let policy_id = text(alloc, b"anonymous")?;
    let identity = IdentityToken::Anonymous(AnonymousIdentityToken { policy_id });
    write_identity(alloc, &identity)
}

/// The value of a node (OPC 10000-4, 7.29).
fn value_id(namespace: u16, id: u32) -> ReadValueId
    ensures { result ≡ value_id namespace id }
{
    ReadValueId {
        node_id: NodeId::Numeric { namespace, id },
        attribute_id: VALUE,
        index_range: UaText::null(),
        data_encoding: QualifiedName {
            namespace: 0,
            name: UaText::null(),
        },
    }
}

/// An item: a node of namespace 2, under its number as handle (OPC 10000-4, 7.21).
#[tactic(auto, unfolding(link_rules::specs::Requests::item_request))]
fn item_request(config: LinkConfig, item: u8) -> MonitoredItemCreateRequest
    ensures { result ≡ item_request config item }
{
    MonitoredItemCreateRequest {
        item_to_monitor: value_id(2, u32::from(item)),
        monitoring_mode: mode_code(config.rest),
        requested_parameters: MonitoringParameters {
            client_handle: u32::from(item),
            sampling_interval: 0,
            filter: no_object(),
            queue_size: config.queue,
            discard_oldest: config.oldest,
        },
    }
}

/// All items, from 1 on.
fn item_requests(
    alloc: Global,
    config: LinkConfig,
) -> Result<UaArray<MonitoredItemCreateRequest>, OutOfMemory>
    ensures { IfOk result (λ items. items ≡ item_requests config config.items) }
{
    let mut list = Vec::new(alloc);
    let mut item = 0;
    while item < config.items {
        item += 1;
        list.push(item_request(config, item))?;
    }
    Ok(UaArray::new(list))
}

/// The acknowledgements of a subscription's messages.
fn acknowledgements(
    alloc: Global,
    id: u32,
    numbers: &[u32],
) -> Result<UaArray<SubscriptionAcknowledgement>, OutOfMemory>
    ensures { IfOk result (λ acks. acks ≡ map (acknowledgement id) numbers.now) }
{
    let mut acks = Vec::new(alloc);
    for number in numbers {
        acks.push(SubscriptionAcknowledgement {
            subscription_id: id,
            sequence_number: *number,
        })?;
    }
    Ok(UaArray::new(acks))
}

/// The server's ids of items.
fn ids_of(alloc: Global, items: &[Monitored]) -> Result<UaArray<u32>, OutOfMemory>
    ensures { IfOk result (λ ids. ids ≡ map (λ monitored. monitored.id) items.now) }
{
    let mut ids = Vec::new(alloc);
    for monitored in items {
        ids.push(monitored.id)?;
    }
    Ok(UaArray::new(ids))
}

impl Link {
    /// OPC 10000-4, 5.5.2: without security, for an hour; the type is 0 to issue a token and 1 to renew it.
    #[tactic(auto, unfolding(link_rules::specs::Requests::channel_request))]
    pub(crate) fn channel_request(&self, which: i32) -> Request
        ensures { result ≡ channel_request which self.now }
    {
        Request::Session(SessionRequest::OpenSecureChannel(OpenSecureChannelRequest {
            request_header: self.null_header(),
            client_protocol_version: 0,
            request_type: which,
            security_mode: NO_SECURITY,
            client_nonce: UaBytes::null(),
            requested_lifetime: 3_600_000,
        }))
    }

    /// OPC 10000-4, 5.6.2: the timeout is the Double 60000.0, in milliseconds.
    #[tactic(auto, unfolding(link_rules::specs::Requests::session_request_of))]
    pub(crate) fn session_request(&self, alloc: Global) -> Result<Request, OutOfMemory>
        ensures { IfOk result (λ request. request ≡ session_request_of self.now) }
    {
        let endpoint_url = self.url.copy(alloc)?;
        let client_description = client_description(alloc)?;
        Ok(Request::Session(SessionRequest::CreateSession(CreateSessionRequest {
            request_header: self.null_header(),
            client_description,
            server_uri: UaText::null(),
            endpoint_url,
            session_name: UaText::null(),
            client_nonce: UaBytes::null(),
            client_certificate: UaBytes::null(),
            requested_session_timeout: 0x40ED_4C00_0000_0000,
            max_response_message_size: 0,
        })))
    }

    /// OPC 10000-4, 5.6.3.
    #[tactic(auto, unfolding(link_rules::specs::Requests::activation_request))]
    pub(crate) fn activation_request(&self, alloc: Global) -> Result<Request, OutOfMemory>
        ensures { IfOk result (λ request. request ≡ activation_request self.now) }
    {
        let request_header = self.header(alloc)?;
        let user_identity_token = anonymous(alloc)?;
        Ok(Request::Session(SessionRequest::ActivateSession(ActivateSessionRequest {
            request_header,
            client_signature: SignatureData::blank(),
            client_software_certificates: UaArray::empty(alloc),
            locale_ids: UaArray::empty(alloc),
            user_identity_token,
            user_token_signature: SignatureData::blank(),
        })))
    }

    /// A Read of these nodes, with the source's times.
    fn read_request(
        &self,
        alloc: Global,
        nodes: UaArray<ReadValueId>,
    ) -> Result<Request, OutOfMemory>
        ensures { IfOk result (λ request. request ≡ read_request nodes self.now) }
    {
        let request_header = self.header(alloc)?;
        Ok(Request::Session(SessionRequest::Read(ReadRequest {
            request_header,
            max_age: 0,
            timestamps_to_return: 0,
            nodes_to_read: nodes,
        })))
    }

    /// ServiceLevel and RedundancySupport (OPC 10000-5, 6.3.1 and 6.3.7).
    #[tactic(auto, unfolding(link_rules::specs::Requests::probe_request))]
    pub(crate) fn probe_request(&self, alloc: Global) -> Result<Request, OutOfMemory>
        ensures { IfOk result (λ request. request ≡ probe_request self.now) }
    {
        let nodes = both(alloc, value_id(0, 2267), value_id(0, 3709))?;
        self.read_request(alloc, nodes)
    }

    /// ServiceLevel.
    #[tactic(auto, unfolding(link_rules::specs::Requests::level_request))]
    pub(crate) fn level_request(&self, alloc: Global) -> Result<Request, OutOfMemory>
        ensures { IfOk result (λ request. request ≡ level_request self.now) }
    {
        let nodes = only(alloc, value_id(0, 2267))?;
        self.read_request(alloc, nodes)
    }

    /// OPC 10000-4, 5.13.2: the interval is the Double 100.0, in milliseconds.
    #[tactic(auto, unfolding(link_rules::specs::Requests::subscription_request))]
    pub(crate) fn subscription_request(&self, alloc: Global) -> Result<Request, OutOfMemory>
        ensures { IfOk result (λ request. request ≡ subscription_request self.now) }
    {
        let request_header = self.header(alloc)?;
        Ok(Request::Subscription(SubRequest::CreateSubscription(CreateSubscriptionRequest {
            request_header,
            requested_publishing_interval: 0x4059_0000_0000_0000,
            requested_lifetime_count: 600,
            requested_max_keep_alive_count: 10,
            max_notifications_per_publish: 1000,
            publishing_enabled: true,
            priority: 0,
        })))
    }

    /// OPC 10000-4, 5.13.7: without the current values.
    #[tactic(auto, unfolding(link_rules::specs::Requests::transfer_request))]
    pub(crate) fn transfer_request(&self, alloc: Global, id: u32) -> Result<Request, OutOfMemory>
        ensures { IfOk result (λ request. request ≡ transfer_request id self.now) }
    {
        let subscription_ids = only(alloc, id)?;
        let request_header = self.header(alloc)?;
        Ok(Request::Subscription(SubRequest::TransferSubscriptions(TransferSubscriptionsRequest {
            request_header,
            subscription_ids,
            send_initial_values: false,
        })))
    }

    /// OPC 10000-4, 5.13.6.
    #[tactic(auto, unfolding(link_rules::specs::Requests::republish_request))]
    pub(crate) fn republish_request(
        &self,
        alloc: Global,
        id: u32,
        number: u32,
    ) -> Result<Request, OutOfMemory>
        ensures { IfOk result (λ request. request ≡ republish_request id number self.now) }
    {
        let request_header = self.header(alloc)?;
        Ok(Request::Subscription(SubRequest::Republish(RepublishRequest {
            request_header,
            subscription_id: id,
            retransmit_sequence_number: number,
        })))
    }

    /// OPC 10000-4, 5.13.5: with all acknowledgements that are due.
    #[tactic(auto, unfolding(link_rules::specs::Requests::publish_request))]
    pub(crate) fn publish_request(&self, alloc: Global, id: u32) -> Result<Request, OutOfMemory>
        ensures { IfOk result (λ request. request ≡ publish_request id self.now) }
    {
        let subscription_acknowledgements = acknowledgements(alloc, id, &self.acks)?;
        let request_header = self.header(alloc)?;
        Ok(Request::Subscription(SubRequest::Publish(PublishRequest {
            request_header,
            subscription_acknowledgements,
        })))
    }

    /// OPC 10000-4, 5.12.2: values come with the source's time.
    #[tactic(auto, unfolding(link_rules::specs::Requests::items_request))]
    pub(crate) fn items_request(&self, alloc: Global, id: u32) -> Result<Request, OutOfMemory>
        ensures { IfOk result (λ request. request ≡ items_request id self.now) }
    {
        let items_to_create = item_requests(alloc, self.config)?;
        let request_header = self.header(alloc)?;
        Ok(Request::Subscription(SubRequest::CreateMonitoredItems(CreateMonitoredItemsRequest {
            request_header,
            subscription_id: id,
            timestamps_to_return: 0,
            items_to_create,
        })))
    }

    /// OPC 10000-4, 5.12.4: all items at once.
    #[tactic(auto, unfolding(link_rules::specs::Requests::mode_request))]
    pub(crate) fn mode_request(
        &self,
        alloc: Global,
        id: u32,
        mode: Mode,
    ) -> Result<Request, OutOfMemory>
        ensures { IfOk result (λ request. request ≡ mode_request id mode self.now) }
    {
        let monitored_item_ids = ids_of(alloc, &self.monitored)?;
        let request_header = self.header(alloc)?;
        Ok(Request::Subscription(SubRequest::SetMonitoringMode(SetMonitoringModeRequest {
            request_header,
            subscription_id: id,
            monitoring_mode: mode_code(mode),
            monitored_item_ids,
        })))
    }
}
