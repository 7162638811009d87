//! Ids of the elements of messages and of the items of lists, by their names in TS 36.413 clause 9.3.6.

/// The MME's id of an association (`id-MME-UE-S1AP-ID`).
pub const MME_UE_S1AP_ID: u16 = 0;

/// Why something ended or failed (`id-Cause`).
pub const CAUSE: u16 = 2;

/// The eNB's id of an association (`id-eNB-UE-S1AP-ID`).
pub const ENB_UE_S1AP_ID: u16 = 8;

/// Bearers that are to be switched (`id-E-RABToBeSwitchedDLList`).
pub const ERAB_TO_BE_SWITCHED_DL_LIST: u16 = 22;

/// One of the bearers that are to be switched (`id-E-RABToBeSwitchedDLItem`).
pub const ERAB_TO_BE_SWITCHED_DL_ITEM: u16 = 23;

/// Bearers that are to be set up (`id-E-RABToBeSetupListCtxtSUReq`).
pub const ERAB_TO_BE_SETUP_LIST_CTXT_SU_REQ: u16 = 24;

/// A NAS message (`id-NAS-PDU`).
pub const NAS_PDU: u16 = 26;

/// The next hop of a chain of keys (`id-SecurityContext`).
pub const SECURITY_CONTEXT: u16 = 40;

/// By what a phone is paged (`id-UEPagingID`).
pub const UE_PAGING_ID: u16 = 43;

/// Tracking areas in which a phone is paged (`id-TAIList`).
pub const TAI_LIST: u16 = 46;

/// One of the tracking areas in which a phone is paged (`id-TAIItem`).
pub const TAI_ITEM: u16 = 47;

/// One of the bearers that were set up (`id-E-RABSetupItemCtxtSURes`).
pub const ERAB_SETUP_ITEM_CTXT_SU_RES: u16 = 50;

/// Bearers that were set up (`id-E-RABSetupListCtxtSURes`).
pub const ERAB_SETUP_LIST_CTXT_SU_RES: u16 = 51;

/// One of the bearers that are to be set up (`id-E-RABToBeSetupItemCtxtSUReq`).
pub const ERAB_TO_BE_SETUP_ITEM_CTXT_SU_REQ: u16 = 52;

/// A station of all networks (`id-Global-ENB-ID`).
pub const GLOBAL_ENB_ID: u16 = 59;

/// A station's printable name (`id-eNBname`).
pub const ENB_NAME: u16 = 60;

/// An MME's printable name (`id-MMEname`).
pub const MME_NAME: u16 = 61;

/// The tracking areas of a station (`id-SupportedTAs`).
pub const SUPPORTED_TAS: u16 = 64;

/// The bit rates of a phone, all bearers together (`id-uEaggregateMaximumBitrate`).
pub const UE_AGGREGATE_MAXIMUM_BITRATE: u16 = 66;

/// A tracking area of all networks (`id-TAI`).
pub const TAI: u16 = 67;

/// KeNB (`id-SecurityKey`).
pub const SECURITY_KEY: u16 = 73;

/// What a phone's radio can do (`id-UERadioCapability`).
pub const UE_RADIO_CAPABILITY: u16 = 74;

/// When a phone listens for paging (`id-UEIdentityIndexValue`).
pub const UE_IDENTITY_INDEX_VALUE: u16 = 80;

/// How much of the phones an MME takes (`id-RelativeMMECapacity`).
pub const RELATIVE_MME_CAPACITY: u16 = 87;

/// The MME's id of an association that is to move (`id-SourceMME-UE-S1AP-ID`).
pub const SOURCE_MME_UE_S1AP_ID: u16 = 88;

/// One of the associations of a reset (`id-UE-associatedLogicalS1-ConnectionItem`).
pub const UE_ASSOCIATED_LOGICAL_S1_CONNECTION_ITEM: u16 = 91;

/// What is reset (`id-ResetType`).
pub const RESET_TYPE: u16 = 92;

/// Associations that were reset (`id-UE-associatedLogicalS1-ConnectionListResAck`).
pub const UE_ASSOCIATED_LOGICAL_S1_CONNECTION_LIST_RES_ACK: u16 = 93;

/// A phone in its network, for a time (`id-S-TMSI`).
pub const S_TMSI: u16 = 96;

/// The ids of an association that are known (`id-UE-S1AP-IDs`).
pub const UE_S1AP_IDS: u16 = 99;

/// A cell of all networks (`id-EUTRAN-CGI`).
pub const EUTRAN_CGI: u16 = 100;

/// Networks, groups and codes that an MME serves (`id-ServedGUMMEIs`).
pub const SERVED_GUMMEIS: u16 = 105;

/// The algorithms of a phone (`id-UESecurityCapabilities`).
pub const UE_SECURITY_CAPABILITIES: u16 = 107;

/// For which domain a phone is paged (`id-CNDomain`).
pub const CN_DOMAIN: u16 = 109;

/// Why a phone asked for a connection (`id-RRC-Establishment-Cause`).
pub const RRC_ESTABLISHMENT_CAUSE: u16 = 134;

/// The default paging cycle of a station (`id-DefaultPagingDRX`).
pub const DEFAULT_PAGING_DRX: u16 = 137;
