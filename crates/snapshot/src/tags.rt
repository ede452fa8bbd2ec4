// The tag of each field; that of the journal's field of the same name where there is one.
pub(crate) const TIME: u8 = 0x01;

pub(crate) const ID: u8 = 0x03;

pub(crate) const INVOICE: u8 = 0x04;

pub(crate) const AMOUNT: u8 = 0x05;

pub(crate) const RATE: u8 = 0x06;

pub(crate) const DURATION: u8 = 0x07;

pub(crate) const EXPIRES: u8 = 0x08;

pub(crate) const COUNT: u8 = 0x0a;

pub(crate) const CODE: u8 = 0x0b;

pub(crate) const FIRST_DUE: u8 = 0x0c;

pub(crate) const SEATS: u8 = 0x0d;

pub(crate) const THRESHOLD: u8 = 0x0e;

pub(crate) const EDITION: u8 = 0x10;

pub(crate) const WINDOW: u8 = 0x11;

pub(crate) const PAUSED: u8 = 0x60;

pub(crate) const APPOINTED: u8 = 0x61;

pub(crate) const REPAYER: u8 = 0x62;

pub(crate) const OFFERS_MADE: u8 = 0x63;

pub(crate) const FINANCED: u8 = 0x64;

pub(crate) const REPAID_TOTAL: u8 = 0x65;

pub(crate) const FEES: u8 = 0x66;

pub(crate) const ACCOUNTS: u8 = 0x70;

pub(crate) const BALANCE: u8 = 0x71;

pub(crate) const ALLOWANCE: u8 = 0x72;

pub(crate) const OFFERED: u8 = 0x73;

pub(crate) const ACCEPTED: u8 = 0x74;

pub(crate) const OFFERS_PENDING: u8 = 0x75;

pub(crate) const OFFERS_REPAID: u8 = 0x76;

pub(crate) const BLACKLISTED: u8 = 0x77;

pub(crate) const INVOICES: u8 = 0x80;

pub(crate) const ORIGINATOR: u8 = 0x81;

pub(crate) const INVOICE_STATUS: u8 = 0x82;

pub(crate) const OFFERS: u8 = 0x90;

pub(crate) const LENDER: u8 = 0x91;

pub(crate) const STATUS: u8 = 0x92;

pub(crate) const FUNDED: u8 = 0x93;

pub(crate) const REPAID: u8 = 0x94;

pub(crate) const DEADLINE: u8 = 0x95;

pub(crate) const OUTCOME: u8 = 0x96;

pub(crate) const ROUNDS: u8 = 0x97;

pub(crate) const KEPT_AMOUNT: u8 = 0x9a;

pub(crate) const KEPT_RATE: u8 = 0x9b;

pub(crate) const KIND: u8 = 0x14;

pub(crate) const PARTY: u8 = 0x98;

pub(crate) const INSTALLMENT: u8 = 0x99;
