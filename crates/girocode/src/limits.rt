// The girocode's limits and fixed texts.
use sieve::Limits;

pub const MOST_BYTES: usize = 331;

pub const FEWEST_LINES: usize = 7;

pub const MOST_LINES: usize = 12;

// What a whole payload may have of bytes and lines.
pub const LIMITS: Limits = Limits {
    bytes: MOST_BYTES,
    fewest: FEWEST_LINES,
    most: MOST_LINES,
};

// The list of places: start and byte length for each of 12 lines.
pub const LIST_SIZE: usize = 24;

// The most characters that a line may have.
pub const NAME_MOST: usize = 70;

pub const PURPOSE_MOST: usize = 4;

pub const REFERENCE_MOST: usize = 35;

pub const TEXT_MOST: usize = 140;

pub const DISPLAY_MOST: usize = 70;

// The fewest and the most characters of an IBAN.
pub const IBAN_FEWEST: usize = 5;

pub const IBAN_MOST: usize = 34;

// Texts that a line must be, or may be.
pub const SERVICE_TAG: [u8; 3] = *b"BCD";

pub const VERSION_001: [u8; 3] = *b"001";

pub const VERSION_002: [u8; 3] = *b"002";

pub const UTF_8: [u8; 1] = *b"1";

pub const ISO_8859_1: [u8; 1] = *b"2";

pub const CREDIT_TRANSFER: [u8; 3] = *b"SCT";

// What an amount begins with.
pub const EURO: [u8; 3] = *b"EUR";
